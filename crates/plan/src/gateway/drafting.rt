// A draft takes one frame after the other, and becomes a table at the end.
ghost use Rattle.std.specs.Prelude.{◌≡◌, ◌<◌, ◌↔◌, IsTrue, [], map, length, None, Some};
ghost use Rattle.model.specs.Meaning.{EndsBelow, pair_of};
ghost use Rattle.plan.specs.Drafts.{so_far, told_by, Takes, Finishes};

use crate::faults::PlanFault;
use crate::gateway::GatewayTable;
use crate::gateway::drafts::{Draft, Linked, Stepped};
use crate::gateway::frames::{FrameKind, step_logic, two_steps};
use crate::graphs::Graph;
use model::{Ends, StepNo};
use std::alloc::Global;
use text::Frame;

const MOST_STEPS: usize = 1024;

const MOST_LINKS: usize = 2048;

impl Stepped {
    // Whether the step is one that was told.
    fn has(&self, step: StepNo) -> bool
        ensures { IsTrue result ↔ (step.0 < length self.now.logics.items) }
    {
        (step.0 as usize) < self.logics.len()
    }

    fn take_step(mut self, frame: &Frame) -> Result<Draft, PlanFault>
        requires { frame.now.kind ≡ 0x10 }
        ensures { Takes (Some (so_far self [])) frame.now result }
    {
        let logic = step_logic(frame)?;
        if self.logics.len() >= MOST_STEPS {
            return Err(PlanFault::TooManySteps { line: frame.line });
        }
        self.logics.push(logic)?;
        Ok(Draft::Steps(self))
    }

    // Takes a link after these links.
    fn take_link(self, mut links: Vec<Ends>, frame: &Frame) -> Result<Draft, PlanFault>
        requires below { EndsBelow (length self.logics.items) (map pair_of links.items) }
        requires kind { frame.now.kind ≡ 0x20 }
        ensures { Takes (Some (so_far self links.items)) frame.now result }
    {
        let (tail, head) = two_steps(frame)?;
        if links.len() >= MOST_LINKS {
            return Err(PlanFault::TooManyLinks { line: frame.line });
        }
        if !self.has(tail) || !self.has(head) {
            return Err(PlanFault::NoStep { line: frame.line });
        }
        links.push(Ends { tail, head })?;
        Ok(Draft::Links(Linked { steps: self, links }))
    }
}

fn take_head(frame: &Frame, heap: Global) -> Result<Draft, PlanFault>
    requires { frame.now.kind ≡ 0x01 }
    ensures { Takes None frame.now result }
{
    let (first, last) = two_steps(frame)?;
    let logics = Vec::new(heap);
    Ok(Draft::Steps(Stepped {
        first,
        last,
        logics,
    }))
}

impl Draft {
    pub(crate) fn new(heap: Global) -> Draft
        ensures { told_by result ≡ None }
    {
        Draft::BeforeHead(heap)
    }

    // Takes the next frame, or tells what is wrong with it; the checks stand in the order of their numbers. A rule of the project: what may follow is told by the draft and the frame's kind in one match.
    pub(crate) fn take(self, frame: &Frame) -> Result<Draft, PlanFault>
        ensures { Takes (told_by self) frame.now result }
    {
        match (self, FrameKind::try_from(frame.kind)) {
            (Draft::BeforeHead(heap), Ok(FrameKind::Head)) => take_head(frame, heap),
            (Draft::Steps(steps), Ok(FrameKind::Step)) => steps.take_step(frame),
            (Draft::Steps(steps), Ok(FrameKind::Link)) => {
                let links = Vec::new(*steps.logics.allocator());
                steps.take_link(links, frame)
            }
            (Draft::Links(Linked { steps, links }), Ok(FrameKind::Link)) => {
                steps.take_link(links, frame)
            }
            _ => Err(PlanFault::KindNotAllowed { line: frame.line }),
        }
    }

    // The table, if all that it needs was told; `line` is the last line of the text.
    pub(crate) fn finish(self, line: u16) -> Result<GatewayTable, PlanFault>
        ensures { Finishes self line result }
    {
        let Draft::Links(Linked { steps, links }) = self else {
            return Err(PlanFault::Incomplete { line });
        };
        if steps.logics.len() < 2 {
            return Err(PlanFault::Incomplete { line });
        }
        if !steps.has(steps.first) || !steps.has(steps.last) || steps.first == steps.last {
            return Err(PlanFault::BadEnds);
        }
        let Stepped {
            first,
            last,
            logics,
        } = steps;
        let graph = Graph {
            steps: logics.len() as u16,
            links,
            first,
            last,
        };
        Ok(GatewayTable { graph, logics })
    }
}
