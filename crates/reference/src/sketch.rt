// A plan as a list of links, for small plans.
use crate::sets::StepSet;
use crate::walks::{next_steps, reached};
use model::{Ends, LinkNo, Logic, StepNo};
use std::alloc::{AllocError, Global};

#[derive(Drop)]
pub struct Sketch {
    // As many as logics, in the numbers that steps have.
    pub steps: u16,
    pub links: Vec<Ends>,
    pub logics: Vec<Logic>,
    pub first: StepNo,
    pub last: StepNo,
}

impl Sketch {
    // None if an end, the first or the last is no step, first and last are one, or there are more steps than a set holds.
    pub fn new(
        links: Vec<Ends>,
        logics: Vec<Logic>,
        first: StepNo,
        last: StepNo,
    ) -> Option<Sketch> {
        let steps = u16::try_from(logics.len()).ok()?;
        let is_step = |step: StepNo| step.0 < steps;
        if steps > StepSet::LIMIT || first == last || !is_step(first) || !is_step(last) {
            return None;
        }
        let ended = links
            .iter()
            .all(|ends| is_step(ends.tail) && is_step(ends.head));
        ended.then_some(Sketch {
            steps,
            links,
            logics,
            first,
            last,
        })
    }

    pub fn ends(&self, link: LinkNo) -> Option<Ends> {
        self.links.get(usize::from(link.0)).copied()
    }

    // The count ends at the highest that is told: a list with more links has no make of plan, and a refusal would ask every caller for a case that none has.
    pub fn link_count(&self) -> u16 {
        u16::try_from(self.links.len()).unwrap_or(u16::MAX)
    }

    // Every link runs the other way, first and last change places. Apart from what the search turns, and not by `Ends::turned`, which the search goes by: the reference shares no code with it.
    pub fn turned(&self, heap: Global) -> Result<Sketch, AllocError> {
        let links = self
            .links
            .iter()
            .map(|&Ends { tail, head }| Ends {
                tail: head,
                head: tail,
            })
            .collect(heap)?;
        Ok(Sketch {
            steps: self.steps,
            links,
            logics: Vec::from_slice(heap, &self.logics)?,
            first: self.last,
            last: self.first,
        })
    }

    // The links of the closed plan: the return link stands last.
    pub fn closed(&self, heap: Global) -> Result<Vec<Ends>, AllocError> {
        let mut links = Vec::from_slice(heap, &self.links)?;
        links.push(Ends {
            tail: self.last,
            head: self.first,
        })?;
        Ok(links)
    }

    // Whether no link enters the first step, none leaves the last, and every step lies on a walk from first to last.
    pub fn sound(&self, heap: Global) -> Result<bool, AllocError> {
        let back = self.turned(heap)?;
        Ok(self.all_reached(heap)? && back.all_reached(heap)?)
    }

    // Whether no link enters the first step, and walks from it reach every step.
    fn all_reached(&self, heap: Global) -> Result<bool, AllocError> {
        let nexts = next_steps(self.steps, &self.links, None, heap)?;
        let found = reached(&nexts, self.first);
        Ok(self.links_into(self.first) == 0 && found.holds(StepSet::below(self.steps)))
    }

    // The steps that this many links or more enter.
    pub fn entered(&self, by: u16) -> StepSet {
        StepSet::of(self.steps, |step| self.links_into(step) >= usize::from(by))
    }

    fn links_into(&self, step: StepNo) -> usize {
        self.links.iter().filter(|ends| ends.head == step).count()
    }

    // The steps of this logic.
    pub fn of_logic(&self, logic: Logic) -> StepSet {
        StepSet::of(self.steps, |step| {
            self.logics.get(usize::from(step.0)).copied() == Some(logic)
        })
    }
}
