// Which steps walks reach, with one link taken away.
use crate::sets::StepSet;
use crate::sketch::Sketch;
use model::{Ends, LinkNo, StepNo};
use std::alloc::{AllocError, Global};

// For each link, what every step reaches by walks that do not pass it.
#[derive(Drop)]
pub struct Cuts {
    without: Vec<Vec<StepSet>>,
}

impl Cuts {
    pub fn new(steps: u16, links: &[Ends], heap: Global) -> Result<Cuts, AllocError> {
        let without = (0..links.len())
            .map(|cut| -> Result<Vec<StepSet>, AllocError> {
                let nexts = next_steps(steps, links, Some(cut), heap)?;
                (0..steps)
                    .map(|step| reached(&nexts, StepNo(step)))
                    .collect(heap)
            })
            .try_collect(heap)?;
        Ok(Cuts { without })
    }

    pub fn reach(&self, cut: LinkNo, from: StepNo) -> StepSet {
        self.without
            .get(usize::from(cut.0))
            .and_then(|row| row.get(usize::from(from.0)))
            .copied()
            .unwrap_or(StepSet::none())
    }
}

// For each step, the heads of the links that leave it, the cut one left out.
pub fn next_steps(
    steps: u16,
    links: &[Ends],
    cut: Option<usize>,
    heap: Global,
) -> Result<Vec<StepSet>, AllocError> {
    let mut nexts = vec![in heap; StepSet::none(); usize::from(steps)]?;
    for (number, ends) in links.iter().enumerate() {
        if cut != Some(number)
            && let Some(set) = nexts.get_mut(usize::from(ends.tail.0))
        {
            *set = set.with(ends.head);
        }
    }
    Ok(nexts)
}

// The steps that walks from the step reach, itself among them.
pub fn reached(nexts: &[StepSet], from: StepNo) -> StepSet {
    let mut seen = StepSet::only(from);
    let mut work = seen;
    // A step is put on the work list once, when it is first seen: a `for` over the steps is as plain as a `while let`, and says how many turns there are.
    for _ in nexts {
        let Some(step) = work.lowest() else {
            break;
        };
        let next = nexts
            .get(usize::from(step.0))
            .copied()
            .unwrap_or(StepSet::none());
        let found = next - seen;
        seen = seen | found;
        work = (work - StepSet::only(step)) | found;
    }
    seen
}

// The relations between the links of a plan that walks decide.
#[derive(Drop)]
pub struct Walks<'a> {
    pub sketch: &'a Sketch,
    plan: Cuts,
    closed: Cuts,
}

impl<'a> Walks<'a> {
    pub fn new(sketch: &'a Sketch, heap: Global) -> Result<Walks<'a>, AllocError> {
        let closed = sketch.closed(heap)?;
        Ok(Walks {
            sketch,
            plan: Cuts::new(sketch.steps, &sketch.links, heap)?,
            closed: Cuts::new(sketch.steps, &closed, heap)?,
        })
    }

    // Whether every closed walk that passes a passes b.
    fn binds(&self, a: LinkNo, b: LinkNo) -> bool {
        self.sketch.ends(a).is_some_and(|ends| a == b
            || !self.closed.reach(b, ends.head).has(ends.tail))
    }

    pub fn shares(&self, a: LinkNo, b: LinkNo) -> bool {
        self.binds(a, b) && self.binds(b, a)
    }

    // Whether a is another link than b, and every walk from the first step that passes b passes a.
    pub fn leads(&self, a: LinkNo, b: LinkNo) -> bool {
        self.sketch.ends(b).is_some_and(|ends| a != b
            && !self.plan.reach(a, self.sketch.first).has(ends.tail))
    }

    // The smallest link that shares a class with the link.
    pub fn class(&self, link: LinkNo) -> LinkNo {
        (0..link.0)
            .map(LinkNo)
            .find(|other| self.shares(*other, link))
            .unwrap_or(link)
    }

    // Whether some third link of the class is led by a and leads b.
    fn parted(&self, a: LinkNo, b: LinkNo) -> bool {
        (0..self.sketch.link_count()).map(LinkNo).any(|third| {
            self.shares(a, third) && self.leads(a, third) && self.leads(third, b)
        })
    }

    pub fn canonical(&self, a: LinkNo, b: LinkNo) -> bool {
        self.shares(a, b) && self.leads(a, b) && !self.parted(a, b)
    }

    // The steps that walks from the head of a reach without passing b.
    pub fn inside(&self, a: LinkNo, b: LinkNo) -> StepSet {
        self.sketch
            .ends(a)
            .map_or(StepSet::none(), |ends| self.plan.reach(b, ends.head))
    }
}
