// The turned plan, over any plan: every link runs the other way, and first and last change places.
ghost use Rattle.std.specs.Prelude.{◌≡◌};
ghost use Rattle.plan.specs.Makes.{turned, turned_limits};

use crate::asking::Plan;
use model::{Ends, LinkNo, Logic, StepNo};

#[derive(Drop)]
pub struct Turned<P> {
    below: P,
}

impl<P: Plan> Turned<P> {
    pub fn new(below: P) -> Turned<P>
        ensures { result.below ≡ below }
    {
        Turned { below }
    }
}

impl<P: Plan> Plan for Turned<P> {
    ghost meaning = { λ t. turned (P.Plan.meaning t.below) };

    ghost limits = { λ t. turned_limits (P.Plan.meaning t.below) (P.Plan.limits t.below) };

    fn step_count(&self) -> u16 {
        self.below.step_count()
    }

    fn link_count(&self) -> u16 {
        self.below.link_count()
    }

    fn first(&self) -> StepNo {
        self.below.last()
    }

    fn last(&self) -> StepNo {
        self.below.first()
    }

    fn ends(&self, link: LinkNo) -> Option<Ends> {
        self.below.ends(link).map(Ends::turned)
    }

    fn logic(&self, step: StepNo) -> Option<Logic> {
        self.below.logic(step)
    }
}
