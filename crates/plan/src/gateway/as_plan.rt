ghost use Rattle.plan.specs.Table.{meaning_of, limits_of};

use crate::asking::Plan;
use crate::gateway::GatewayTable;
use model::{Ends, LinkNo, Logic, StepNo};

impl Plan for GatewayTable {
    ghost meaning = { meaning_of };

    ghost limits = { limits_of };

    fn step_count(&self) -> u16 {
        self.graph.steps
    }

    fn link_count(&self) -> u16 {
        self.graph.links.len() as u16
    }

    fn first(&self) -> StepNo {
        self.graph.first
    }

    fn last(&self) -> StepNo {
        self.graph.last
    }

    fn ends(&self, link: LinkNo) -> Option<Ends> {
        self.graph.links.get(link.0 as usize).copied()
    }

    fn logic(&self, step: StepNo) -> Option<Logic> {
        self.logics.get(step.0 as usize).copied()
    }
}
