// A new table.
ghost use Rattle.std.specs.Prelude.{◌≡◌, IfOk};
ghost use Rattle.plan.specs.Makes.{smallest};
ghost use Rattle.plan.specs.Table.{meaning_of};

use crate::gateway::GatewayTable;
use crate::graphs::Graph;
use model::{Ends, Logic, StepNo};
use std::alloc::{AllocError, Global};

impl GatewayTable {
    // The smallest plan: one link from step 0 to step 1.
    pub fn new(heap: Global) -> Result<GatewayTable, AllocError>
        ensures { IfOk result (λ t. meaning_of t ≡ smallest) }
    {
        let first = StepNo(0);
        let last = StepNo(1);
        let link = Ends {
            tail: first,
            head: last,
        };
        Ok(GatewayTable {
            graph: Graph {
                steps: 2,
                links: vec![in heap; link]?,
                first,
                last,
            },
            logics: vec![in heap; Logic::One, Logic::One]?,
        })
    }
}
