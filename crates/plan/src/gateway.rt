// The gateway table: a graph, and a logic for each step.
ghost use Rattle.std.specs.Prelude.{◌≡◌, length};

use crate::graphs::Graph;
use model::Logic;

pub mod as_plan;
pub(crate) mod drafting;
pub(crate) mod drafts;
pub(crate) mod frames;
pub mod making;
pub mod reading;

#[derive(Drop)]
pub struct GatewayTable {
    graph: Graph,
    logics: Vec<Logic>,
    ghost each: { length logics.items ≡ graph.steps },
}
