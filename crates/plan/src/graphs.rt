// A plan's graph, copied from any plan. The links stand in order of number.
ghost use Rattle.std.specs.Prelude.{◌≡◌, ◌<◌, ◌≤◌, map, length, ◌≢◌};
ghost use Rattle.model.specs.Meaning.{EndsBelow, pair_of};

use model::{Ends, StepNo};

#[derive(Drop)]
pub struct Graph {
    pub steps: u16,
    pub links: Vec<Ends>,
    pub first: StepNo,
    pub last: StepNo,
    ghost some_steps: { 2 ≤ steps },
    ghost few_steps: { steps ≤ 1024 },
    ghost some_links: { 1 ≤ length links.items },
    ghost few_links: { length links.items ≤ 2048 },
    ghost ends_below: { EndsBelow steps (map pair_of links.items) },
    ghost first_below: { first.0 < steps },
    ghost last_below: { last.0 < steps },
    ghost apart: { (first.0 ≢ last.0) },
}
