// A table in the making: what the frames so far have told. The limits of a table hold at every stage.
ghost use Rattle.std.specs.Prelude.{◌≤◌, map, length};
ghost use Rattle.model.specs.Meaning.{EndsBelow, pair_of};

use model::{Ends, Logic, StepNo};
use std::alloc::Global;

// The head, and the steps so far.
#[derive(Drop)]
pub(crate) struct Stepped {
    pub(crate) first: StepNo,
    pub(crate) last: StepNo,
    pub(crate) logics: Vec<Logic>,
    ghost few_logics: { length logics.items ≤ 1024 },
}

// All the steps, and the links so far, one at least.
#[derive(Drop)]
pub(crate) struct Linked {
    pub(crate) steps: Stepped,
    pub(crate) links: Vec<Ends>,
    ghost some_links: { 1 ≤ length links.items },
    ghost few_links: { length links.items ≤ 2048 },
    ghost ends_below: { EndsBelow (length steps.logics.items) (map pair_of links.items) },
}

// What has been told, which decides what may follow.
#[derive(Drop)]
pub(crate) enum Draft {
    BeforeHead(Global),
    Steps(Stepped),
    Links(Linked),
}
