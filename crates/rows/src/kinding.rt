// The kind of a fragment, by its own steps.
ghost use Rattle.std.specs.Prelude.{◌≡◌};
ghost use Rattle.rows.specs.Kinds.{kind_by, with_own};

use crate::counting::Degree;
use model::{Kind, Logic};

// How many own steps a fragment has, how many of them are `one`, how many branch, and how many of those are `one`.
#[derive(Clone, Copy, Default)]
pub struct Own {
    pub steps: u16,
    pub ones: u16,
    pub branching: u16,
    pub branching_ones: u16,
}

impl Own {
    // One own step more.
    pub fn with(self, logic: Logic, branches: bool) -> Own
        ensures { result ≡ with_own self logic branches }
    {
        let one = logic == Logic::One;
        Own {
            steps: self.steps.saturating_add(1),
            ones: self.ones.saturating_add(u16::from(one)),
            branching: self.branching.saturating_add(u16::from(branches)),
            branching_ones: self
                .branching_ones
                .saturating_add(u16::from(one && branches)),
        }
    }
}

// The first kind that fits; `head` is the step that the entry leads to, `tail` the one that the exit leaves.
pub fn kind_of(own: Own, head: Degree, tail: Degree) -> Kind
    ensures { result ≡ kind_by own head tail }
{
    if own.branching == 0 {
        return Kind::Single;
    }
    let two = own.steps == 2;
    if two && own.ones == 2 && head.opens() && tail.closes() {
        return Kind::Choice;
    }
    if two && own.ones == 0 && head.opens() && tail.closes() {
        return Kind::Parallel;
    }
    if two && own.ones == 2 && head.closes() && tail.opens() {
        return Kind::Loop;
    }
    if own.steps == 1 && own.ones == 1 {
        return Kind::Loop;
    }
    if own.branching_ones == own.branching {
        return Kind::MeshOne;
    }
    if own.branching_ones == 0 {
        return Kind::MeshAll;
    }
    Kind::Mixed
}
