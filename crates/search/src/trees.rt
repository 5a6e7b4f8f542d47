// The tree of a depth-first search: the steps in the order in which the search came to them.
ghost use Rattle.std.specs.Prelude.{◌≡◌, ℕ, ◌+◌, ◌<◌, ◌≤◌, [], ◌∷◌, ◌++◌, length, IfOk, Some, None, vec_len, slice_index_or, slice_set};
ghost use Rattle.search.specs.Numbered.{Inside, Back, Known, Forth, Above, nones};

use lists::NoMemory;
use model::{LinkNo, StepNo};
use std::alloc::Global;

// A step as the search came to it: the number of its parent, and the link from there. The first is its own parent, and its link stands for nothing: as options, both would be taken apart wherever a number's ancestors are told, for a case that number 0 alone has.
#[derive(Clone, Copy, PartialEq, Eq, Debug)]
pub struct Visit {
    pub step: StepNo,
    pub parent: u16,
    pub link: LinkNo,
}

// The visits in their order, and for each step the number of its visit.
#[derive(Drop)]
pub struct Tree {
    pub number: Vec<Option<u16>>,
    pub visits: Vec<Visit>,
    ghost few: { length number.items ≤ 65536 },
    ghost filled: { length visits.items + nones number.items ≡ length number.items },
    ghost inside: { Inside number.items visits.items },
    ghost back: { Back number.items visits.items },
    ghost known: { Known number.items visits.items },
    ghost forth: { Forth number.items visits.items },
    ghost above: { Above visits.items },
}

impl Tree {
    // No step has a number yet.
    pub(crate) fn new(heap: Global, steps: usize) -> Result<Tree, NoMemory>
        requires { steps ≤ 65536 }
        ensures { IfOk result (λ t. (vec_len t.number ≡ steps) × (t.visits.items ≡ []) × ((v : ℕ) → slice_index_or t.number.items v None ≡ None)) }
    {
        Ok(Tree {
            number: vec![in heap; None; steps]?,
            visits: Vec::new(heap),
        })
    }

    // Gives `step` the next number.
    pub(crate) fn visit(&mut self, step: StepNo, parent: u16, link: LinkNo) -> Result<u16, NoMemory>
        requires within { step.0 < vec_len self.old.number }
        requires fresh { slice_index_or self.old.number.items step.0 None ≡ None }
        requires up { 0 < vec_len self.old.visits → parent < vec_len self.old.visits }
        ensures made { IfOk result (λ k. (k ≡ length self.old.visits.items) × (self.new.visits.items ≡ self.old.visits.items ++ record { step = step; parent = parent; link = link } ∷ []) × (self.new.number.items ≡ slice_set self.old.number.items step.0 (Some k))) }
        ensures len { vec_len self.new.number ≡ vec_len self.old.number }
    {
        let k = self.visits.len() as u16;
        self.visits.push(Visit { step, parent, link })?;
        self.number[step.0 as usize] = Some(k);
        Ok(k)
    }
}
