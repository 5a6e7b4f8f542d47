// The links at each step, directions forgotten.
ghost use Rattle.std.specs.Prelude.{◌≡◌, map, length, IfOk};
ghost use Rattle.lists.specs.Many.{Reads};
ghost use Rattle.model.specs.Meaning.{pair_of};
ghost use Rattle.search.specs.Joined.{arcs_of};

use crate::digraphs::Digraph;
use lists::{Lists, NoMemory};
use model::{Ends, LinkNo, StepNo};
use std::alloc::Global;

// A link as it is seen from one of its ends: its number, and the other end.
#[derive(Clone, Copy)]
pub struct Arc {
    pub link: LinkNo,
    pub to: StepNo,
}

impl<'a> Digraph<'a> {
    // For each step, the links that it has, the last one first.
    pub(crate) fn arcs(&self, heap: Global) -> Result<Lists<Arc>, NoMemory>
        ensures { IfOk result (λ t. (length t ≡ self.now.steps) × Reads t (arcs_of (map pair_of self.now.links.now) (length self.now.links.now))) }
    {
        let mut arcs = Lists::new(heap, self.steps)?;
        for (i, &Ends { tail, head }) in self.links.iter().enumerate() {
            let link = LinkNo(i as u16);
            arcs.push_at(tail.0 as usize, Arc { link, to: head })?;
            arcs.push_at(head.0 as usize, Arc { link, to: tail })?;
        }
        Ok(arcs)
    }
}
