// The order of search: breadth first from one step, each link from its tail to its head.
ghost use Rattle.std.specs.Prelude.{◌≡◌, ℕ, ◌<◌, ◌≤◌, true, false, map, length, IfOk, MatchOption, slice_index_or};
ghost use Rattle.lists.specs.Many.{Reads};
ghost use Rattle.model.specs.Meaning.{pair_of};
ghost use Rattle.search.specs.Searched.{leaving, Searched};

use crate::digraphs::Digraph;
use crate::frontier::Reach;
use lists::{Lists, NoMemory};
use model::{LinkNo, StepNo};
use std::alloc::Global;

// The links as the search came to them, and for each step whether it was reached.
#[derive(Drop)]
pub struct Order {
    pub links: Vec<LinkNo>,
    pub reached: Vec<bool>,
}

impl Order {
    // The smallest step that was not reached.
    pub(crate) fn first_missed(&self) -> Option<StepNo>
        requires { length self.now.reached.items ≤ 65536 }
        ensures { MatchOption result ((k : ℕ) → k < length self.now.reached.items → slice_index_or self.now.reached.items k false ≡ true) (λ s. (s.0 < length self.now.reached.items) × (slice_index_or self.now.reached.items s.0 false ≡ false) × ((k : ℕ) → k < s.0 → slice_index_or self.now.reached.items k false ≡ true)) }
    {
        let i = self.reached.iter().position(|reached| !*reached)?;
        Some(StepNo(i as u16))
    }
}

impl<'a> Digraph<'a> {
    // For each step, the links that leave it, the last one first. Not one with `arcs`: that puts two items for each link, and a function for both would be told how by a closure.
    fn leaving(&self, heap: Global) -> Result<Lists<LinkNo>, NoMemory>
        ensures { IfOk result (λ t. (length t ≡ self.now.steps) × Reads t (leaving (map pair_of self.now.links.now) (length self.now.links.now))) }
    {
        let mut lists = Lists::new(heap, self.steps)?;
        for (i, link) in self.links.iter().enumerate() {
            lists.push_at(link.tail.0 as usize, LinkNo(i as u16))?;
        }
        Ok(lists)
    }

    // All links whose tail can be reached from `start`.
    pub fn order_from(&self, start: StepNo, heap: Global) -> Result<Order, NoMemory>
        requires { start.0 < self.now.steps }
        ensures { IfOk result (λ o. Searched (map pair_of self.now.links.now) self.now.steps start.0 o.links.items o.reached.items) }
    {
        let mut left = self.leaving(heap)?;
        let mut reach = Reach::new(heap, self.steps, start)?;
        let mut order = Vec::new(heap);
        // The step in front stays there until no link of it is left.
        'turn: while let Some(&step) = reach.queue.front() {
            let Some(link) = left.pop_at(step.0 as usize) else {
                reach.queue.pop_front();
                continue;
            };
            order.push(link)?;
            reach.add(self.links[link.0 as usize].head)?;
        }
        Ok(Order {
            links: order,
            reached: reach.reached,
        })
    }
}
