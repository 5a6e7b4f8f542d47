// The closed plan's links and their depth-first tree, side by side. It can be made of any tree: that it is `Bounded` is asked where it is used, and holds of what `of` makes.
ghost use Rattle.std.specs.Prelude.{◌≡◌, ◌<◌, ◌↔◌, min, max, length, None, IfOk, IfSome, MatchOption, ◌≢◌, slice_index_or};
ghost use Rattle.model.specs.Walks.{Sound, closed};
ghost use Rattle.plan.specs.Copied.{graph_of};
ghost use Rattle.search.specs.Spans.{Spans};
ghost use Rattle.brackets.specs.Method.{links_of, visits_of, numbers_of, number_of, size_of, Bounded, Whole};

use lists::NoMemory;
use model::Ends;
use search::{Graph, Tree, closed_links, depth_first};
use std::alloc::Global;

#[derive(Drop)]
pub struct Spanning {
    pub links: Vec<Ends>,
    pub tree: Tree,
}

impl Spanning {
    // The links of the closed plan, and their tree from the first step. That of a sound plan is as the method asks.
    pub fn of(graph: &Graph, heap: Global) -> Result<Spanning, NoMemory>
        ensures links { IfOk result (λ s. links_of s ≡ closed (graph_of graph.now)) }
        ensures spans { IfOk result (λ s. Spans (closed (graph_of graph.now)) graph.now.steps graph.now.first.0 (numbers_of s) (visits_of s)) }
        ensures bounded { IfOk result Bounded }
        ensures whole { IfOk result (λ s. Sound (graph_of graph.now) → Whole s) }
    {
        let links = closed_links(graph, heap)?;
        let tree = depth_first(graph, heap)?;
        Ok(Spanning { links, tree })
    }

    // The numbers of the ends of a link, the larger first, if they differ. Where the search came to neither end, there are none.
    pub(crate) fn numbers(&self, ends: Ends) -> Option<(u16, u16)>
        requires tail { ends.tail.0 < length (numbers_of self.now) }
        requires head { ends.head.0 < length (numbers_of self.now) }
        requires both { (slice_index_or (numbers_of self.now) ends.tail.0 None ≡ None) ↔ (slice_index_or (numbers_of self.now) ends.head.0 None ≡ None) }
        ensures same { MatchOption result (number_of self.now ends.tail.0 ≡ number_of self.now ends.head.0) (λ _. number_of self.now ends.tail.0 ≢ number_of self.now ends.head.0) }
        ensures from { IfSome result (λ p. (p.0 ≡ max (number_of self.now ends.tail.0) (number_of self.now ends.head.0)) × (p.0 < size_of self.now)) }
        ensures to { IfSome result (λ p. p.1 ≡ min (number_of self.now ends.tail.0) (number_of self.now ends.head.0)) }
    {
        let tail = self.tree.number[ends.tail.0 as usize]?;
        let head = self.tree.number[ends.head.0 as usize]?;
        if tail == head {
            return None;
        }
        Some((tail.max(head), tail.min(head)))
    }
}
