// The depth-first search, directions forgotten.
ghost use Rattle.std.specs.Prelude.{◌≡◌, ◌<◌, ◌≤◌, map, length, IfOk};
ghost use Rattle.model.specs.Meaning.{pair_of};
ghost use Rattle.plan.specs.Copied.{graph_of};
ghost use Rattle.search.specs.Spans.{Spans};
ghost use Rattle.model.specs.Walks.{Sound, closed};

use crate::digraphs::Digraph;
use crate::trees::Tree;
use lists::NoMemory;
use model::{Ends, LinkNo, StepNo};
use plan::Graph;
use std::alloc::Global;

impl<'a> Digraph<'a> {
    // The steps that the links join with `root`, numbered as the search comes to them. Going back is to go to the parent.
    pub(crate) fn explore(&self, root: StepNo, heap: Global) -> Result<Tree, NoMemory>
        requires numbers { self.now.steps ≤ 65536 }
        requires within { root.0 < self.now.steps }
        ensures { IfOk result (λ t. Spans (map pair_of self.now.links.now) self.now.steps root.0 t.number.items t.visits.items) }
    {
        let mut arcs = self.arcs(heap)?;
        let mut tree = Tree::new(heap, self.steps)?;
        let mut top = tree.visit(root, 0, LinkNo(0))?;
        'turn: loop {
            let here = tree.visits[top as usize];
            let Some(arc) = arcs.pop_at(here.step.0 as usize) else {
                if top == 0 {
                    break;
                }
                top = here.parent;
                continue;
            };
            if tree.number[arc.to.0 as usize].is_some() {
                continue;
            }
            top = tree.visit(arc.to, top, arc.link)?;
        }
        Ok(tree)
    }
}

// The links of the closed plan: those of the plan, and then the return link, from last to first.
pub fn closed_links(graph: &Graph, heap: Global) -> Result<Vec<Ends>, NoMemory>
    ensures { IfOk result (λ v. map pair_of v.items ≡ closed (graph_of graph.now)) }
{
    let mut links = Vec::from_slice(heap, &graph.links)?;
    links.push(Ends {
        tail: graph.last,
        head: graph.first,
    })?;
    Ok(links)
}

// The tree of the closed plan from its first step. That of a sound plan has every step.
pub fn depth_first(graph: &Graph, heap: Global) -> Result<Tree, NoMemory>
    ensures spans { IfOk result (λ t. Spans (closed (graph_of graph.now)) graph.now.steps graph.now.first.0 t.number.items t.visits.items) }
    ensures whole { IfOk result (λ t. Sound (graph_of graph.now) → length t.visits.items ≡ graph.now.steps) }
{
    let links = closed_links(graph, heap)?;
    let digraph = Digraph {
        links: &links,
        steps: graph.steps as usize,
    };
    digraph.explore(graph.first, heap)
}
