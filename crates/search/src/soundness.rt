// Whether a plan is sound: no link enters the first step, none leaves the last, and every step lies between them.
ghost use Rattle.std.specs.Prelude.{◌≡◌, map, IfOk, MatchResult};
ghost use Rattle.search.specs.Walks.{NoneIn, NoneOut, turned_ends};
ghost use Rattle.plan.specs.Copied.{graph_of};
ghost use Rattle.search.specs.Shapes.{Shaped, Misshaped};

use crate::digraphs::Digraph;
use crate::shapes::ShapeFault;
use model::{Ends, LinkNo};
use plan::Graph;
use std::alloc::{AllocError, Global};

// Every link the other way round.
fn turned_links(links: &[Ends], heap: Global) -> Result<Vec<Ends>, AllocError>
    ensures { IfOk result (λ v. v.items ≡ map turned_ends links.now) }
{
    links.iter().map(|link| link.turned()).collect(heap)
}

// No link enters the first step, and none leaves the last.
fn check_ends(graph: &Graph) -> Result<(), ShapeFault>
    ensures { MatchResult result (λ _. NoneIn (graph_of graph.now) × NoneOut (graph_of graph.now)) (λ fault. Misshaped (graph_of graph.now) fault) }
{
    let links = graph.links.as_slice();
    if let Some(i) = links.iter().position(|link| link.head == graph.first) {
        return Err(ShapeFault::EntersFirst(LinkNo(i as u16)));
    }
    if let Some(i) = links.iter().position(|link| link.tail == graph.last) {
        return Err(ShapeFault::LeavesLast(LinkNo(i as u16)));
    }
    Ok(())
}

// The order of search of all links of a sound plan.
pub fn sound_order(graph: &Graph, heap: Global) -> Result<Vec<LinkNo>, ShapeFault>
    ensures { MatchResult result (λ order. Shaped (graph_of graph.now) order.items) (λ fault. Misshaped (graph_of graph.now) fault) }
{
    check_ends(graph)?;
    let steps = graph.steps as usize;
    let links = graph.links.as_slice();
    let order = Digraph { links, steps }.order_from(graph.first, heap)?;
    if let Some(step) = order.first_missed() {
        return Err(ShapeFault::NotReached(step));
    }
    let turned = turned_links(links, heap)?;
    let links = turned.as_slice();
    let back = Digraph { links, steps }.order_from(graph.last, heap)?;
    if let Some(step) = back.first_missed() {
        return Err(ShapeFault::NoWayOut(step));
    }
    Ok(order.links)
}
