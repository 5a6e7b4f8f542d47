// The numbers from the last to the first: each tells the name of the tree link above it.
ghost use Rattle.std.specs.Prelude.{◌≡◌, ◌+◌, ◌^◌, ◌<◌, ◌≤◌, length, IfOk, vec_len};
ghost use Rattle.std.proofs.Props.{props};
ghost use Rattle.brackets.specs.Method.{links_of, size_of, Bounded};
ghost use Rattle.classes.specs.Bounds.{Below};
ghost use Rattle.classes.specs.Held.{Held};
ghost use Rattle.theory.specs.Each.{Each};

use crate::names::{Names, smallest};
use brackets::{Spanning, Sweep};
use lists::NoMemory;
use model::LinkNo;
use search::{Graph, Visit};
use std::alloc::Global;

// A sweep over the numbers of a closed plan, and what was named so far. Each bracket of the lists is one of those that can have been named.
#[derive(Drop)]
struct Naming {
    sweep: Sweep,
    names: Names,
    ghost held: { Held (length names.latest.items) sweep.brackets } by { Prim.hlevel props },
    ghost caps: { names.links + vec_len sweep.levels ≤ length names.latest.items },
    ghost few: { names.links + vec_len sweep.levels < 2 ^ 16 },
}

impl Naming {
    // No number is handled yet.
    fn new(search: &Spanning, heap: Global) -> Result<Naming, NoMemory>
        requires { Bounded search.now }
        ensures { IfOk result (λ n. (n.names.links ≡ length (links_of search.now)) × (vec_len n.sweep.levels ≡ size_of search.now)) }
    {
        let sweep = Sweep::new(search, heap)?;
        let links = search.links.len() as u16;
        let brackets = links + search.tree.visits.len() as u16;
        let names = Names::new(links, brackets, heap)?;
        Ok(Naming { sweep, names })
    }

    // Handles `v`: the first link with the name of the tree link above it.
    fn turn(&mut self, v: u16, visit: Visit) -> Result<LinkNo, NoMemory>
        requires within { v < vec_len self.old.sweep.levels }
        requires parent { visit.parent < v }
        requires link { visit.link.0 < self.old.names.links }
        ensures below { IfOk result (λ l. l.0 < self.old.names.links) }
        ensures links { self.new.names.links ≡ self.old.names.links }
        ensures len { vec_len self.new.sweep.levels ≡ vec_len self.old.sweep.levels }
    {
        let name = self.sweep.handle(v, visit.parent, self.names.links)?;
        Ok(self.names.first_named(name, visit.link))
    }
}

// Each link by itself.
fn own_names(links: u16, heap: Global) -> Result<Vec<LinkNo>, NoMemory>
    ensures { IfOk result (λ v. (length v.items ≡ links) × Each (Below links) (record { 0 = 0 }) v.items) }
{
    Ok((0..links).map(LinkNo).collect(heap)?)
}

// For each link of the closed plan, the first link that got its name. A back link, and a link with equal ends, is named by itself.
fn first_links(search: &Spanning, heap: Global) -> Result<Vec<LinkNo>, NoMemory>
    requires { Bounded search.now }
    ensures { IfOk result (λ v. (length v.items ≡ length (links_of search.now)) × Each (Below (length (links_of search.now))) (record { 0 = 0 }) v.items) }
{
    let mut firsts = own_names(search.links.len() as u16, heap)?;
    let mut naming = Naming::new(search, heap)?;
    for (v, visit) in search.tree.visits.iter().enumerate().skip(1).rev() {
        firsts[visit.link.0 as usize] = naming.turn(v as u16, *visit)?;
    }
    Ok(firsts)
}

// For each link of a sound plan, the smallest link of its class.
pub fn classes(graph: &Graph, heap: Global) -> Result<Vec<LinkNo>, NoMemory>
    ensures { IfOk result (λ v. (length v.items ≡ length graph.now.links.items) × Each (Below (length graph.now.links.items)) (record { 0 = 0 }) v.items) }
{
    let search = Spanning::of(graph, heap)?;
    let firsts = first_links(&search, heap)?;
    smallest(&firsts, graph.links.len(), heap)
}
