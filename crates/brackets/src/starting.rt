// What starts at each number: the back links, before any number is handled.
ghost use Rattle.std.specs.Prelude.{◌≡◌, ℕ, ◌+◌, ◌^◌, ◌<◌, false, [], length, replicate, IfOk, vec_len, OnOk, OnErr, slice_index_or};
ghost use Rattle.lists.specs.Many.{row, Reads};
ghost use Rattle.naming.specs.DepthFirst.{of_tree};
ghost use Rattle.search.specs.Spans.{link_of};
ghost use Rattle.brackets.specs.Handled.{Handled, Begins};
ghost use Rattle.brackets.specs.Levels.{bare, level};
ghost use Rattle.brackets.specs.Live.{with_start, started};
ghost use Rattle.brackets.specs.Method.{size_of, Bounded, Whole};

use crate::holding::{Bracket, Sweep};
use crate::levels::Level;
use crate::spanning::Spanning;
use lists::{Lists, NoMemory};
use search::Visit;
use std::alloc::Global;

// For each of so many links, whether it is in the tree.
fn tree_links(visits: &[Visit], links: usize, heap: Global) -> Result<Vec<bool>, NoMemory>
    requires { (k : ℕ) → 0 < k → k < length visits.now → link_of visits.now k < links }
    ensures { IfOk result (λ v. (length v.items ≡ links) × ((e : ℕ) → slice_index_or v.items e false ≡ of_tree (link_of visits.now) (length visits.now) e)) }
{
    let mut in_tree = vec![in heap; false; links]?;
    for visit in visits.iter().skip(1) {
        in_tree[visit.link.0 as usize] = true;
    }
    Ok(in_tree)
}

impl Sweep {
    // Nothing is known, and every list is empty.
    fn empty(numbers: u16, heap: Global) -> Result<Sweep, NoMemory>
        ensures { IfOk result (λ w. (w.levels.items ≡ replicate numbers (bare numbers)) × (w.brackets ≡ replicate (numbers + numbers) [])) }
    {
        let count = numbers as usize;
        let levels = vec![in heap; Level::bare(numbers); count]?;
        let brackets = Lists::new(heap, count + count)?;
        Ok(Sweep { brackets, levels })
    }

    // Puts a back link to the own brackets of the number that it starts from.
    fn start(&mut self, link: u16, from: u16, to: u16) -> Result<(), NoMemory>
        requires from { from < vec_len self.old.levels }
        requires to { to < vec_len self.old.levels }
        requires room { (level self.old.levels.items to).ends + 1 < 2 ^ 32 }
        ensures levels { OnOk result (self.new.levels.items ≡ started self.old.levels.items from to) }
        ensures rows { OnOk result (Reads self.new.brackets (with_start (vec_len self.old.levels) (row self.old.brackets) link from to)) }
        ensures kept { OnErr result ((self.new.brackets ≡ self.old.brackets) × (self.new.levels ≡ self.old.levels)) }
    {
        let own = self.levels.len() + from as usize;
        self.brackets.push_at(own, Bracket { item: link, to })?;
        let (from, at) = (from as usize, to as usize);
        self.levels[from] = self.levels[from].with_back_link(to);
        self.levels[at] = self.levels[at].with_end();
        Ok(())
    }

    // Every back link at the number that it starts from. A link with equal ends is none.
    pub fn new(search: &Spanning, heap: Global) -> Result<Sweep, NoMemory>
        requires { Bounded search.now }
        ensures begun { IfOk result (Begins search.now) }
        ensures handled { IfOk result (λ w. Whole search.now → Handled search.now (size_of search.now) w) }
    {
        let in_tree = tree_links(&search.tree.visits, search.links.len(), heap)?;
        let mut sweep = Sweep::empty(search.tree.visits.len() as u16, heap)?;
        for (l, ends) in search.links.iter().enumerate() {
            if in_tree[l] {
                continue;
            }
            let Some((from, to)) = search.numbers(*ends) else {
                continue;
            };
            sweep.start(l as u16, from, to)?;
        }
        Ok(sweep)
    }
}
