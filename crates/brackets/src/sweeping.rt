// The numbers from the last to the first: each list gets its own brackets and its cap, names its tree link, and joins its parent's.
ghost use Rattle.std.specs.Prelude.{◌≡◌, ◌+◌, ◌^◌, ◌<◌, length, IfOk, vec_len, OnOk, OnErr, ◌≢◌, slice_set};
ghost use Rattle.std.specs.Option.{option_map};
ghost use Rattle.lists.specs.Many.{row, Reads};
ghost use Rattle.lists.specs.Rows.{top};
ghost use Rattle.brackets.specs.Handled.{Handled, name_of};
ghost use Rattle.brackets.specs.Levels.{Room};
ghost use Rattle.brackets.specs.Live.{live, left, passed, with_cap, capped_levels};
ghost use Rattle.brackets.specs.Method.{size_of, Whole};
ghost use Rattle.brackets.specs.Turned.{top_after, rows_after, name_after, levels_after, Fits};

pub use crate::holding::{Bracket, Name, Sweep};
use crate::spanning::Spanning;
use lists::{Lists, NoMemory};
use search::Visit;

// The top of the list of `v`, once the brackets that end at `v` or below are taken off it.
fn live_top(brackets: &mut Lists<Bracket>, v: u16) -> Option<u16>
    requires { v < length brackets.old }
    ensures top { result ≡ option_map (λ b. b.item) (top (live v (row brackets.old v))) }
    ensures lists { brackets.new ≡ slice_set brackets.old v (live v (row brackets.old v)) }
{
    while let Some(top) = brackets.first_at(v as usize) {
        if top.to < v {
            return Some(top.item);
        }
        let _ = brackets.pop_at(v as usize);
    }
    None
}

// Puts the own brackets of `v` in front of its children's, and moves what is still live of them in front of its parent's. Answers the live top.
fn pass_on(brackets: &mut Lists<Bracket>, v: u16, own: usize, parent: u16) -> Option<u16>
    requires v { v < length brackets.old }
    requires own { own < length brackets.old }
    requires parent { parent < v }
    requires other { v ≢ own }
    ensures top { result ≡ option_map (λ b. b.item) (top (left (row brackets.old) v own)) }
    ensures rows { Reads brackets.new (passed (row brackets.old) v own parent) }
    ensures len { length brackets.new ≡ length brackets.old }
{
    brackets.join_at(v as usize, own);
    let top = live_top(brackets, v);
    brackets.join_at(parent as usize, v as usize);
    top
}

impl Sweep {
    // Puts a cap to the own brackets of `v`, if it has one.
    fn push_cap(&mut self, v: u16, links: u16) -> Result<(), NoMemory>
        requires within { v < vec_len self.old.levels }
        requires item { links + v < 2 ^ 16 }
        ensures levels { OnOk result (Room self.old.levels.items → self.new.levels.items ≡ capped_levels self.old.levels.items v) }
        ensures rows { OnOk result (Reads self.new.brackets (with_cap (vec_len self.old.levels) links self.old.levels.items (row self.old.brackets) v)) }
        ensures len { vec_len self.new.levels ≡ vec_len self.old.levels }
        ensures kept { OnErr result ((self.new.brackets ≡ self.old.brackets) × (self.new.levels ≡ self.old.levels)) }
    {
        let Some(to) = self.levels[v as usize].cap(v) else {
            return Ok(());
        };
        let own = self.levels.len() + v as usize;
        let item = links + v;
        self.brackets.push_at(own, Bracket { item, to })?;
        self.levels[to as usize] = self.levels[to as usize].with_end();
        Ok(())
    }

    // Handles `v`, of `links` links and caps by number: puts its own brackets and its cap in front of its children's, takes off the top what ends at `v` or below, and moves the rest to the list of its parent. Answers the name of the tree link above `v`, if a bracket passes it. Where no memory is found, nothing has changed.
    pub fn handle(&mut self, v: u16, parent: u16, links: u16) -> Result<Option<Name>, NoMemory>
        requires within { v < vec_len self.old.levels }
        requires parent { parent < v }
        requires item { links + v < 2 ^ 16 }
        ensures top { IfOk result (λ name. option_map (λ n. n.top) name ≡ top_after (vec_len self.old.levels) links self.old.levels.items (row self.old.brackets) v) }
        ensures rows { OnOk result (Reads self.new.brackets (rows_after (vec_len self.old.levels) links self.old.levels.items (row self.old.brackets) v parent)) }
        ensures counts { IfOk result (λ name. Fits (vec_len self.old.levels) links self.old.levels.items (row self.old.brackets) v parent → (name ≡ name_after (vec_len self.old.levels) links self.old.levels.items (row self.old.brackets) v) × (self.new.levels.items ≡ levels_after (vec_len self.old.levels) links self.old.levels.items (row self.old.brackets) v parent)) }
        ensures len { vec_len self.new.levels ≡ vec_len self.old.levels }
        ensures kept { OnErr result ((self.new.brackets ≡ self.old.brackets) × (self.new.levels ≡ self.old.levels)) }
    {
        let level = self.levels[v as usize];
        self.push_cap(v, links)?;
        let own = self.levels.len() + v as usize;
        let len = level.list_len(self.brackets.size_at(own));
        let top = pass_on(&mut self.brackets, v, own, parent);
        let above = self.levels[parent as usize];
        self.levels[parent as usize] = above.with_child(level.hi(), len);
        Ok(top.map(|top| Name { top, len }))
    }

    // Handles `v` of a sound plan, the numbers above it being done: the name of the tree link above `v`.
    pub fn turn(&mut self, search: &Spanning, v: u16) -> Result<Name, NoMemory>
        requires whole { Whole search.now }
        requires inner { 0 < v }
        requires within { v < size_of search.now }
        requires handled { Handled search.now (v + 1) self.old }
        ensures { IfOk result (λ name. (name ≡ name_of search.now v) × Handled search.now v self.new) }
    {
        let Visit { parent, .. } = search.tree.visits[v as usize];
        let Some(name) = self.handle(v, parent, search.links.len() as u16)? else {
            unreachable()
        };
        Ok(name)
    }
}
