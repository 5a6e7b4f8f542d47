// What is done to one or two chains of an arena: each call says which items the chains hold afterwards.
ghost use Rattle.std.specs.Prelude.{◌≡◌, ℕ, ◌+◌, ◌^◌, ◌<◌, ◌≤◌, List, [], ◌∷◌, ◌++◌, length, IfSome, IfOk, Some, vec_len, MatchResult};
ghost use Rattle.lists.specs.Holds.{Holds, Held, Apart, Popped};

use crate::cells::{Arena, Cell, Chain, NoMemory};
use std::alloc::Global;

impl<T: Copy> Arena<T> {
    pub(crate) fn new(heap: Global) -> Arena<T>
        ensures { result.cells.items ≡ [] }
    {
        Arena {
            cells: Vec::new(heap),
        }
    }

    // Puts `x` in front of `list`.
    pub(crate) fn push_front(&mut self, list: Chain, x: T) -> Result<Chain, NoMemory>
        requires { list.len ≤ vec_len self.old.cells }
        ensures pushed { IfOk result (λ l. (xs : List T) → Holds self.old.cells.items list xs → Holds self.new.cells.items l (x ∷ xs)) }
        ensures frame { (m : Chain) (xs : List T) → Holds self.old.cells.items m xs → Holds self.new.cells.items m xs }
        ensures apart { IfOk result (λ l. (m : Chain) → Held self.old.cells.items m → Apart list m → Apart l m) }
        ensures size { MatchResult result (λ l. (l.len ≡ list.len + 1) × (vec_len self.new.cells ≡ vec_len self.old.cells + 1) × (vec_len self.new.cells < 2 ^ 32)) (λ _. vec_len self.new.cells ≡ vec_len self.old.cells) }
    {
        // Cells are numbered by `u32`, and a list of all of them has a `u32` length.
        let n = self.cells.len();
        if n >= u32::MAX as usize {
            return Err(NoMemory);
        }
        let at = n as u32;
        self.cells.push(Cell {
            item: x,
            next: list.front,
        })?;
        Ok(Chain {
            front: Some(at),
            back: list.back.or(Some(at)),
            len: list.len + 1,
        })
    }

    // The items of `a`, then those of `b`.
    pub(crate) fn join(&mut self, a: Chain, b: Chain) -> Chain
        requires within { (k : ℕ) → a.back ≡ Some k → k < vec_len self.old.cells }
        requires fits { a.len + b.len < 2 ^ 32 }
        ensures joined { (xs ys : List T) → Holds self.old.cells.items a xs → Holds self.old.cells.items b ys → Apart a b → Holds self.new.cells.items result (xs ++ ys) }
        ensures frame { (m : Chain) (xs : List T) → Holds self.old.cells.items m xs → Held self.old.cells.items a → Apart a m → Holds self.new.cells.items m xs }
        ensures apart { (m : Chain) → Apart a m → Apart b m → Apart result m }
        ensures size { result.len ≤ a.len + b.len }
        ensures cells { vec_len self.new.cells ≡ vec_len self.old.cells }
    {
        let Some(last) = a.back else {
            return b;
        };
        if b.front.is_none() {
            return a;
        }
        self.cells[last as usize].next = b.front;
        Chain {
            front: a.front,
            len: a.len + b.len,
            ..b
        }
    }

    // The first item and the rest.
    pub(crate) fn pop_front(&self, list: Chain) -> Option<(T, Chain)>
        requires within { (k : ℕ) → list.front ≡ Some k → (k < vec_len self.now.cells) × (0 < list.len) }
        ensures popped { (xs : List T) → Holds self.now.cells.items list xs → Popped self.now.cells.items xs result }
        ensures apart { IfSome result (λ p. (m : Chain) → Apart list m → Apart p.1 m) }
        ensures size { IfSome result (λ p. p.1.len + 1 ≡ list.len) }
    {
        let front = list.front?;
        let c = self.cells[front as usize];
        if list.len == 1 {
            return Some((c.item, Chain::default()));
        }
        let rest = Chain {
            front: c.next,
            len: list.len - 1,
            ..list
        };
        Some((c.item, rest))
    }
}
