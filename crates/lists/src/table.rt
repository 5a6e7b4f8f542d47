// Many lists over one arena, and the calls on them.
ghost use Rattle.std.specs.Prelude.{◌≡◌, ◌<◌, [], ◌∷◌, ◌++◌, length, replicate, slice_set, IfOk, MatchResult, ◌≢◌};
ghost use Rattle.lists.specs.Rows.{top, rest};
ghost use Rattle.lists.specs.Many.{row};

use crate::cells::{Arena, Chain, NoMemory};
use std::alloc::Global;
use std::marker::Model;
use std::mem;

// Each list holds items of its own: no cell is in two lists, so that all lists together have no more items than there are cells.
#[derive(Drop)]
pub struct Lists<T> {
    arena: Arena<T>,
    chains: Vec<Chain>,
}

// Clauses see the lists one after the other, each by its items, the top first.
impl<T> Model for Lists<T> {
    ghost use Rattle.std.specs.Prelude.{List};

    ghost Value = { List (List T) };

    ghost use Rattle.lists.specs.Table.{lists_of, IsTable};

    ghost view = { λ a. lists_of a.arena.cells.items a.chains.items };

    ghost invariant = { λ a. IsTable a.arena.cells.items a.chains.items };
}

impl<T: Copy> Lists<T> {
    // `n` empty lists.
    pub fn new(heap: Global, n: usize) -> Result<Lists<T>, NoMemory>
        ensures { IfOk result (λ t. t ≡ replicate n []) }
    {
        let chains = vec![in heap; Chain::default(); n]?;
        Ok(Lists {
            arena: Arena::new(heap),
            chains,
        })
    }

    // How many lists there are.
    pub fn len(&self) -> usize
        ensures { result ≡ length self.now }
    {
        self.chains.len()
    }

    // How many items the list `j` has.
    pub fn size_at(&self, j: usize) -> u32
        requires { j < length self.now }
        ensures { result ≡ length (row self.now j) }
    {
        self.chains[j].len
    }

    // The top of the list `j`.
    pub fn first_at(&self, j: usize) -> Option<T>
        requires { j < length self.now }
        ensures { result ≡ top (row self.now j) }
    {
        let (top, _) = self.arena.pop_front(self.chains[j])?;
        Some(top)
    }

    // Takes the top off the list `j`.
    pub fn pop_at(&mut self, j: usize) -> Option<T>
        requires { j < length self.old }
        ensures top { result ≡ top (row self.old j) }
        ensures lists { self.new ≡ slice_set self.old j (rest (row self.old j)) }
    {
        let list = self.chains[j];
        let (x, left) = self.arena.pop_front(list)?;
        self.chains[j] = left;
        Some(x)
    }

    // Puts `x` on top of the list `j`.
    pub fn push_at(&mut self, j: usize, x: T) -> Result<(), NoMemory>
        requires { j < length self.old }
        ensures { MatchResult result (λ _. self.new ≡ slice_set self.old j (x ∷ row self.old j)) (λ _. self.new ≡ self.old) }
    {
        let list = self.chains[j];
        let more = self.arena.push_front(list, x)?;
        self.chains[j] = more;
        Ok(())
    }

    // Moves the list `j` in front of the list `i`.
    pub fn join_at(&mut self, i: usize, j: usize)
        requires i_within { i < length self.old }
        requires j_within { j < length self.old }
        requires other { i ≢ j }
        ensures { self.new ≡ slice_set (slice_set self.old j []) i (row self.old j ++ row self.old i) }
    {
        let a = mem::take(&mut self.chains[j]);
        let b = self.chains[i];
        let joined = self.arena.join(a, b);
        self.chains[i] = joined;
    }
}
