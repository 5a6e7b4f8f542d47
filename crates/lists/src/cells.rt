// A list is a chain of cells, each of which names the next one.
use std::alloc::{AllocError, AllocFailed};

#[derive(Clone, Copy)]
pub(crate) struct Cell<T> {
    pub(crate) item: T,
    pub(crate) next: Option<u32>,
}

// A list: its first cell, its last cell, and how many cells it has. The default one is empty; one option over all three would be taken apart and put together again at every push.
#[derive(Clone, Copy, Default)]
pub(crate) struct Chain {
    pub(crate) front: Option<u32>,
    pub(crate) back: Option<u32>,
    pub(crate) len: u32,
}

// The cells of all lists, which are linked so that a list is put in front of another in constant time. A cell that was taken out of its list stays here, unused.
#[derive(Drop)]
pub struct Arena<T> {
    pub(crate) cells: Vec<Cell<T>>,
}

// No memory was found, or the cells have no more numbers.
#[derive(Clone, Copy, Debug, PartialEq)]
pub struct NoMemory;

impl From<AllocError> for NoMemory {
    fn from(_e: AllocError) -> NoMemory {
        NoMemory
    }
}

// What `push` fails with holds the value that was not taken, so it is a type of its own beside the allocator's.
impl<T: Drop> From<AllocFailed<T>> for NoMemory {
    fn from(_e: AllocFailed<T>) -> NoMemory {
        NoMemory
    }
}
