// Joinable lists, one for each index, whose cells stand in one arena.
#![tactic(auto)]

pub mod cells;
pub mod chaining;
pub mod table;

pub use cells::{Arena, NoMemory};
pub use table::Lists;
