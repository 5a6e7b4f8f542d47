// The brackets of a depth-first tree: the numbers are handled from the last to the first, and each gives the tree link above it a name (Johnson, Pearson, Pingali 1994).
#![tactic(auto)]

pub mod holding;
pub mod levels;
pub mod spanning;
pub mod starting;
pub mod sweeping;

pub use holding::{Bracket, Name, Sweep};
pub use spanning::Spanning;
