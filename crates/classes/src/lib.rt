// The classes of a plan's links, by the brackets of a depth-first tree (Johnson, Pearson, Pingali 1994).
#![tactic(auto)]

mod names;
mod sweeping;

pub use sweeping::classes;
