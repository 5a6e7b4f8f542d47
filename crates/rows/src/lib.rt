// From the classes of a plan's links to its rows: canonical fragments, how they nest, their kinds, and their order.
#![tactic(auto)]

pub mod arranging;
pub mod classing;
pub mod counting;
pub mod kinding;
pub mod listing;
pub mod nesting;
pub mod pairing;
pub mod running;

pub use classing::Classed;
pub use listing::{Arranged, RowRun};
