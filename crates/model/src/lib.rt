// The vocabulary of the plan splitter: numbers, logics, kinds, rows and refusals.
#![tactic(auto)]

pub mod kinds;
pub mod numbers;
pub mod refusals;
pub mod rowing;

pub use kinds::Kind;
pub use numbers::{Ends, LinkNo, Logic, NotALogic, RowNo, StepNo};
pub use refusals::{Layer, Place, Refusal};
pub use rowing::Row;
