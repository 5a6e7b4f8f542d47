// Classes, fragments and rows of a small plan, straight from their definitions: slow, plain, and apart from the method that the book goes by.
#![tactic(auto)]

pub mod fragments;
pub mod listing;
pub mod sets;
pub mod sketch;
pub mod walks;

pub use fragments::Fragment;
pub use listing::{Listed, Listing};
pub use sets::StepSet;
pub use sketch::Sketch;
pub use walks::Walks;
