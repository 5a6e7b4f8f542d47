// The line of a row and the line of a refusal, written into a buffer that the caller lends.
#![tactic(auto)]

pub mod laws;
mod line;
pub mod writing;

pub use writing::{ShortBuffer, refusal_line, row_line};
