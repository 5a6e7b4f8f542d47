// Hex text to frames: one frame a line, two upper-case digits a byte, each line ended by a line feed.
#![tactic(auto)]

pub mod decoding;
pub mod digits;
pub mod faults;
pub mod laws;
pub mod lines;

pub use decoding::{Frames, decode};
pub use digits::digit;
pub use faults::TextFault;
pub use lines::Frame;

#[cfg(test)]
mod tests;
