// From the bytes of a text to the bytes of the answer: the lines of all rows, or one refusal line.
#![tactic(auto)]

pub mod answering;
pub mod faults;

pub use answering::answer;
pub use faults::BrowserFault;
