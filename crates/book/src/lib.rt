// The book of a plan: its rows in order, the class of each link, and the place of the listing.
#![tactic(auto)]

mod books;
mod faults;
mod places;
mod tables;

pub use books::Book;
pub use faults::BookFault;
