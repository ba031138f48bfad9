// A book: what a reading costs, by one utility's sheets.
#![tactic(auto)]

mod book;
mod money;
mod sense;

pub use book::Book;
pub use money::{CENT, half_up, rounded};
pub use sense::Sense;
