// A retentive image as slots: searching it, and whether it can be taken into use.
#![tactic(auto)]

mod cut;
mod flaw;
mod inspect;

pub use cut::{count, place, slot_at, slots_of, vacancy};
pub use flaw::Flaw;
pub use inspect::check;
