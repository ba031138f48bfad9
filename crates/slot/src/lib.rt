// A record as the bytes of a slot of a retentive image, and back.
#![tactic(auto)]

mod entry;
mod header;
mod slot;

pub use header::head;
pub use slot::{BadSlot, EMPTY, SLOT, decode, encode};
