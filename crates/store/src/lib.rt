// Where site months live: the interface of a store.
#![tactic(auto)]

mod store;

pub use store::{MOST, Store};
