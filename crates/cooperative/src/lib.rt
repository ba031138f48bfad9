// The cooperative's book.
#![tactic(auto)]

mod cooperative;

pub use cooperative::Cooperative;
