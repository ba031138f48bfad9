// A store over the caller's rows.
#![tactic(auto)]

mod rows;

pub use rows::Rows;
