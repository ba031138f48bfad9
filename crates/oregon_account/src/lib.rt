// The serving call under Oregon's book.
#![tactic(auto)]

mod exchange;

pub use exchange::serve_oregon;
