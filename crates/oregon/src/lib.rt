// Oregon's book.
#![tactic(auto)]

mod charges;
mod oregon;
mod quantity;
mod rates;
mod service;

pub use oregon::Oregon;
