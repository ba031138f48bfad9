// What each request does to the site months and what is answered, with the law on runs of requests.
#![tactic(auto)]

mod accounts;
mod exchange;
mod held;
mod readings;
mod settle;

pub use exchange::{BUFFER, serve};
