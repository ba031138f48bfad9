// Requests: what a controller asks of the block.
#![tactic(auto)]

mod fields;
mod kind;
mod limit;
mod request;

pub use kind::RequestKind;
pub use request::Request;
