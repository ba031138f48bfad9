// Lines and frames: upper-case hexadecimal with a length and a check byte.
#![tactic(auto)]

mod digit;
mod frame;

pub use frame::{Field, Frame, LINE};
