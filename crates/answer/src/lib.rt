// Answers: as lines, and amounts read back from one.
#![tactic(auto)]

mod amounts;
mod answer;
mod kind;

pub use amounts::read_amounts;
pub use answer::Answer;
pub use kind::AmountsKind;
