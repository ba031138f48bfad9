// Oregon's schedules, and the card that its prices arrive on.
#![tactic(auto)]

mod card;
mod schedule;

pub use card::{Card, CardReply, take_card};
pub use schedule::Schedule;
