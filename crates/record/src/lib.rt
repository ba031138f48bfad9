// What is held under one site month: its readings, one to a meter.
#![tactic(auto)]

mod entries;
mod record;
mod row;

pub use record::Record;
pub use row::{BLANK, READINGS, Row, State, VACANT};
