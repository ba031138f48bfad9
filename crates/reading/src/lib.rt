// The bottom layer: every refusal, and what a meter reading is.
#![tactic(auto)]

mod demand;
mod entry;
mod fault;
mod limits;
mod reading;
mod site_month;

pub use demand::{load_size, nearest_kw};
pub use entry::Entry;
pub use fault::{Fault, Layer};
pub use limits::{
    LAST_MONTH, MOST_DEMAND, MOST_FLAGS, MOST_KVAR, MOST_KWH, MOST_LOAD, MOST_POWER_FACTOR,
};
pub use reading::{Reading, Unlawful};
pub use site_month::SiteMonth;

// How many lines a statement has, numbered from 0: `lines` of the specifications.
pub const LINES: usize = 13;
