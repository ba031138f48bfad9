// What an image holds, in words: a line for each site month.
use record::Record;
use std::fmt;

// A month from January 2000 as 0, as a year and a month of it.
#[derive(Clone, Copy)]
struct Calendar(u16);

impl fmt::Display for Calendar {
    fn fmt<W: fmt::Write>(&self, f: &mut fmt::Formatter<W>) -> fmt::Result {
        let year = 2000 + self.0 / 12;
        let month = self.0 % 12 + 1;
        write!(f, "{year}-{month:02}")
    }
}

// The record of a site month: its state, its meters and their kWh.
#[derive(Clone, Copy)]
pub struct Listing {
    pub slot: usize,
    pub kept: Record,
}

impl fmt::Display for Listing {
    fn fmt<W: fmt::Write>(&self, f: &mut fmt::Formatter<W>) -> fmt::Result {
        let slot = self.slot;
        let site = self.kept.at().site;
        let month = self.kept.at().month;
        let calendar = Calendar(month);
        // Two words here: a Display of State would owe a third, for an empty row.
        let state = if self.kept.is_closed() {
            "closed"
        } else {
            "open"
        };
        let kwh = kwh_of(&self.kept);
        write!(
            f,
            "slot {slot}: site {site}, month {month} ({calendar}), {state}, {kwh} kWh, meters"
        )?;
        for entry in self.kept.readings() {
            let meter = entry.meter;
            write!(f, " {meter}")?;
        }
        Ok(())
    }
}

// The kWh of all meters.
fn kwh_of(kept: &Record) -> u64 {
    kept.readings().iter().fold(
        0,
        |kwh: u64, entry| kwh.saturating_add(u64::from(entry.kwh)),
    )
}
