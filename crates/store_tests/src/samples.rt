// Readings, rows and records to test with.
use reading::{Entry, Reading, SiteMonth};
use record::{BLANK, Record, Row, State};
use std::array;
use std::process::Abort;

pub(crate) const AT: SiteMonth = SiteMonth {
    site: 7,
    month: 252,
};

// Sixteen meters in rising order, from the lowest to the highest.
pub(crate) const METERS: [u16; 16] = [
    0, 1, 2, 3, 255, 256, 257, 511, 512, 4_095, 4_096, 32_767, 32_768, 65_279, 65_534, 65_535,
];

// A lawful reading of a meter, which no other meter has.
pub(crate) fn entry_of(meter: u16) -> Entry {
    Entry {
        meter,
        schedule: 4,
        flags: 5,
        power_factor: 90,
        kwh: 10_000 + u32::from(meter),
        off_hours: 700,
        demand: 600,
        peak_demand: 500,
        kvar: 40,
        load: 30,
    }
}

// Beside `record_of`: one for both would not name what it makes.
pub(crate) fn reading_of(rt: &impl Abort, entry: Entry) -> Reading {
    Reading::try_from(entry).expect(rt, "no reading")
}

// An open row of a site month with these entries, lawful or not, all of them in use.
pub(crate) fn row_of(at: SiteMonth, entries: &[Entry]) -> Row {
    row_from(at, entries, |entry| entry)
}

// An open row of a site month with a reading of each meter.
pub(crate) fn row_with(at: SiteMonth, meters: &[u16]) -> Row {
    row_from(at, meters, entry_of)
}

fn row_from<T: Copy, F: Fn(T) -> Entry>(at: SiteMonth, items: &[T], entry: F) -> Row
    requires { F.IsAlwaysCallable entry }
{
    Row {
        at,
        state: State::Open,
        count: items.len(),
        entries: array::from_fn(|i| items.get(i).map_or(BLANK, |item| entry(*item))),
    }
}

pub(crate) fn record_of(rt: &impl Abort, row: Row) -> Record {
    Record::try_from(row).expect(rt, "no record")
}

// An open record of a site month with a reading of each meter.
pub(crate) fn record_with(rt: &impl Abort, at: SiteMonth, meters: &[u16]) -> Record {
    record_of(rt, row_with(at, meters))
}

// The record of a site in one month.
pub(crate) fn sited(rt: &impl Abort, site: u32) -> Record {
    record_with(rt, SiteMonth { site, month: 3 }, &[5, 6])
}
