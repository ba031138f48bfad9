// Which rows are records.
use crate::samples::{AT, METERS, entry_of, row_of, row_with};
use crate::table::check_all;
use reading::{Entry, SiteMonth, Unlawful};
use record::{BLANK, Record, Row, State, VACANT};
use std::process::Abort;

// A reading, and whether it keeps its limits.
#[derive(Clone, Copy)]
struct Limit {
    entry: Entry,
    lawful: bool,
}

// The meters of a row, and whether they may stand so.
#[derive(Clone, Copy)]
struct Order {
    meters: &'static [u16],
    lawful: bool,
}

// A state, month and count over three readings, and whether the row is a record.
#[derive(Clone, Copy)]
struct Heading {
    state: State,
    month: u16,
    count: usize,
    lawful: bool,
}

// Every field at its limit.
const HIGHEST: Entry = Entry {
    meter: 65_535,
    schedule: 65_535,
    flags: 15,
    power_factor: 100,
    kwh: 999_999,
    off_hours: 999_999,
    demand: 99_999,
    peak_demand: 99_999,
    kvar: 9_999,
    load: 10_000,
};

// Readings at a limit and one above it.
const LIMITS: [Limit; 16] = [
    Limit {
        entry: HIGHEST,
        lawful: true,
    },
    Limit {
        entry: Entry {
            flags: 16,
            ..HIGHEST
        },
        lawful: false,
    },
    Limit {
        entry: Entry {
            power_factor: 101,
            ..HIGHEST
        },
        lawful: false,
    },
    Limit {
        entry: Entry {
            kwh: 1_000_000,
            ..HIGHEST
        },
        lawful: false,
    },
    // Off-hours one above the kWh, at the limit of the kWh.
    Limit {
        entry: Entry {
            off_hours: 1_000_000,
            ..HIGHEST
        },
        lawful: false,
    },
    Limit {
        entry: Entry {
            demand: 100_000,
            ..HIGHEST
        },
        lawful: false,
    },
    Limit {
        entry: Entry {
            demand: 100_000,
            peak_demand: 100_000,
            ..HIGHEST
        },
        lawful: false,
    },
    Limit {
        entry: Entry {
            peak_demand: 100_000,
            ..HIGHEST
        },
        lawful: false,
    },
    Limit {
        entry: Entry {
            kvar: 10_000,
            ..HIGHEST
        },
        lawful: false,
    },
    Limit {
        entry: Entry {
            load: 10_001,
            ..HIGHEST
        },
        lawful: false,
    },
    // Off-hours at the kWh.
    Limit {
        entry: Entry {
            kwh: 5,
            off_hours: 5,
            ..HIGHEST
        },
        lawful: true,
    },
    // Off-hours one above the kWh.
    Limit {
        entry: Entry {
            kwh: 5,
            off_hours: 6,
            ..HIGHEST
        },
        lawful: false,
    },
    // Peak-hours demand at the demand.
    Limit {
        entry: Entry {
            demand: 5,
            peak_demand: 5,
            ..HIGHEST
        },
        lawful: true,
    },
    // Peak-hours demand one above the demand.
    Limit {
        entry: Entry {
            demand: 5,
            peak_demand: 6,
            ..HIGHEST
        },
        lawful: false,
    },
    // Off-hours without kWh.
    Limit {
        entry: Entry {
            kwh: 0,
            off_hours: 1,
            ..HIGHEST
        },
        lawful: false,
    },
    // Nothing but the meter.
    Limit {
        entry: Entry {
            meter: 65_535,
            ..BLANK
        },
        lawful: true,
    },
];

const ORDERS: [Order; 12] = [
    Order {
        meters: &[0],
        lawful: true,
    },
    Order {
        meters: &[0, 65_535],
        lawful: true,
    },
    Order {
        meters: &[255, 256, 257],
        lawful: true,
    },
    Order {
        meters: &METERS,
        lawful: true,
    },
    // Equal.
    Order {
        meters: &[0, 0],
        lawful: false,
    },
    Order {
        meters: &[3, 3, 4],
        lawful: false,
    },
    Order {
        meters: &[2, 3, 3],
        lawful: false,
    },
    Order {
        meters: &[3, 4, 3],
        lawful: false,
    },
    // Falling.
    Order {
        meters: &[2, 1],
        lawful: false,
    },
    Order {
        meters: &[1, 4, 3],
        lawful: false,
    },
    // Falling, though the low bytes rise.
    Order {
        meters: &[256, 255],
        lawful: false,
    },
    // The last of sixteen.
    Order {
        meters: &[1, 2, 3, 4, 5, 6, 7, 8, 9, 10, 11, 12, 13, 14, 16, 15],
        lawful: false,
    },
];

// Entries that are not zero, each in one field.
const UNUSED: [Entry; 10] = [
    Entry { meter: 1, ..BLANK },
    Entry {
        schedule: 1,
        ..BLANK
    },
    Entry { flags: 1, ..BLANK },
    Entry {
        power_factor: 1,
        ..BLANK
    },
    Entry { kwh: 1, ..BLANK },
    Entry {
        off_hours: 1,
        ..BLANK
    },
    Entry { demand: 1, ..BLANK },
    Entry {
        peak_demand: 1,
        ..BLANK
    },
    Entry { kvar: 1, ..BLANK },
    Entry { load: 1, ..BLANK },
];

const HEADINGS: [Heading; 11] = [
    Heading {
        state: State::Open,
        month: 0,
        count: 3,
        lawful: true,
    },
    Heading {
        state: State::Closed,
        month: 2_399,
        count: 3,
        lawful: true,
    },
    Heading {
        state: State::Empty,
        month: 0,
        count: 3,
        lawful: false,
    },
    Heading {
        state: State::Open,
        month: 2_400,
        count: 3,
        lawful: false,
    },
    Heading {
        state: State::Closed,
        month: 65_535,
        count: 3,
        lawful: false,
    },
    // A count too small for the readings.
    Heading {
        state: State::Open,
        month: 252,
        count: 0,
        lawful: false,
    },
    Heading {
        state: State::Open,
        month: 252,
        count: 2,
        lawful: false,
    },
    // A count too large for them.
    Heading {
        state: State::Open,
        month: 252,
        count: 4,
        lawful: false,
    },
    Heading {
        state: State::Open,
        month: 252,
        count: 16,
        lawful: false,
    },
    Heading {
        state: State::Open,
        month: 252,
        count: 17,
        lawful: false,
    },
    Heading {
        state: State::Open,
        month: 252,
        count: usize::MAX,
        lawful: false,
    },
];

// The row is a record of just that row, or no record.
fn check_lawful(rt: &impl Abort, row: &Row, lawful: bool) {
    match Record::try_from(*row) {
        Ok(kept) => {
            assert!(rt; lawful);
            assert_eq!(rt; kept.row(), row);
        }
        Err(Unlawful) => assert!(rt; !lawful),
    }
}

// Alone, and as the last of three.
fn check_limit(rt: &impl Abort, limit: &Limit) {
    check_lawful(rt, &row_of(AT, &[limit.entry]), limit.lawful);
    let entries = [entry_of(1), entry_of(2), limit.entry];
    check_lawful(rt, &row_of(AT, &entries), limit.lawful);
}

fn check_order(rt: &impl Abort, order: &Order) {
    check_lawful(rt, &row_with(AT, order.meters), order.lawful);
}

// Behind the only reading, and in the last place.
fn check_unused(rt: &impl Abort, entry: &Entry) {
    let mut row = row_with(AT, &[4]);
    row.entries[1] = *entry;
    check_lawful(rt, &row, false);
    row.entries[1] = BLANK;
    check_lawful(rt, &row, true);
    row.entries[15] = *entry;
    check_lawful(rt, &row, false);
}

fn check_heading(rt: &impl Abort, heading: &Heading) {
    let mut row = row_with(AT, &[1, 2, 3]);
    row.state = heading.state;
    row.at.month = heading.month;
    row.count = heading.count;
    check_lawful(rt, &row, heading.lawful);
}

#[test]
fn limits_of_readings(rt: HostRuntime) {
    check_all(&rt, &LIMITS, check_limit);
}

#[test]
fn orders_of_meters(rt: HostRuntime) {
    check_all(&rt, &ORDERS, check_order);
}

#[test]
fn unused_entries(rt: HostRuntime) {
    check_all(&rt, &UNUSED, check_unused);
}

#[test]
fn headings(rt: HostRuntime) {
    check_all(&rt, &HEADINGS, check_heading);
}

#[test]
fn seventeen_of_sixteen(rt: HostRuntime) {
    let mut row = row_with(AT, &METERS);
    check_lawful(&rt, &row, true);
    row.count = 17;
    check_lawful(&rt, &row, false);
}

#[test]
fn no_reading(rt: HostRuntime) {
    check_lawful(&rt, &VACANT, false);
    check_lawful(&rt, &row_with(AT, &[]), false);
}

#[test]
fn highest_site_month(rt: HostRuntime) {
    let at = SiteMonth {
        site: u32::MAX,
        month: 2_399,
    };
    check_lawful(&rt, &row_with(at, &[65_535]), true);
}
