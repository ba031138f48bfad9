// Records made and edited.
use crate::refusal::{Refusal, check_refused};
use crate::samples::{AT, METERS, entry_of, reading_of, record_with, row_with};
use crate::table::check_all;
use reading::{Entry, Fault, SiteMonth};
use record::{Record, Row, State};
use std::process::Abort;

const STANDING: Refusal = (12, 5, 9);

const NO_METER: Refusal = (13, 5, 9);

const RECORD_FULL: Refusal = (14, 5, 9);

// The meters before an edit, the meter of the edit, and the meters after it.
#[derive(Clone, Copy)]
struct Step {
    before: &'static [u16],
    meter: u16,
    after: &'static [u16],
}

// The meters of a record, and the meter of an edit.
#[derive(Clone, Copy)]
struct Edit {
    meters: &'static [u16],
    meter: u16,
}

// A meter whose reading is not added to those of these.
#[derive(Clone, Copy)]
struct NotAdded {
    meters: &'static [u16],
    meter: u16,
    refusal: Refusal,
}

const ADDED: [Step; 8] = [
    // First.
    Step {
        before: &[2, 4, 6],
        meter: 1,
        after: &[1, 2, 4, 6],
    },
    // In the middle.
    Step {
        before: &[2, 4, 6],
        meter: 3,
        after: &[2, 3, 4, 6],
    },
    Step {
        before: &[2, 4, 6],
        meter: 5,
        after: &[2, 4, 5, 6],
    },
    // Last.
    Step {
        before: &[2, 4, 6],
        meter: 7,
        after: &[2, 4, 6, 7],
    },
    // The lowest and the highest meter, beside one.
    Step {
        before: &[1],
        meter: 0,
        after: &[0, 1],
    },
    Step {
        before: &[65_534],
        meter: 65_535,
        after: &[65_534, 65_535],
    },
    // The sixteenth, first and last.
    Step {
        before: &[2, 3, 4, 5, 6, 7, 8, 9, 10, 11, 12, 13, 14, 15, 16],
        meter: 1,
        after: &[1, 2, 3, 4, 5, 6, 7, 8, 9, 10, 11, 12, 13, 14, 15, 16],
    },
    Step {
        before: &[1, 2, 3, 4, 5, 6, 7, 8, 9, 10, 11, 12, 13, 14, 15],
        meter: 16,
        after: &[1, 2, 3, 4, 5, 6, 7, 8, 9, 10, 11, 12, 13, 14, 15, 16],
    },
];

const NOT_ADDED: [NotAdded; 9] = [
    // Standing: the only one, the first, in the middle, the last.
    NotAdded {
        meters: &[4],
        meter: 4,
        refusal: STANDING,
    },
    NotAdded {
        meters: &[2, 4, 6],
        meter: 2,
        refusal: STANDING,
    },
    NotAdded {
        meters: &[2, 4, 6],
        meter: 4,
        refusal: STANDING,
    },
    NotAdded {
        meters: &[2, 4, 6],
        meter: 6,
        refusal: STANDING,
    },
    // Standing comes before full.
    NotAdded {
        meters: &METERS,
        meter: 0,
        refusal: STANDING,
    },
    NotAdded {
        meters: &METERS,
        meter: 65_535,
        refusal: STANDING,
    },
    // The seventeenth: last, in the middle, first.
    NotAdded {
        meters: &[1, 2, 3, 4, 5, 6, 7, 8, 9, 10, 11, 12, 13, 14, 15, 16],
        meter: 17,
        refusal: RECORD_FULL,
    },
    NotAdded {
        meters: &METERS,
        meter: 300,
        refusal: RECORD_FULL,
    },
    NotAdded {
        meters: &[1, 2, 3, 4, 5, 6, 7, 8, 9, 10, 11, 12, 13, 14, 15, 16],
        meter: 0,
        refusal: RECORD_FULL,
    },
];

// Meters whose reading is corrected.
const CORRECTED: [Edit; 6] = [
    Edit {
        meters: &[4],
        meter: 4,
    },
    Edit {
        meters: &[2, 4, 6],
        meter: 2,
    },
    Edit {
        meters: &[2, 4, 6],
        meter: 4,
    },
    Edit {
        meters: &[2, 4, 6],
        meter: 6,
    },
    Edit {
        meters: &METERS,
        meter: 257,
    },
    Edit {
        meters: &METERS,
        meter: 65_535,
    },
];

// Meters without a reading, which can be neither corrected nor taken out.
const MISSING: [Edit; 5] = [
    Edit {
        meters: &[4],
        meter: 0,
    },
    Edit {
        meters: &[2, 4, 6],
        meter: 1,
    },
    Edit {
        meters: &[2, 4, 6],
        meter: 5,
    },
    Edit {
        meters: &[2, 4, 6],
        meter: 7,
    },
    Edit {
        meters: &METERS,
        meter: 300,
    },
];

const TAKEN_OUT: [Step; 6] = [
    // First.
    Step {
        before: &[2, 4, 6],
        meter: 2,
        after: &[4, 6],
    },
    // In the middle.
    Step {
        before: &[2, 4, 6],
        meter: 4,
        after: &[2, 6],
    },
    // Last.
    Step {
        before: &[2, 4, 6],
        meter: 6,
        after: &[2, 4],
    },
    // The first and the last of sixteen.
    Step {
        before: &[1, 2, 3, 4, 5, 6, 7, 8, 9, 10, 11, 12, 13, 14, 15, 16],
        meter: 1,
        after: &[2, 3, 4, 5, 6, 7, 8, 9, 10, 11, 12, 13, 14, 15, 16],
    },
    Step {
        before: &[1, 2, 3, 4, 5, 6, 7, 8, 9, 10, 11, 12, 13, 14, 15, 16],
        meter: 16,
        after: &[1, 2, 3, 4, 5, 6, 7, 8, 9, 10, 11, 12, 13, 14, 15],
    },
    // Down to one.
    Step {
        before: &[0, 65_535],
        meter: 0,
        after: &[65_535],
    },
];

// Another reading of the meter.
fn correction(meter: u16) -> Entry {
    Entry {
        meter,
        schedule: 32,
        flags: 10,
        power_factor: 80,
        kwh: 500,
        off_hours: 400,
        demand: 300,
        peak_demand: 200,
        kvar: 100,
        load: 99,
    }
}

fn check_edited(rt: &impl Abort, edited: Result<Record, Fault>, expected: &Row) {
    assert_eq!(rt; edited.expect(rt, "refused").row(), expected);
}

fn check_added(rt: &impl Abort, step: &Step) {
    let reading = reading_of(rt, entry_of(step.meter));
    let kept = record_with(rt, AT, step.before);
    check_edited(rt, kept.with(&reading), &row_with(AT, step.after));
}

fn check_not_added(rt: &impl Abort, case: &NotAdded) {
    let reading = reading_of(rt, correction(case.meter));
    let kept = record_with(rt, AT, case.meters);
    check_refused(rt, kept.with(&reading), case.refusal);
}

fn check_corrected(rt: &impl Abort, edit: &Edit) {
    let corrected = correction(edit.meter);
    let mut expected = row_with(AT, edit.meters);
    for (entry, meter) in expected.entries.iter_mut().zip(edit.meters.iter()) {
        if *meter == edit.meter {
            *entry = corrected;
        }
    }
    let kept = record_with(rt, AT, edit.meters);
    check_edited(rt, kept.replacing(&reading_of(rt, corrected)), &expected);
}

fn check_missing(rt: &impl Abort, edit: &Edit) {
    let kept = record_with(rt, AT, edit.meters);
    let reading = reading_of(rt, correction(edit.meter));
    check_refused(rt, kept.replacing(&reading), NO_METER);
    check_refused(rt, kept.without(edit.meter), NO_METER);
}

fn check_taken_out(rt: &impl Abort, step: &Step) {
    let kept = record_with(rt, AT, step.before);
    let left = record_with(rt, AT, step.after);
    assert_eq!(rt; kept.without(step.meter), Ok(Some(left)));
}

#[test]
fn readings_added(rt: HostRuntime) {
    check_all(&rt, &ADDED, check_added);
}

#[test]
fn readings_not_added(rt: HostRuntime) {
    check_all(&rt, &NOT_ADDED, check_not_added);
}

#[test]
fn readings_corrected(rt: HostRuntime) {
    check_all(&rt, &CORRECTED, check_corrected);
}

#[test]
fn missing_meters(rt: HostRuntime) {
    check_all(&rt, &MISSING, check_missing);
}

#[test]
fn readings_taken_out(rt: HostRuntime) {
    check_all(&rt, &TAKEN_OUT, check_taken_out);
}

#[test]
fn last_reading_taken_out(rt: HostRuntime) {
    assert_eq!(rt; record_with(&rt, AT, &[4]).without(4), Ok(None));
}

#[test]
fn new_of_one_reading(rt: HostRuntime) {
    let kept = Record::new(AT, &reading_of(&rt, entry_of(9)));
    assert!(rt; !kept.is_closed());
    assert_eq!(rt; kept.row(), &row_with(AT, &[9]));
}

#[test]
fn built_up_backward(rt: HostRuntime) {
    let mut kept = Record::new(AT, &reading_of(&rt, entry_of(65_535)));
    for meter in METERS.iter().rev().skip(1) {
        let reading = reading_of(&rt, entry_of(*meter));
        kept = kept.with(&reading).expect(&rt, "refused");
    }
    assert_eq!(rt; kept.row(), &row_with(AT, &METERS));
}

#[test]
fn closing(rt: HostRuntime) {
    let mut expected = row_with(AT, &[2, 4]);
    expected.state = State::Closed;
    let closed = record_with(&rt, AT, &[2, 4]).closed();
    assert!(rt; closed.is_closed());
    assert_eq!(rt; closed.row(), &expected);
    assert_eq!(rt; closed.closed().row(), &expected);
}

#[test]
fn closed_stays_closed(rt: HostRuntime) {
    let closed = record_with(&rt, AT, &[2, 4]).closed();
    let mut expected = row_with(AT, &[2, 3, 4]);
    expected.state = State::Closed;
    check_edited(&rt, closed.with(&reading_of(&rt, entry_of(3))), &expected);
    let left = closed.without(2).expect(&rt, "refused");
    assert!(rt; left.expect(&rt, "nothing left").is_closed());
}

#[test]
fn parts(rt: HostRuntime) {
    let kept = record_with(&rt, AT, &[2, 4, 6]);
    assert_eq!(rt;
        kept.at(),
        SiteMonth {
            site: 7,
            month: 252
        }
    );
    let readings = kept.readings();
    assert!(rt; readings.len() == 3);
    assert_eq!(rt;
        [readings[0].meter, readings[1].meter, readings[2].meter],
        [2, 4, 6]
    );
}
