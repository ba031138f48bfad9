// Rows as a store: which can be taken into use, and what is written to them.
use crate::compare::check_one;
use crate::note::Noted;
use crate::refusal::check_refused;
use crate::samples::sited;
use reading::{Entry, SiteMonth};
use record::{Row, State, VACANT};
use row_store::Rows;
use std::alloc::Global;
use std::process::Abort;
use std::test::*;
use store::Store;

// How many rows, and whether they can be taken into use.
#[derive(Clone, Copy)]
struct Count {
    rows: usize,
    usable: bool,
}

const COUNTS: [Count; 7] = [
    Count {
        rows: 0,
        usable: false,
    },
    Count {
        rows: 1,
        usable: true,
    },
    Count {
        rows: 2,
        usable: true,
    },
    Count {
        rows: 1_023,
        usable: true,
    },
    Count {
        rows: 1_024,
        usable: true,
    },
    Count {
        rows: 1_025,
        usable: false,
    },
    Count {
        rows: 2_048,
        usable: false,
    },
];

// An entry that breaks every limit.
const HIGH: Entry = Entry {
    meter: 65_535,
    schedule: 65_535,
    flags: 255,
    power_factor: 255,
    kwh: u32::MAX,
    off_hours: u32::MAX,
    demand: u32::MAX,
    peak_demand: u32::MAX,
    kvar: 65_535,
    load: 65_535,
};

// A row that breaks every rule.
const JUNK: Row = Row {
    at: SiteMonth {
        site: 7,
        month: 65_535,
    },
    state: State::Closed,
    count: usize::MAX,
    entries: [HIGH; 16],
};

// Three rows in which the records of these sites were kept one after the other, as far as there was room.
fn rows_with(rt: &impl Abort, sites: &[u32]) -> [Row; 3] {
    let mut rows = [JUNK; 3];
    keep_all(rt, &mut Rows::open(&mut rows), sites);
    rows
}

fn keep_all<S: Store>(rt: &impl Abort, store: &mut S, sites: &[u32]) {
    for site in sites.iter() {
        let _ = store.keep(&sited(rt, *site));
    }
}

fn check_count(rt: &impl Abort, heap: Global, count: Count) -> Result<(), Fail> {
    let rows = vec![in heap; JUNK; count.rows]?;
    if count.usable {
        assert_eq!(rt; Rows::check(&rows), Ok(()));
    } else {
        check_refused(rt, Rows::check(&rows), (16, 6, 0));
    }
    Ok(())
}

#[test]
fn counts(rt: HostRuntime) -> Result<(), Fail> {
    for (i, count) in COUNTS.iter().enumerate() {
        check_count(&Noted(&rt, i), rt.alloc(), *count)?;
    }
    Ok(())
}

#[test]
fn opening_empties(rt: HostRuntime) {
    let mut rows = [JUNK; 3];
    let store = Rows::open(&mut rows);
    assert_eq!(rt; store.capacity(), 3);
    assert!(rt; !store.find(JUNK.at));
    drop(store);
    assert_eq!(rt; rows, [VACANT; 3]);
}

#[test]
fn keeping_writes_one_row(rt: HostRuntime) {
    let none = rows_with(&rt, &[]);
    let one = rows_with(&rt, &[1]);
    let two = rows_with(&rt, &[1, 2]);
    let three = rows_with(&rt, &[1, 2, 3]);
    check_one(&rt, &none, &one, sited(&rt, 1).row());
    check_one(&rt, &one, &two, sited(&rt, 2).row());
    check_one(&rt, &two, &three, sited(&rt, 3).row());
}

#[test]
fn keeping_again_writes_its_own_row(rt: HostRuntime) {
    let full = rows_with(&rt, &[1, 2, 3]);
    assert_eq!(rt; rows_with(&rt, &[1, 2, 3, 2, 1]), full);
    let mut rows = [VACANT; 3];
    let closed = sited(&rt, 2).closed();
    let mut store = Rows::open(&mut rows);
    keep_all(&rt, &mut store, &[1, 2, 3]);
    assert_eq!(rt; store.keep(&closed), Ok(()));
    drop(store);
    check_one(&rt, &full, &rows, closed.row());
}

#[test]
fn refusing_writes_nothing(rt: HostRuntime) {
    let full = rows_with(&rt, &[1, 2, 3]);
    assert_eq!(rt; rows_with(&rt, &[1, 2, 3, 4]), full);
}

#[test]
fn removing_empties_one_row(rt: HostRuntime) {
    let full = rows_with(&rt, &[1, 2, 3]);
    let mut rows = [VACANT; 3];
    let mut store = Rows::open(&mut rows);
    keep_all(&rt, &mut store, &[1, 2, 3]);
    assert!(rt; store.remove(sited(&rt, 2).at()));
    assert!(rt; !store.remove(sited(&rt, 2).at()));
    assert!(rt; !store.remove(sited(&rt, 4).at()));
    drop(store);
    check_one(&rt, &full, &rows, &VACANT);
}
