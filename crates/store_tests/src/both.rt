// What every store does, whether over rows or over an image.
use crate::note::Noted;
use crate::refusal::check_refused;
use crate::samples::{METERS, record_with};
use crate::scenarios::{Scenario, on_both};
use reading::SiteMonth;
use record::Record;
use std::ops::Range;
use std::process::Abort;
use std::test::*;
use store::Store;

struct StartsEmpty;

struct FillsUp;

struct ReplacesHeld;

struct ReusesRoom;

struct EmptiesOut;

struct TellsApart;

// A site month of none of the records below.
const ELSEWHERE: SiteMonth = SiteMonth {
    site: u32::MAX,
    month: 2_000,
};

// Site months that share a site, a month or some of their bytes.
const ALIKE: [SiteMonth; 5] = [
    SiteMonth {
        site: 7,
        month: 252,
    },
    SiteMonth {
        site: 7,
        month: 508,
    },
    SiteMonth {
        site: 16_777_223,
        month: 252,
    },
    SiteMonth {
        site: 252,
        month: 7,
    },
    SiteMonth { site: 0, month: 0 },
];

// Site months by number, three months of each site.
fn site_month(n: u32) -> SiteMonth {
    SiteMonth {
        site: n / 3,
        month: 2_397 + (n % 3) as u16,
    }
}

// The record of a number, with 1 to 16 readings.
fn numbered(rt: &impl Abort, n: u32) -> Record {
    let count = 1 + (n % 16) as usize;
    record_with(rt, site_month(n), &METERS[0..count])
}

// Another record of the same site month.
fn renewed(rt: &impl Abort, n: u32) -> Record {
    record_with(rt, site_month(n), &[7, 700, 7_000]).closed()
}

// A record is found and read.
fn check_held<S: Store>(rt: &impl Abort, store: &S, kept: &Record) {
    assert!(rt; store.find(kept.at()));
    let mut place = record_with(rt, ELSEWHERE, &[9]);
    assert!(rt; store.read(kept.at(), &mut place));
    assert_eq!(rt; place, *kept);
}

// A site month is neither found nor read, and the caller's place stays.
fn check_missing<S: Store>(rt: &impl Abort, store: &S, at: SiteMonth) {
    assert!(rt; !store.find(at));
    let before = record_with(rt, ELSEWHERE, &[9]);
    let mut place = before;
    assert!(rt; !store.read(at, &mut place));
    assert_eq!(rt; place, before);
}

fn check_kept<S: Store>(rt: &impl Abort, store: &mut S, kept: &Record) {
    assert_eq!(rt; store.keep(kept), Ok(()));
    check_held(rt, store, kept);
}

// A record is refused, since the store is full.
fn check_full<S: Store>(rt: &impl Abort, store: &mut S, kept: &Record) {
    check_refused(rt, store.keep(kept), (15, 6, 3));
}

// The records of these numbers are held.
fn check_numbers<S: Store>(rt: &impl Abort, store: &S, numbers: Range<u32>) {
    for n in numbers {
        let rt = &Noted(rt, n);
        check_held(rt, store, &numbered(rt, n));
    }
}

// Keeps the records of the first numbers up to the capacity, and says how many.
fn fill<S: Store>(rt: &impl Abort, store: &mut S) -> u32 {
    let count = u32::try_from(store.capacity()).expect(rt, "capacity");
    for n in 0..count {
        let rt = &Noted(rt, n);
        check_missing(rt, store, site_month(n));
        check_kept(rt, store, &numbered(rt, n));
    }
    count
}

// Nothing is held, found, read or removed.
impl Scenario for StartsEmpty {
    fn play<S: Store>(rt: &impl Abort, store: &mut S) {
        for at in ALIKE.iter() {
            check_missing(rt, store, *at);
            assert!(rt; !store.remove(*at));
        }
    }
}

// Records are kept up to the capacity. One more is refused, and changes nothing.
impl Scenario for FillsUp {
    fn play<S: Store>(rt: &impl Abort, store: &mut S) {
        let count = fill(rt, store);
        check_numbers(rt, store, 0..count);
        check_full(rt, store, &numbered(rt, count));
        check_missing(rt, store, site_month(count));
        check_numbers(rt, store, 0..count);
        assert!(rt; !store.remove(site_month(count)));
        check_numbers(rt, store, 0..count);
    }
}

// A held site month takes another record, also in a full store.
impl Scenario for ReplacesHeld {
    fn play<S: Store>(rt: &impl Abort, store: &mut S) {
        let count = fill(rt, store);
        for n in 0..count {
            let rt = &Noted(rt, n);
            check_kept(rt, store, &renewed(rt, n));
        }
        for n in 0..count {
            let rt = &Noted(rt, n);
            check_held(rt, store, &renewed(rt, n));
        }
        check_full(rt, store, &numbered(rt, count));
    }
}

// The room of a record that is removed serves another site month.
impl Scenario for ReusesRoom {
    fn play<S: Store>(rt: &impl Abort, store: &mut S) {
        let count = fill(rt, store);
        for n in 0..count {
            let rt = &Noted(rt, n);
            assert!(rt; store.remove(site_month(n)));
            check_missing(rt, store, site_month(n));
            check_kept(rt, store, &numbered(rt, count.wrapping_add(n)));
            check_full(rt, store, &numbered(rt, n));
        }
        check_numbers(rt, store, count..count.wrapping_add(count));
    }
}

// Each record is removed once, the last first, and no other with it.
impl Scenario for EmptiesOut {
    fn play<S: Store>(rt: &impl Abort, store: &mut S) {
        let count = fill(rt, store);
        for left in (0..count).rev() {
            let rt = &Noted(rt, left);
            assert!(rt; store.remove(site_month(left)));
            assert!(rt; !store.remove(site_month(left)));
            check_missing(rt, store, site_month(left));
        }
        let again = fill(rt, store);
        assert_eq!(rt; again, count);
        check_numbers(rt, store, 0..count);
    }
}

// As many site months as have room, each with readings of its own.
impl Scenario for TellsApart {
    fn play<S: Store>(rt: &impl Abort, store: &mut S) {
        let room = store.capacity();
        for (at, meter) in ALIKE.iter().zip(METERS.iter()).take(room) {
            check_missing(rt, store, *at);
            check_kept(rt, store, &record_with(rt, *at, &[*meter]));
        }
        for (at, meter) in ALIKE.iter().zip(METERS.iter()).take(room) {
            check_held(rt, store, &record_with(rt, *at, &[*meter]));
        }
        for at in ALIKE.iter().skip(room) {
            check_missing(rt, store, *at);
            assert!(rt; !store.remove(*at));
        }
    }
}

#[test]
fn starts_empty(rt: HostRuntime) -> Result<(), Fail> {
    on_both::<StartsEmpty>(&rt, rt.alloc())
}

#[test]
fn fills_up(rt: HostRuntime) -> Result<(), Fail> {
    on_both::<FillsUp>(&rt, rt.alloc())
}

#[test]
fn replaces_held(rt: HostRuntime) -> Result<(), Fail> {
    on_both::<ReplacesHeld>(&rt, rt.alloc())
}

#[test]
fn reuses_room(rt: HostRuntime) -> Result<(), Fail> {
    on_both::<ReusesRoom>(&rt, rt.alloc())
}

#[test]
fn empties_out(rt: HostRuntime) -> Result<(), Fail> {
    on_both::<EmptiesOut>(&rt, rt.alloc())
}

#[test]
fn tells_apart(rt: HostRuntime) -> Result<(), Fail> {
    on_both::<TellsApart>(&rt, rt.alloc())
}
