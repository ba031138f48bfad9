// An image as a store: what is written to its bytes.
use crate::compare::check_one;
use crate::known::{known_record, known_slot};
use crate::note::Noted;
use crate::opened::on_image;
use crate::samples::sited;
use reading::{Fault, SiteMonth};
use record::Record;
use slot::{SLOT, encode};
use std::process::Abort;
use store::Store;

// The slots of an image.
type Slots = [[u8; SLOT]; 3];

const EMPTY: Slots = [[0; SLOT]; 3];

fn keep(rt: &impl Abort, slots: &mut Slots, kept: &Record) -> Result<(), Fault> {
    on_image(rt, slots.as_flattened_mut(), |image| image.keep(kept))
}

fn remove(rt: &impl Abort, slots: &mut Slots, at: SiteMonth) -> bool {
    on_image(rt, slots.as_flattened_mut(), |image| image.remove(at))
}

// The records of sites 1 to 3, the image being taken into use anew for each.
fn full_image(rt: &impl Abort) -> Slots {
    let mut slots = EMPTY;
    for site in 1..4u32 {
        assert_eq!(rt; keep(rt, &mut slots, &sited(rt, site)), Ok(()));
    }
    slots
}

#[test]
fn reading_writes_nothing(rt: HostRuntime) {
    let mut slots = EMPTY;
    slots[1] = known_slot();
    let before = slots;
    let known = known_record(&rt);
    let mut place = sited(&rt, 1);
    let bytes = slots.as_flattened_mut();
    let held = on_image(&rt, bytes, |image| image.read(known.at(), &mut place));
    assert!(rt; held);
    assert_eq!(rt; place, known);
    assert_eq!(rt; slots, before);
}

// The record is kept, and becomes one slot.
fn check_keeps(rt: &impl Abort, slots: &mut Slots, kept: &Record) {
    let before = *slots;
    assert_eq!(rt; keep(rt, slots, kept), Ok(()));
    check_one(rt, &before, slots, &encode(kept));
}

#[test]
fn keeping_writes_one_slot(rt: HostRuntime) {
    let mut slots = EMPTY;
    for site in 1..4u32 {
        let rt = &Noted(&rt, site);
        check_keeps(rt, &mut slots, &sited(rt, site));
    }
}

#[test]
fn keeping_again_writes_its_own_slot(rt: HostRuntime) {
    let mut slots = full_image(&rt);
    for site in 1..4u32 {
        let rt = &Noted(&rt, site);
        check_keeps(rt, &mut slots, &sited(rt, site).closed());
    }
}

#[test]
fn refusing_writes_nothing(rt: HostRuntime) {
    let before = full_image(&rt);
    let mut slots = before;
    assert!(rt; keep(&rt, &mut slots, &sited(&rt, 4)).is_err());
    assert_eq!(rt; slots, before);
}

#[test]
fn missing_writes_nothing(rt: HostRuntime) {
    let before = full_image(&rt);
    let mut slots = before;
    assert!(rt; !remove(&rt, &mut slots, sited(&rt, 4).at()));
    assert_eq!(rt; slots, before);
}

#[test]
fn removing_zeroes_one_slot(rt: HostRuntime) {
    let before = full_image(&rt);
    for site in 1..4u32 {
        let rt = &Noted(&rt, site);
        let mut slots = before;
        assert!(rt; remove(rt, &mut slots, sited(rt, site).at()));
        check_one(rt, &before, &slots, &[0; SLOT]);
    }
}

#[test]
fn kept_and_removed(rt: HostRuntime) {
    let mut slots = EMPTY;
    assert_eq!(rt; keep(&rt, &mut slots, &sited(&rt, 1)), Ok(()));
    assert!(rt; remove(&rt, &mut slots, sited(&rt, 1).at()));
    assert_eq!(rt; slots, EMPTY);
}
