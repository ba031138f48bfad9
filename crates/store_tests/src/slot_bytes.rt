// A record as the bytes of a slot, and back.
use crate::known::{KNOWN_AT, known_closed_slot, known_record, known_slot};
use crate::samples::{AT, METERS, record_with};
use record::Record;
use slot::{BadSlot, SLOT, decode, encode, head};
use std::process::Abort;
use std::test::*;

// The last entry of sixteen, that of meter 65,535.
const LAST_BYTES: &[u8] =
    b"\xFF\xFF\x00\x04\x05\x5A\x00\x01\x27\x0F\x00\x00\x02\xBC\x00\x00\x02\x58\x00\x00\x01\xF4\x00\x28\x00\x1E";

// The slot has the record, and the record has the slot.
fn check_slot(rt: &impl Abort, slot: &[u8; SLOT], kept: &Record) {
    assert_eq!(rt; encode(kept), *slot);
    assert_eq!(rt; decode(slot), Ok(Some(*kept)));
}

#[test]
fn open_slot(rt: HostRuntime) {
    check_slot(&rt, &known_slot(), &known_record(&rt));
}

#[test]
fn closed_slot(rt: HostRuntime) {
    check_slot(&rt, &known_closed_slot(), &known_record(&rt).closed());
}

#[test]
fn full_slot(rt: HostRuntime) {
    let kept = record_with(&rt, AT, &METERS);
    let slot = encode(&kept);
    assert_eq!(rt; &slot[0..8], b"\x01\x10\x00\x00\x00\x07\x00\xFC".as_slice());
    assert_eq!(rt; &slot[398..424], LAST_BYTES);
    check_slot(&rt, &slot, &kept);
}

#[test]
fn empty_slot(rt: HostRuntime) {
    assert_eq!(rt; decode(&[0; SLOT]), Ok(None));
}

#[test]
fn parts_of_slots(rt: HostRuntime) {
    let slot = known_slot();
    assert_eq!(rt; decode(&[]), Err(BadSlot));
    assert_eq!(rt; decode(&slot[0..8]), Err(BadSlot));
    assert_eq!(rt; decode(&slot[0..423]), Err(BadSlot));
    assert_eq!(rt; decode(&[0; 423]), Err(BadSlot));
    assert_eq!(rt; decode(&[0; 425]), Err(BadSlot));
}

#[test]
fn heads(rt: HostRuntime) {
    let slot = known_slot();
    assert_eq!(rt; head(&[0; SLOT]), None);
    assert_eq!(rt; head(&slot[0..7]), None);
    assert_eq!(rt; head(&slot[0..8]), Some(KNOWN_AT));
    assert_eq!(rt; head(&known_closed_slot()), Some(KNOWN_AT));
}
