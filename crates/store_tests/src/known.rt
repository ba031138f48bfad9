// A record and the bytes of its slot, worked out by hand. No two fields share a value, nor two bytes of one number.
use crate::samples::{record_of, row_of};
use reading::{Entry, SiteMonth};
use record::Record;
use slot::SLOT;
use std::process::Abort;

pub(crate) const KNOWN_AT: SiteMonth = SiteMonth {
    site: 1_364_349_780,
    month: 2_145,
};

const FIRST: Entry = Entry {
    meter: 4_370,
    schedule: 8_482,
    flags: 13,
    power_factor: 95,
    kwh: 658_188,
    off_hours: 591_879,
    demand: 70_420,
    peak_demand: 69_135,
    kvar: 7_966,
    load: 8_996,
};

const SECOND: Entry = Entry {
    meter: 12_594,
    schedule: 16_706,
    flags: 6,
    power_factor: 85,
    kwh: 789_774,
    off_hours: 394_500,
    demand: 5_655,
    peak_demand: 5_398,
    kvar: 6_424,
    load: 6_683,
};

// State open, two readings, site and month.
const OPEN_HEAD: &[u8] = b"\x01\x02\x51\x52\x53\x54\x08\x61";

const CLOSED_HEAD: &[u8] = b"\x02\x02\x51\x52\x53\x54\x08\x61";

const FIRST_BYTES: &[u8] =
    b"\x11\x12\x21\x22\x0D\x5F\x00\x0A\x0B\x0C\x00\x09\x08\x07\x00\x01\x13\x14\x00\x01\x0E\x0F\x1F\x1E\x23\x24";

const SECOND_BYTES: &[u8] =
    b"\x31\x32\x41\x42\x06\x55\x00\x0C\x0D\x0E\x00\x06\x05\x04\x00\x00\x16\x17\x00\x00\x15\x16\x19\x18\x1A\x1B";

// Writes bytes over those from one on.
pub(crate) fn put(bytes: &mut [u8], from: usize, new: &[u8]) {
    for (place, byte) in bytes.iter_mut().skip(from).zip(new.iter()) {
        *place = *byte;
    }
}

// The record, open.
pub(crate) fn known_record(rt: &impl Abort) -> Record {
    record_of(rt, row_of(KNOWN_AT, &[FIRST, SECOND]))
}

// Its slot: the header, two entries from bytes 8 and 34 on, and zeros from byte 60 on.
pub(crate) fn known_slot() -> [u8; SLOT] {
    let mut slot = [0; SLOT];
    put(&mut slot, 0, OPEN_HEAD);
    put(&mut slot, 8, FIRST_BYTES);
    put(&mut slot, 34, SECOND_BYTES);
    slot
}

// The slot of the record closed.
pub(crate) fn known_closed_slot() -> [u8; SLOT] {
    let mut slot = known_slot();
    put(&mut slot, 0, CLOSED_HEAD);
    slot
}
