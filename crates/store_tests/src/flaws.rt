// Which images can be taken into use, and the flaw of those that cannot.
use crate::known::{KNOWN_AT, known_closed_slot, known_slot, put};
use crate::refusal::check_refused;
use crate::samples::record_with;
use crate::table::check_all;
use reading::{Fault, SiteMonth};
use slot::{EMPTY, SLOT, encode};
use slots::Flaw;
use std::process::Abort;
use std::test::*;

// A site month of no other slot.
const ELSEWHERE: SiteMonth = SiteMonth { site: 1, month: 1 };

// How many zero bytes an image has, and what is told of it.
#[derive(Clone, Copy)]
struct Size {
    bytes: usize,
    told: Result<(), Flaw>,
}

// Bytes written over those of a slot, which make it unlawful.
#[derive(Clone, Copy)]
struct Patch {
    from: usize,
    bytes: &'static [u8],
}

// The sites of five slots, 0 for an empty one, and what is told.
#[derive(Clone, Copy)]
struct Sites {
    sites: [u32; 5],
    told: Result<(), Flaw>,
}

const SIZES: [Size; 13] = [
    Size {
        bytes: 0,
        told: Err(Flaw::NoSlot),
    },
    Size {
        bytes: 1,
        told: Err(Flaw::PartSlot),
    },
    Size {
        bytes: 423,
        told: Err(Flaw::PartSlot),
    },
    Size {
        bytes: 424,
        told: Ok(()),
    },
    Size {
        bytes: 425,
        told: Err(Flaw::PartSlot),
    },
    Size {
        bytes: 847,
        told: Err(Flaw::PartSlot),
    },
    Size {
        bytes: 848,
        told: Ok(()),
    },
    // 1,023 slots.
    Size {
        bytes: 433_752,
        told: Ok(()),
    },
    // One byte less than 1,024 slots, and just as many.
    Size {
        bytes: 434_175,
        told: Err(Flaw::PartSlot),
    },
    Size {
        bytes: 434_176,
        told: Ok(()),
    },
    // One byte more.
    Size {
        bytes: 434_177,
        told: Err(Flaw::PartSlot),
    },
    // 1,025 slots, and one byte more.
    Size {
        bytes: 434_600,
        told: Err(Flaw::TooManySlots),
    },
    Size {
        bytes: 434_601,
        told: Err(Flaw::PartSlot),
    },
];

// Over the known slot.
const UNLAWFUL: [Patch; 41] = [
    // States 3 and 255.
    Patch {
        from: 0,
        bytes: b"\x03",
    },
    Patch {
        from: 0,
        bytes: b"\xFF",
    },
    // Empty, and the rest as it was.
    Patch {
        from: 0,
        bytes: b"\x00",
    },
    // Counts 0, 1, 3, 16, 17 and 255 over two readings.
    Patch {
        from: 1,
        bytes: b"\x00",
    },
    Patch {
        from: 1,
        bytes: b"\x01",
    },
    Patch {
        from: 1,
        bytes: b"\x03",
    },
    Patch {
        from: 1,
        bytes: b"\x10",
    },
    Patch {
        from: 1,
        bytes: b"\x11",
    },
    Patch {
        from: 1,
        bytes: b"\xFF",
    },
    // Months 2,400, 2,560 and 65,535.
    Patch {
        from: 6,
        bytes: b"\x09\x60",
    },
    Patch {
        from: 6,
        bytes: b"\x0A\x00",
    },
    Patch {
        from: 6,
        bytes: b"\xFF\xFF",
    },
    // Flags 16 and 255, in the first reading and in the second.
    Patch {
        from: 12,
        bytes: b"\x10",
    },
    Patch {
        from: 12,
        bytes: b"\xFF",
    },
    Patch {
        from: 38,
        bytes: b"\x10",
    },
    // Power factor 101.
    Patch {
        from: 13,
        bytes: b"\x65",
    },
    Patch {
        from: 39,
        bytes: b"\x65",
    },
    // KWh 1,000,000 and the highest byte.
    Patch {
        from: 14,
        bytes: b"\x00\x0F\x42\x40",
    },
    Patch {
        from: 40,
        bytes: b"\x00\x0F\x42\x40",
    },
    Patch {
        from: 14,
        bytes: b"\x01",
    },
    // Off-hours one above the kWh, and the highest byte.
    Patch {
        from: 18,
        bytes: b"\x00\x0A\x0B\x0D",
    },
    Patch {
        from: 44,
        bytes: b"\x00\x0C\x0D\x0F",
    },
    Patch {
        from: 18,
        bytes: b"\x01",
    },
    // A demand of 100,000, and the highest byte.
    Patch {
        from: 22,
        bytes: b"\x00\x01\x86\xA0",
    },
    Patch {
        from: 48,
        bytes: b"\x00\x01\x86\xA0",
    },
    Patch {
        from: 22,
        bytes: b"\x01",
    },
    // A demand of 99,999 and a peak-hours demand of 100,000.
    Patch {
        from: 22,
        bytes: b"\x00\x01\x86\x9F\x00\x01\x86\xA0",
    },
    // A peak-hours demand one above the demand.
    Patch {
        from: 26,
        bytes: b"\x00\x01\x13\x15",
    },
    Patch {
        from: 52,
        bytes: b"\x00\x00\x16\x18",
    },
    // Kvar 10,000.
    Patch {
        from: 30,
        bytes: b"\x27\x10",
    },
    Patch {
        from: 56,
        bytes: b"\x27\x10",
    },
    // A load of 10,001.
    Patch {
        from: 32,
        bytes: b"\x27\x11",
    },
    Patch {
        from: 58,
        bytes: b"\x27\x11",
    },
    // The meters equal, falling by one, and falling though the low byte rises.
    Patch {
        from: 34,
        bytes: b"\x11\x12",
    },
    Patch {
        from: 34,
        bytes: b"\x11\x11",
    },
    Patch {
        from: 34,
        bytes: b"\x10\xFF",
    },
    // Unused entries: the third's first byte and its last, the fourth's first, and the last byte of the slot.
    Patch {
        from: 60,
        bytes: b"\x01",
    },
    Patch {
        from: 85,
        bytes: b"\x01",
    },
    Patch {
        from: 86,
        bytes: b"\x80",
    },
    Patch {
        from: 423,
        bytes: b"\x01",
    },
    Patch {
        from: 423,
        bytes: b"\xFF",
    },
];

// Over an empty slot: state 0 with another byte.
const NOT_EMPTY: [Patch; 10] = [
    Patch {
        from: 1,
        bytes: b"\x01",
    },
    Patch {
        from: 2,
        bytes: b"\x01",
    },
    Patch {
        from: 5,
        bytes: b"\x01",
    },
    Patch {
        from: 6,
        bytes: b"\x01",
    },
    Patch {
        from: 7,
        bytes: b"\x01",
    },
    Patch {
        from: 8,
        bytes: b"\x01",
    },
    Patch {
        from: 33,
        bytes: b"\x01",
    },
    Patch {
        from: 423,
        bytes: b"\x01",
    },
    // A used state and nothing else.
    Patch {
        from: 0,
        bytes: b"\x01",
    },
    Patch {
        from: 0,
        bytes: b"\x02",
    },
];

// Site months that stand once and twice.
const SITES: [Sites; 11] = [
    Sites {
        sites: [1, 2, 3, 4, 5],
        told: Ok(()),
    },
    Sites {
        sites: [0, 0, 0, 0, 9],
        told: Ok(()),
    },
    // Adjacent.
    Sites {
        sites: [1, 1, 3, 4, 5],
        told: Err(Flaw::Twice { slot: 0, again: 1 }),
    },
    Sites {
        sites: [1, 2, 3, 5, 5],
        told: Err(Flaw::Twice { slot: 3, again: 4 }),
    },
    // The first and the last.
    Sites {
        sites: [1, 2, 3, 4, 1],
        told: Err(Flaw::Twice { slot: 0, again: 4 }),
    },
    // Only empty slots between.
    Sites {
        sites: [0, 2, 0, 2, 0],
        told: Err(Flaw::Twice { slot: 1, again: 3 }),
    },
    // Thrice.
    Sites {
        sites: [0, 2, 2, 0, 2],
        told: Err(Flaw::Twice { slot: 1, again: 2 }),
    },
    // Two of them, apart.
    Sites {
        sites: [7, 7, 0, 8, 8],
        told: Err(Flaw::Twice { slot: 0, again: 1 }),
    },
    // Two of them, one within the other: the first slot counts.
    Sites {
        sites: [1, 2, 2, 0, 1],
        told: Err(Flaw::Twice { slot: 0, again: 4 }),
    },
    // Two of them, crossed.
    Sites {
        sites: [0, 1, 2, 1, 2],
        told: Err(Flaw::Twice { slot: 1, again: 3 }),
    },
    // All of them.
    Sites {
        sites: [6, 6, 6, 6, 6],
        told: Err(Flaw::Twice { slot: 0, again: 1 }),
    },
];

// A patched slot is refused as the only one, and as the last of three behind a record and an empty slot.
fn check_patched(rt: &impl Abort, mut slot: [u8; SLOT], patch: &Patch) {
    put(&mut slot, patch.from, patch.bytes);
    assert_eq!(rt; slots::check(&slot), Err(Flaw::Unlawful { slot: 0 }));
    let three = [encode(&record_with(rt, ELSEWHERE, &[1])), EMPTY, slot];
    let told = slots::check(three.as_flattened());
    assert_eq!(rt; told, Err(Flaw::Unlawful { slot: 2 }));
}

// The slot of a site's record in one month, or an empty one for site 0.
fn slot_of(rt: &impl Abort, site: u32) -> [u8; SLOT] {
    if site == 0 {
        return EMPTY;
    }
    encode(&record_with(rt, SiteMonth { site, month: 3 }, &[5]))
}

fn check_sites(rt: &impl Abort, case: &Sites) {
    let slots = case.sites.map(|site| slot_of(rt, site));
    assert_eq!(rt; slots::check(slots.as_flattened()), case.told);
}

#[test]
fn sizes(rt: HostRuntime) -> Result<(), Fail> {
    for (i, size) in SIZES.iter().enumerate() {
        let bytes = vec![in rt.alloc(); 0u8; size.bytes]?;
        assert_eq!(rt; slots::check(&bytes), size.told, "size {i}");
    }
    Ok(())
}

#[test]
fn unlawful_slots(rt: HostRuntime) {
    check_all(&rt, &UNLAWFUL, |rt, patch| {
        check_patched(rt, known_slot(), patch)
    });
}

#[test]
fn not_empty_slots(rt: HostRuntime) {
    check_all(&rt, &NOT_EMPTY, |rt, patch| check_patched(rt, EMPTY, patch));
}

#[test]
fn site_months(rt: HostRuntime) {
    check_all(&rt, &SITES, check_sites);
}

#[test]
fn lawful_slots(rt: HostRuntime) {
    assert_eq!(rt; slots::check(&known_slot()), Ok(()));
    assert_eq!(rt; slots::check(&known_closed_slot()), Ok(()));
}

// The state and the readings make no other site month.
#[test]
fn twice_open_and_closed(rt: HostRuntime) {
    let known = record_with(&rt, KNOWN_AT, &[5]);
    let slots = [known_closed_slot(), known_slot(), encode(&known)];
    assert_eq!(rt;
        slots::check(slots.as_flattened()),
        Err(Flaw::Twice { slot: 0, again: 1 })
    );
}

// A record of site 0 in month 0 is not the site month of an empty slot.
#[test]
fn site_month_of_zeros(rt: HostRuntime) {
    let at = SiteMonth { site: 0, month: 0 };
    let mut slots = [EMPTY, encode(&record_with(&rt, at, &[5])), EMPTY];
    assert_eq!(rt; slots::check(slots.as_flattened()), Ok(()));
    slots[2] = encode(&record_with(&rt, at, &[6]));
    assert_eq!(rt;
        slots::check(slots.as_flattened()),
        Err(Flaw::Twice { slot: 1, again: 2 })
    );
}

// The size comes first, then the slots, and then the site months.
#[test]
fn first_flaw(rt: HostRuntime) {
    let mut slots = [known_slot(), known_slot(), EMPTY];
    put(&mut slots[2], 0, b"\x03");
    let bytes = slots.as_flattened();
    assert_eq!(rt; slots::check(bytes), Err(Flaw::Unlawful { slot: 2 }));
    assert_eq!(rt; slots::check(&bytes[0..1_271]), Err(Flaw::PartSlot));
    put(&mut slots[1], 0, b"\x03");
    assert_eq!(rt;
        slots::check(slots.as_flattened()),
        Err(Flaw::Unlawful { slot: 1 })
    );
}

// The refusal that every flaw comes to.
#[test]
fn faults_of_flaws(rt: HostRuntime) {
    let checked = slots::check(&[]).map_err(Fault::from);
    check_refused(&rt, checked, (16, 6, 0));
}
