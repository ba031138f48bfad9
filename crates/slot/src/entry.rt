// The entries of a slot, high bytes first.
ghost use Rattle.std.specs.Prelude.{◌≡◌, ◌<◌, [], map, length, drop, slice_index_or};
ghost use Rattle.record.specs.Meters.{blank};
ghost use Rattle.slot.specs.Layout.{entry_bytes};
ghost use Rattle.slot.specs.Reading.{entry_in, entries_in};

use crate::header::HEADER;
use crate::slot::SLOT;
use reading::Entry;
use record::READINGS;
use std::array;

// How many bytes an entry takes.
const ENTRY: usize = 26;

// The bytes of each entry. By their places: an array's `map` hands each entry on by value, which takes half as long again.
pub(crate) fn entries_bytes(entries: &[Entry; READINGS]) -> [[u8; ENTRY]; READINGS]
    ensures { result ≡ map entry_bytes entries.now }
{
    array::from_fn(
        |i|
            requires { i < 16 }
            ensures { result ≡ entry_bytes (slice_index_or entries.entry.now i blank) }
        { entry_bytes(&entries[i]) },
    )
}

// The bytes of an entry.
fn entry_bytes(entry: &Entry) -> [u8; ENTRY]
    ensures { result ≡ entry_bytes entry.now }
{
    let [m0, m1] = entry.meter.to_be_bytes();
    let [s0, s1] = entry.schedule.to_be_bytes();
    let [k0, k1, k2, k3] = entry.kwh.to_be_bytes();
    let [o0, o1, o2, o3] = entry.off_hours.to_be_bytes();
    let [d0, d1, d2, d3] = entry.demand.to_be_bytes();
    let [p0, p1, p2, p3] = entry.peak_demand.to_be_bytes();
    let [v0, v1] = entry.kvar.to_be_bytes();
    let [l0, l1] = entry.load.to_be_bytes();
    [
        m0,
        m1,
        s0,
        s1,
        entry.flags,
        entry.power_factor,
        k0,
        k1,
        k2,
        k3,
        o0,
        o1,
        o2,
        o3,
        d0,
        d1,
        d2,
        d3,
        p0,
        p1,
        p2,
        p3,
        v0,
        v1,
        l0,
        l1,
    ]
}

// The entries in a slot.
pub(crate) fn entries_in(slot: &[u8; SLOT]) -> [Entry; READINGS]
    ensures { result ≡ entries_in 16 (drop 8 slot.now) }
{
    let (entries, _) = slot[HEADER..].as_chunks();
    array::from_fn(
        |i|
            requires { i < length entries.now }
            ensures { result ≡ entry_in (slice_index_or entries.entry.now i []) }
        { entry_in(&entries[i]) },
    )
}

// The entry in its bytes.
fn entry_in(bytes: &[u8; ENTRY]) -> Entry
    ensures { result ≡ entry_in bytes.now }
{
    let [
        m0,
        m1,
        s0,
        s1,
        flags,
        power_factor,
        k0,
        k1,
        k2,
        k3,
        o0,
        o1,
        o2,
        o3,
        d0,
        d1,
        d2,
        d3,
        p0,
        p1,
        p2,
        p3,
        v0,
        v1,
        l0,
        l1,
    ] = *bytes;
    Entry {
        meter: u16::from_be_bytes([m0, m1]),
        schedule: u16::from_be_bytes([s0, s1]),
        flags,
        power_factor,
        kwh: u32::from_be_bytes([k0, k1, k2, k3]),
        off_hours: u32::from_be_bytes([o0, o1, o2, o3]),
        demand: u32::from_be_bytes([d0, d1, d2, d3]),
        peak_demand: u32::from_be_bytes([p0, p1, p2, p3]),
        kvar: u16::from_be_bytes([v0, v1]),
        load: u16::from_be_bytes([l0, l1]),
    }
}
