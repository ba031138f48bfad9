// A slot: the header, then sixteen entries.
ghost use Rattle.std.specs.Prelude.{◌≡◌, true, is_ok, IfOk, nat_eq, nat_le, slice_index};
ghost use Rattle.std.specs.List.{list_all};
ghost use Rattle.slot.specs.Layout.{slot_bytes};
ghost use Rattle.slot.specs.Reading.{row_in, lawful_slot, row_of};

use crate::entry::{entries_bytes, entries_in};
use crate::header::{HEADER, header_bytes, site_month, state_in};
use record::{Record, Row};

// How many bytes a slot takes.
pub const SLOT: usize = 424;

// A slot that is not in use.
pub const EMPTY: [u8; SLOT] = [0; SLOT];

// The bytes are not those of a slot: neither all zero nor what the encoder writes for a record.
#[derive(Clone, Copy, Debug, PartialEq, Eq)]
pub struct BadSlot;

// The slot of a record. A pair of functions with `decode`: neither an array nor an Option of a record is of this crate, so
// that no From and TryFrom can be.
pub fn encode(kept: &Record) -> [u8; SLOT]
    ensures value { result ≡ slot_bytes kept.now.row }
    ensures reads_back { row_in result ≡ kept.now.row }
    ensures lawful { lawful_slot result ≡ true }
{
    // Two copies: the two parts are of different types.
    let row = kept.row();
    let mut slot = [0; SLOT];
    slot[..HEADER].copy_from_slice(&header_bytes(row));
    slot[HEADER..].copy_from_slice(entries_bytes(&row.entries).as_flattened());
    slot
}

// The record in a slot, or nothing where the slot is all zero.
pub fn decode(slot: &[u8]) -> Result<Option<Record>, BadSlot>
    ensures refused { is_ok result ≡ lawful_slot slot.now }
    ensures value { IfOk result (λ found. row_of found ≡ row_in slot.now) }
    ensures spelling { IfOk result (λ found. slot.now ≡ slot_bytes (row_of found)) }
{
    let Ok(slot) = <&[u8; SLOT]>::try_from(slot) else {
        return Err(BadSlot);
    };
    if all_zero(slot) {
        return Ok(None);
    }
    // A match of two arms: a chain of `map` and `map_err` is no plainer.
    match Record::try_from(row_in(slot)?) {
        Ok(kept) => Ok(Some(kept)),
        Err(_) => Err(BadSlot),
    }
}

// Whether each byte is zero.
fn all_zero(bytes: &[u8]) -> bool
    ensures { result ≡ list_all (λ b. nat_eq b 0) bytes.now }
{
    bytes.iter().all(|b| *b == 0)
}

// The row in a slot, unless there is no such state.
fn row_in(slot: &[u8; SLOT]) -> Result<Row, BadSlot>
    ensures refused { is_ok result ≡ nat_le (slice_index slot.now 0) 2 }
    ensures value { IfOk result (λ row. row ≡ row_in slot.now) }
{
    let [state, count, a, b, c, d, e, f, ..] = *slot;
    Ok(Row {
        at: site_month([a, b, c, d, e, f]),
        state: state_in(state).ok_or(BadSlot)?,
        count: usize::from(count),
        entries: entries_in(slot),
    })
}
