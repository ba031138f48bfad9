// The slots of an image.
ghost use Rattle.std.specs.Prelude.{◌≡◌, ◌*◌, ◌<◌, not, length, take, drop, slice_index_or};
ghost use Rattle.std.specs.List.{position_from};
ghost use Rattle.record.specs.Rows.{keyed, vacant};
ghost use Rattle.record.specs.States.{used};
ghost use Rattle.slot.specs.Reading.{row_in};
ghost use Rattle.store.specs.Table.{Free};
ghost use Rattle.slots.specs.Cuts.{slot_count, slots_of, table_of};
ghost use Rattle.slots.specs.Flaws.{place_from};

use reading::SiteMonth;
use slot::{SLOT, head};

// How many whole slots there are.
pub fn count(bytes: &[u8]) -> usize
    ensures { result ≡ slot_count bytes.now }
{
    bytes.len() / SLOT
}

// The whole slots.
pub fn slots_of(bytes: &[u8]) -> &[[u8; SLOT]]
    ensures value { result.now ≡ slots_of bytes.now }
    ensures len { length result.now ≡ slot_count bytes.now }
{
    let (slots, _) = bytes.as_chunks();
    slots
}

// One slot.
pub fn slot_at(bytes: &[u8], i: usize) -> &[u8; SLOT]
    requires { i < slot_count bytes.now }
    ensures value { result.now ≡ take 424 (drop (424 * i) bytes.now) }
    ensures len { length result.now ≡ 424 }
    ensures row { row_in result.now ≡ slice_index_or (table_of bytes.now) i vacant }
{
    &slots_of(bytes)[i]
}

// The first slot from one on that has the record of a site month.
pub fn place(bytes: &[u8], from: usize, at: SiteMonth) -> Option<usize>
    ensures { result ≡ place_from from at (drop from (table_of bytes.now)) }
{
    let later = slots_of(bytes).get(from..)?;
    let i = later.iter().position(|slot| is_of(slot, at))?;
    Some(from + i)
}

// Whether a slot has the record of a site month, by its head.
fn is_of(slot: &[u8; SLOT], at: SiteMonth) -> bool
    ensures { result ≡ keyed at (row_in slot.now) }
{
    head(slot) == Some(at)
}

// The first slot that is not in use.
#[tactic(auto, using(crate::proofs::Places::first_vacant))]
pub fn vacancy(bytes: &[u8]) -> Option<usize>
    ensures { Free (table_of bytes.now) result }
{
    vacancy_from(bytes, 0)
}

// The first slot from one on that is not in use. As `place`, with another test: one function of both, which takes the test, is no
// plainer.
fn vacancy_from(bytes: &[u8], from: usize) -> Option<usize>
    ensures { result ≡ position_from (λ row. not (used row.state)) from (drop from (table_of bytes.now)) }
{
    let later = slots_of(bytes).get(from..)?;
    let i = later.iter().position(is_vacant)?;
    Some(from + i)
}

// Whether a slot is not in use, by its head.
fn is_vacant(slot: &[u8; SLOT]) -> bool
    ensures { result ≡ not (used (row_in slot.now).state) }
{
    head(slot).is_none()
}
