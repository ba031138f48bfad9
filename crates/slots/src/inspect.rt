// Whether an image can be taken into use.
ghost use Rattle.std.specs.Prelude.{◌≡◌, is_ok};
ghost use Rattle.std.specs.Result.{result_err};
ghost use Rattle.slots.specs.Cuts.{slots_of, table_of, lawful_image};
ghost use Rattle.slots.specs.Flaws.{size_flaw, unlawful_from, twice_from, flaw_of};

use crate::cut::{count, place, slots_of};
use crate::flaw::Flaw;
use slot::{SLOT, decode, head};
use store::MOST;

// The first flaw of an image, if it has one.
#[tactic(auto, using(crate::proofs::Places::ok_lawful))]
pub fn check(bytes: &[u8]) -> Result<(), Flaw>
    ensures refused { result_err result ≡ flaw_of bytes.now }
    ensures usable { is_ok result ≡ lawful_image bytes.now }
{
    first_flaw(bytes)
}

// Asked in this order: the size, each slot, and the site months.
fn first_flaw(bytes: &[u8]) -> Result<(), Flaw>
    ensures { result_err result ≡ flaw_of bytes.now }
{
    check_size(bytes)?;
    check_slots(bytes)?;
    check_site_months(bytes)
}

// A flaw, unless there are 1 to 1,024 whole slots.
fn check_size(bytes: &[u8]) -> Result<(), Flaw>
    ensures { result_err result ≡ size_flaw bytes.now }
{
    if bytes.len() % SLOT != 0 {
        return Err(Flaw::PartSlot);
    }
    match count(bytes) {
        0 => Err(Flaw::NoSlot),
        1..=MOST => Ok(()),
        _ => Err(Flaw::TooManySlots),
    }
}

// A flaw, unless each slot is lawful.
fn check_slots(bytes: &[u8]) -> Result<(), Flaw>
    ensures { result_err result ≡ unlawful_from 0 (slots_of bytes.now) }
{
    match slots_of(bytes)
        .iter()
        .position(|slot| decode(slot).is_err())
    {
        Some(slot) => Err(Flaw::Unlawful { slot }),
        None => Ok(()),
    }
}

// A flaw, unless each site month stands once.
fn check_site_months(bytes: &[u8]) -> Result<(), Flaw>
    ensures { result_err result ≡ twice_from 0 (table_of bytes.now) }
{
    for (slot, this) in slots_of(bytes).iter().enumerate() {
        let Some(at) = head(this) else {
            continue;
        };
        if let Some(again) = place(bytes, slot + 1, at) {
            return Err(Flaw::Twice { slot, again });
        }
    }
    Ok(())
}
