// Writing a slot of an image over.
ghost use Rattle.std.specs.Prelude.{◌≡◌, ◌<◌};
ghost use Rattle.slots.specs.Cuts.{slot_count, put_slot};

use slot::SLOT;

// Writes a slot over. By its bytes: of a slice that is written as arrays, nothing is known of what it ends as.
pub(crate) fn put(bytes: &mut [u8], i: usize, slot: &[u8; SLOT])
    requires { i < slot_count bytes.old }
    ensures { bytes.new ≡ put_slot i slot.now bytes.old }
{
    let from = SLOT * i;
    bytes[from..from + SLOT].copy_from_slice(slot);
}
