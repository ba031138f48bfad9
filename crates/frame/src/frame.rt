// A frame: kind, length byte, payload and check byte.
ghost use Rattle.std.specs.Prelude.{◌≡◌, ◌≤◌, true, take};
ghost use Rattle.frame.specs.Seal.{Sealed, all_bytes};

mod parts;
mod read;
mod write;

pub use parts::Field;

// The most characters of a line.
pub const LINE: usize = 128;

// The most bytes of a frame, two characters each.
const SIZE: usize = LINE / 2;

// At most 64 bytes, whose sum is a multiple of 256. An array with a length beside it: the library's vector of fixed capacity is
// not Copy, and a frame is copied like any plain value.
#[derive(Clone, Copy)]
pub struct Frame {
    bytes: [u8; SIZE],
    len: usize,
    ghost least: { 3 ≤ len },
    ghost most: { len ≤ 64 },
    ghost fit: { all_bytes (take len bytes) ≡ true },
    ghost checked: { Sealed (take len bytes) },
}
