// The line that is arriving.
ghost use Rattle.std.specs.Prelude.{◌≤◌};

use frame::LINE;

mod methods;

// The most characters of a line that are kept: one more than a line may have, which is enough to answer any line.
const KEPT: usize = LINE + 1;

// The first characters of a line. An array with a length beside it: the library's vector of fixed capacity is not Copy, and
// a buffer is copied like any plain value.
#[derive(Clone, Copy)]
pub struct LineBuffer {
    bytes: [u8; KEPT],
    len: usize,
    ghost most: { len ≤ 129 },
}
