// Reading a line as a frame.
ghost use Rattle.std.specs.Prelude.{◌≡◌, ◌/◌, ◌%◌, ◌<◌, ◌≤◌, not, length, take, is_some, IfOk, Some, sum, OnOk};
ghost use Rattle.std.specs.Result.{result_err};
ghost use Rattle.reading.specs.declared.fault.Fault.TheVariants.{Digit};
ghost use Rattle.frame.specs.Digit.{value_of};
ghost use Rattle.frame.specs.Line.{spelled, bytes_of};
ghost use Rattle.reading.specs.First.{first, when};
ghost use Rattle.frame.specs.Tests.{digit_test, line_tests};
ghost use Rattle.frame.specs.Held.{held};

use crate::digit::value_of;
use crate::frame::{Frame, LINE, SIZE};
use reading::Fault;

impl Frame {
    // The frame that a line spells, or the first refusal that fits the line.
    #[tactic(auto, using(std::proofs::lemmas::Bool::Decides::nat_tests, crate::proofs::Spelling::spelled_bytes, crate::proofs::Spelling::bytes_below, crate::proofs::Spelling::length_bytes, crate::proofs::Bytes::each_below, crate::proofs::Sums::sealed_part))]
    pub fn read(line: &[u8]) -> Result<Frame, Fault>
        ensures refused { result_err result ≡ first (line_tests line.now) }
        ensures value { IfOk result (λ f. held f ≡ bytes_of line.now) }
        ensures spelling { IfOk result (λ f. line.now ≡ spelled (held f)) }
    {
        let count = line.len();
        if count % 2 == 1 || count < 6 || count > LINE {
            return Err(Fault::LineLength);
        }
        let mut bytes = [0; SIZE];
        decode(line, &mut bytes)?;
        let len = count / 2;
        if sum_of(&bytes[0..len]) != 0 {
            return Err(Fault::Sum);
        }
        Ok(Frame { bytes, len })
    }
}

// The bytes of a line of digits, at the front of `bytes`.
fn decode(line: &[u8], bytes: &mut [u8; SIZE]) -> Result<(), Fault>
    requires { (length line.now % 2 ≡ 0) × (length line.now ≤ 128) }
    ensures refused { result_err result ≡ digit_test line.now }
    ensures value { OnOk result (take (length line.now / 2) bytes.new ≡ bytes_of line.now) }
{
    let (pairs, _) = line.as_chunks::<2>();
    for (i, [high, low]) in pairs.iter().enumerate() {
        let column = 2 * i as u16 + 1;
        let high = digit(*high, column)?;
        let low = digit(*low, column + 1)?;
        bytes[i] = 16 * high + low;
    }
    Ok(())
}

// The value of the digit in a column of the line.
fn digit(c: u8, column: u16) -> Result<u8, Fault>
    ensures refused { result_err result ≡ when (not (is_some (value_of c))) (Digit column) }
    ensures value { IfOk result (λ v. value_of c ≡ Some v) }
    ensures bound { IfOk result (λ v. v < 16) }
{
    value_of(c).ok_or(Fault::Digit { column })
}

// The sum of some bytes, less the multiples of 256.
pub(crate) fn sum_of(bytes: &[u8]) -> u8
    ensures { result ≡ sum bytes.now % 256 }
{
    let mut total = 0u8;
    for b in bytes {
        total = total.wrapping_add(*b);
    }
    total
}
