// Reading amounts back from an answer line.
ghost use Rattle.std.specs.Prelude.{◌≡◌, length, is_ok, IfOk, if◌then◌else◌, Some};
ghost use Rattle.std.specs.Result.{result_err};
ghost use Rattle.frame.specs.Held.{held};
ghost use Rattle.frame.specs.Line.{bytes_of};
ghost use Rattle.frame.specs.Seal.{kind_of, payload_of};
ghost use Rattle.reading.specs.First.{first};
ghost use Rattle.answer.specs.Amounts.{amounts_of, amounts_on, amounts_tests};
ghost use Rattle.answer.specs.Answers.{answer_line};
ghost use Rattle.answer.specs.Kinds.{amounts_kind};
ghost use Rattle.answer.specs.declared.answer.Answer.TheVariants.{Amounts};

use crate::kind::AmountsKind;
use frame::{Field, Frame};
use reading::{Fault, LINES};
use std::array;

// How many bytes the amounts take.
const PAYLOAD: usize = 4 * LINES;

// Reads an answer line of amounts: its kind, with the amounts put into the caller's place, as the rule of this call has it.
// A refused line leaves the place as it was.
pub fn read_amounts(line: &[u8], amounts: &mut [i32; LINES]) -> Result<AmountsKind, Fault>
    ensures refused { result_err result ≡ first (amounts_tests line.now) }
    ensures value { IfOk result (λ kind. amounts_kind (kind_of (bytes_of line.now)) ≡ Some kind) }
    ensures after { amounts.new ≡ (if is_ok result then amounts_on line.now else amounts.old) }
    ensures spelling { IfOk result (λ kind. line.now ≡ answer_line (Amounts kind amounts.new)) }
{
    let frame = Frame::read(line)?;
    let kind = AmountsKind::try_from(frame.kind())?;
    frame.expect(PAYLOAD as u8)?;
    take_amounts(&frame, amounts);
    Ok(kind)
}

// The amounts of a frame that carries them.
fn take_amounts(frame: &Frame, amounts: &mut [i32; LINES])
    requires { length (held frame.now) ≡ 55 }
    ensures { amounts.new ≡ amounts_of (payload_of (held frame.now)) }
{
    *amounts = array::from_fn(|i| {
        let field = Field {
            byte: 3 + 4 * i,
            width: 4,
        };
        frame.number(field).cast_signed()
    });
}
