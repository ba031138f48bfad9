// What the block answers to a line.
ghost use Rattle.std.specs.Prelude.{◌≡◌};
ghost use Rattle.frame.specs.Held.{held};
ghost use Rattle.frame.specs.Seal.{framed};
ghost use Rattle.frame.specs.Written.{Written};
ghost use Rattle.answer.specs.Amounts.{amounts_payload};
ghost use Rattle.answer.specs.Answers.{answer_frame, answer_line, AmountsReadBack};
ghost use Rattle.answer.specs.Kinds.{kind_byte};
ghost use Rattle.answer.specs.declared.answer.Answer.TheVariants.{Refused};

use crate::kind::{AmountsKind, OtherKind};
use frame::Frame;
use reading::{Fault, LINES};

#[derive(Clone, Copy, Debug, PartialEq, Eq)]
pub enum Answer {
    // One amount for each statement line, in whole cents.
    Amounts {
        kind: AmountsKind,
        amounts: [i32; LINES],
    },
    // The site month was closed.
    Closed,
    // The card was accepted.
    CardAccepted,
    Refused(Fault),
}

impl Answer {
    // Writes the answer as a line at the front of a buffer of at least 128 bytes, and answers the line's length.
    pub fn write(&self, buffer: &mut [u8]) -> Result<usize, Fault>
        ensures written { Written (answer_line self.now) buffer.old buffer.new result }
        ensures reads_back { AmountsReadBack }
    {
        self.frame().write(buffer)
    }

    // The frame of the answer.
    fn frame(&self) -> Frame
        ensures { held result ≡ answer_frame self.now }
    {
        match self {
            Answer::Amounts { kind, amounts } => amounts_frame(*kind, amounts),
            Answer::Closed => Frame::new(OtherKind::Closed as u8, &[]),
            Answer::CardAccepted => Frame::new(OtherKind::CardAccepted as u8, &[]),
            Answer::Refused(fault) => refusal_frame(*fault),
        }
    }
}

// The frame of a refusal: its number, its layer and its place.
fn refusal_frame(fault: Fault) -> Frame
    ensures { held result ≡ answer_frame (Refused fault) }
{
    let [high, low] = fault.place().to_be_bytes();
    Frame::new(
        OtherKind::Refused as u8,
        &[fault.number(), fault.layer() as u8, high, low],
    )
}

// The frame of the amounts, four bytes each.
fn amounts_frame(kind: AmountsKind, amounts: &[i32; LINES]) -> Frame
    ensures { held result ≡ framed (kind_byte kind) (amounts_payload amounts.now) }
{
    let payload = amounts.map(i32::to_be_bytes);
    Frame::new(u8::from(kind), payload.as_flattened())
}
