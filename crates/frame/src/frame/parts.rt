// The parts of a frame.
ghost use Rattle.std.specs.Prelude.{◌≡◌, ◌+◌, ◌^◌, ◌<◌, ◌≤◌, not, length, OnOk};
ghost use Rattle.std.specs.Result.{result_err};
ghost use Rattle.std.specs.Int.Digits.{number_from_digits};
ghost use Rattle.reading.specs.declared.fault.Fault.TheVariants.{PayloadLength};
ghost use Rattle.frame.specs.Held.{held};
ghost use Rattle.frame.specs.Seal.{kind_of, length_byte, payload_of, framed, carries, field as number_in};
ghost use Rattle.reading.specs.First.{when};

use crate::frame::Frame;
use reading::Fault;

// The kind, the length byte, and the rest: the payload and the check byte.
#[derive(Clone, Copy)]
struct Parts<'a> {
    kind: u8,
    length: u8,
    rest: &'a [u8],
}

// A field of a frame: its first byte, counted from 1, and its width in bytes.
#[derive(Clone, Copy)]
pub struct Field {
    pub byte: usize,
    pub width: usize,
}

impl Frame {
    // The bytes of the frame.
    pub(crate) fn bytes(&self) -> &[u8]
        ensures value { result.now ≡ held self.now }
        ensures len { length result.now ≡ self.now.len }
    {
        &self.bytes[0..self.len]
    }

    // The frame taken apart.
    fn parts(&self) -> Parts<'_>
        ensures kind { result.kind ≡ kind_of (held self.now) }
        ensures length { result.length ≡ length_byte (held self.now) }
        ensures rest { length result.rest.now + 2 ≡ length (held self.now) }
    {
        let [kind, length, rest @ ..] = self.bytes() else {
            unreachable()
        };
        Parts {
            kind: *kind,
            length: *length,
            rest,
        }
    }

    // The frame's kind.
    pub fn kind(&self) -> u8
        ensures { result ≡ kind_of (held self.now) }
    {
        self.parts().kind
    }

    // A refusal, unless the frame carries a payload of this length.
    #[tactic(auto, using(crate::proofs::Assembly::whole))]
    pub fn expect(&self, payload: u8) -> Result<(), Fault>
        ensures refused { result_err result ≡ when (not (carries payload (held self.now))) PayloadLength }
        ensures len { OnOk result (length (held self.now) ≡ payload + 3) }
        ensures whole { OnOk result (held self.now ≡ framed (kind_of (held self.now)) (payload_of (held self.now))) }
    {
        let parts = self.parts();
        if parts.length == payload && parts.rest.len() == payload as usize + 1 {
            Ok(())
        } else {
            Err(Fault::PayloadLength)
        }
    }

    // The number in a field, the high byte first. By an index, since a field's place and width are data.
    pub fn number(&self, field: Field) -> u32
        requires { (1 ≤ field.byte) × ((field.byte + field.width ≤ length (held self.now) + 1) × (field.width ≤ 4)) }
        ensures value { result ≡ number_in (held self.now) field.byte field.width }
        ensures bound { result < 256 ^ field.width }
    {
        let bytes = self.bytes();
        let from = field.byte - 1;
        number_of(&bytes[from..from + field.width])
    }
}

// The number that some bytes spell, the high byte first.
#[tactic(auto, using(crate::proofs::Numbers::number_step, crate::proofs::Numbers::room))]
fn number_of(bytes: &[u8]) -> u32
    requires { length bytes.now ≤ 4 }
    ensures value { result ≡ number_from_digits 256 bytes.now }
    ensures bound { result < 256 ^ length bytes.now }
{
    let mut total = 0;
    for b in bytes {
        total = total * 256 + u32::from(*b);
    }
    total
}
