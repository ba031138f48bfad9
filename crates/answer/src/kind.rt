// The kinds of answer. Each discriminant is the kind byte.
ghost use Rattle.std.specs.Prelude.{◌≡◌, not, is_some, IfOk, Some};
ghost use Rattle.std.specs.Option.{ok_or};
ghost use Rattle.std.specs.Result.{result_err};
ghost use Rattle.reading.specs.declared.fault.Fault.TheVariants.{Kind};
ghost use Rattle.reading.specs.First.{when};
ghost use Rattle.answer.specs.Kinds.{kind_byte, amounts_kind};

use reading::Fault;

// Those that carry amounts.
#[derive(Clone, Copy, Debug, PartialEq, Eq)]
pub enum AmountsKind {
    Post = 0x81,
    Cancel = 0x82,
    Correct = 0x83,
    Account = 0x85,
}

// Those that carry none.
#[derive(Clone, Copy, Debug, PartialEq, Eq)]
pub(crate) enum OtherKind {
    Refused = 0x7f,
    Closed = 0x84,
    CardAccepted = 0x90,
}

// The kind that a byte names, or a refusal.
impl TryFrom<u8> for AmountsKind {
    type Error = Fault;

    ghost try_from_gives = { λ byte made. made ≡ ok_or (amounts_kind byte) Kind };

    fn try_from(byte: u8) -> Result<AmountsKind, Fault>
        ensures refused { result_err result ≡ when (not (is_some (amounts_kind byte))) Kind }
        ensures value { IfOk result (λ kind. amounts_kind byte ≡ Some kind) }
    {
        match byte {
            0x81 => Ok(AmountsKind::Post),
            0x82 => Ok(AmountsKind::Cancel),
            0x83 => Ok(AmountsKind::Correct),
            0x85 => Ok(AmountsKind::Account),
            _ => Err(Fault::Kind),
        }
    }
}

// The kind byte.
impl From<AmountsKind> for u8 {
    ghost from_gives = { λ kind byte. byte ≡ kind_byte kind };

    fn from(kind: AmountsKind) -> u8
        ensures { result ≡ kind_byte kind }
    {
        kind as u8
    }
}
