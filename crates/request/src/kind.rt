// The kinds of request.
ghost use Rattle.std.specs.Prelude.{◌≡◌, not, is_some, IfOk, Some};
ghost use Rattle.std.specs.Option.{ok_or};
ghost use Rattle.std.specs.Result.{result_err};
ghost use Rattle.reading.specs.declared.fault.Fault.TheVariants.{Kind};
ghost use Rattle.reading.specs.First.{when};
ghost use Rattle.request.specs.Kinds.{request_kind, payload_length};

use reading::Fault;

#[derive(Clone, Copy, Debug, PartialEq, Eq)]
pub enum RequestKind {
    Post,
    Cancel,
    Correct,
    Close,
    Account,
}

// The kind that a byte names, or a refusal.
impl TryFrom<u8> for RequestKind {
    type Error = Fault;

    ghost try_from_gives = { λ byte made. made ≡ ok_or (request_kind byte) Kind };

    fn try_from(byte: u8) -> Result<RequestKind, Fault>
        ensures refused { result_err result ≡ when (not (is_some (request_kind byte))) Kind }
        ensures value { IfOk result (λ kind. request_kind byte ≡ Some kind) }
    {
        match byte {
            1 => Ok(RequestKind::Post),
            2 => Ok(RequestKind::Cancel),
            3 => Ok(RequestKind::Correct),
            4 => Ok(RequestKind::Close),
            5 => Ok(RequestKind::Account),
            _ => Err(Fault::Kind),
        }
    }
}

impl RequestKind {
    // How many bytes of payload a request of the kind carries.
    pub fn payload(self) -> u8
        ensures { result ≡ payload_length self }
    {
        match self {
            RequestKind::Post | RequestKind::Correct => 52,
            RequestKind::Cancel => 8,
            RequestKind::Close | RequestKind::Account => 6,
        }
    }
}
