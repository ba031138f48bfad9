// What a controller asks of the block.
ghost use Rattle.std.specs.Prelude.{◌≡◌, ◌+◌, length, IfOk, Some};
ghost use Rattle.std.specs.Result.{result_err};
ghost use Rattle.frame.specs.Held.{held};
ghost use Rattle.frame.specs.Line.{bytes_of};
ghost use Rattle.reading.specs.First.{first};
ghost use Rattle.request.specs.Asked.{asked, asked_in, requested};
ghost use Rattle.request.specs.Kinds.{payload_length};
ghost use Rattle.request.specs.Tests.{field_tests, request_tests};

use crate::fields::{self, ReadingFrame};
use crate::kind::RequestKind;
use frame::Frame;
use reading::{Fault, Reading, SiteMonth};

// A site month and a reading go different ways from here, so that no struct holds both.
#[derive(Clone, Copy, Debug, PartialEq, Eq)]
pub enum Request {
    Post { at: SiteMonth, reading: Reading },
    Correct { at: SiteMonth, reading: Reading },
    Cancel { at: SiteMonth, meter: u16 },
    Close { at: SiteMonth },
    Account { at: SiteMonth },
}

impl Request {
    // The request on a line, or the first refusal that fits the line.
    pub fn read(line: &[u8]) -> Result<Request, Fault>
        ensures refused { result_err result ≡ first (request_tests line.now) }
        ensures value { IfOk result (λ q. requested (bytes_of line.now) ≡ Some (asked q)) }
    {
        let frame = Frame::read(line)?;
        let kind = RequestKind::try_from(frame.kind())?;
        frame.expect(kind.payload())?;
        Request::of(kind, &frame)
    }

    // The request of a frame that carries its kind's payload.
    fn of(kind: RequestKind, frame: &Frame) -> Result<Request, Fault>
        requires { length (held frame.now) ≡ payload_length kind + 3 }
        ensures refused { result_err result ≡ first (field_tests (Some kind) (held frame.now)) }
        ensures value { IfOk result (λ q. asked q ≡ asked_in kind (held frame.now)) }
    {
        let at = fields::site_month(frame)?;
        match kind {
            RequestKind::Post => Ok(Request::Post {
                at,
                reading: ReadingFrame { frame }.reading()?,
            }),
            RequestKind::Correct => Ok(Request::Correct {
                at,
                reading: ReadingFrame { frame }.reading()?,
            }),
            RequestKind::Cancel => Ok(Request::Cancel {
                at,
                meter: fields::meter(frame),
            }),
            RequestKind::Close => Ok(Request::Close { at }),
            RequestKind::Account => Ok(Request::Account { at }),
        }
    }
}
