// The most that a field may hold.
ghost use Rattle.std.specs.Prelude.{◌≡◌, true, length};
ghost use Rattle.std.specs.Result.{result_err};
ghost use Rattle.frame.specs.Held.{held};
ghost use Rattle.request.specs.Tests.{limit_test, inside};

use frame::{Field, Frame};
use reading::Fault;

#[derive(Clone, Copy)]
pub struct Limit {
    pub field: Field,
    pub most: u32,
}

// A refusal where a field of the frame is above its limit, at the first such.
#[tactic(auto, using(crate::proofs::Limits::inside_at))]
pub(crate) fn check_limits(frame: &Frame, limits: &[Limit]) -> Result<(), Fault>
    requires { inside (length (held frame.now)) limits.now ≡ true }
    ensures { result_err result ≡ limit_test limits.now (held frame.now) }
{
    for limit in limits {
        if frame.number(limit.field) > limit.most {
            return Err(Fault::Limit {
                byte: limit.field.byte as u16,
            });
        }
    }
    Ok(())
}
