// The header of a slot: the state, the count of readings and the site month.
ghost use Rattle.std.specs.Prelude.{◌≡◌, ◌<◌, ◌≤◌, MatchOption};
ghost use Rattle.slot.specs.Layout.{state_byte, header_bytes};
ghost use Rattle.slot.specs.Reading.{two_at, four_at, state_in, head_in};

use reading::SiteMonth;
use record::{Row, State};

// How many bytes the header takes.
pub(crate) const HEADER: usize = 8;

// The state bytes.
const EMPTY: u8 = 0;

const OPEN: u8 = 1;

const CLOSED: u8 = 2;

// The site month of a slot in use, from its first eight bytes.
pub fn head(slot: &[u8]) -> Option<SiteMonth>
    ensures value { result ≡ head_in slot.now }
{
    let [state, _, a, b, c, d, e, f, ..] = slot else {
        return None;
    };
    if *state == EMPTY {
        return None;
    }
    Some(site_month([*a, *b, *c, *d, *e, *f]))
}

// The site month in its bytes.
pub(crate) fn site_month(bytes: [u8; 6]) -> SiteMonth
    ensures site { result.site ≡ four_at bytes 0 }
    ensures month { result.month ≡ two_at bytes 4 }
{
    let [a, b, c, d, e, f] = bytes;
    SiteMonth {
        site: u32::from_be_bytes([a, b, c, d]),
        month: u16::from_be_bytes([e, f]),
    }
}

// The bytes of the header.
pub(crate) fn header_bytes(row: &Row) -> [u8; HEADER]
    requires { row.now.count ≤ 16 }
    ensures { result ≡ header_bytes row.now }
{
    let [a, b, c, d] = row.at.site.to_be_bytes();
    let [e, f] = row.at.month.to_be_bytes();
    [state_byte(row.state), row.count as u8, a, b, c, d, e, f]
}

// The state's byte. Neither type is of this crate, so this and its inverse can't be a From and a TryFrom; a type of its own
// for the byte is no plainer.
fn state_byte(state: State) -> u8
    ensures { result ≡ state_byte state }
{
    match state {
        State::Empty => EMPTY,
        State::Open => OPEN,
        State::Closed => CLOSED,
    }
}

// The state that a byte is, if it is one.
pub(crate) fn state_in(byte: u8) -> Option<State>
    ensures { MatchOption result (2 < byte) (λ state. (byte ≤ 2) × (state ≡ state_in byte)) }
{
    match byte {
        EMPTY => Some(State::Empty),
        OPEN => Some(State::Open),
        CLOSED => Some(State::Closed),
        _ => None,
    }
}
