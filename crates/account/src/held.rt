// What is held under a site month.
ghost use Rattle.std.proofs.Props.{props};
ghost use Rattle.account.specs.Readings.{Of, found};

use reading::SiteMonth;
use record::Record;

mod edits;
mod parts;
mod stored;

// The record of a site month, or none.
#[derive(Clone, Copy)]
pub(crate) struct Held {
    pub(crate) at: SiteMonth,
    pub(crate) kept: Option<Record>,
    ghost own: { Of at (found kept) } by { Prim.hlevel props },
}
