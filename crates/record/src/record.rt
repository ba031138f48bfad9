// A record that keeps its rules.
ghost use Rattle.std.specs.Prelude.{◌≡◌, true};
ghost use Rattle.record.specs.Rows.{lawful_row};

use crate::row::Row;

mod check;
mod edit;
mod parts;

// A row with a month within its limit and 1 to 16 lawful readings in rising meter order, whose unused entries are zero.
// Nothing but a check or an edit of a record makes one.
#[derive(Clone, Copy, Debug, PartialEq, Eq)]
pub struct Record {
    row: Row,
    ghost lawful: { lawful_row row ≡ true },
}
