// Searching rows.
ghost use Rattle.std.specs.Prelude.{◌≡◌, not, position};
ghost use Rattle.std.specs.Option.{option_or};
ghost use Rattle.record.specs.Rows.{keyed};
ghost use Rattle.record.specs.States.{used};

use crate::rows::Rows;
use reading::SiteMonth;

impl Rows<'_> {
    // The row that has the record of a site month.
    pub(crate) fn position(&self, at: SiteMonth) -> Option<usize>
        ensures { result ≡ position (keyed at) self.now.rows.now }
    {
        self.rows.iter().position(|row| row.is_of(at))
    }

    // The first row that is vacant.
    pub(crate) fn vacancy(&self) -> Option<usize>
        ensures { result ≡ position (λ row. not (used row.state)) self.now.rows.now }
    {
        self.rows.iter().position(|row| !row.state.is_used())
    }

    // The row that the record of a site month is kept in: its own, else the first vacant.
    pub(crate) fn room(&self, at: SiteMonth) -> Option<usize>
        ensures { result ≡ option_or (position (keyed at) self.now.rows.now) (position (λ row. not (used row.state)) self.now.rows.now) }
    {
        // A match: with `or_else` the proof does not close. It stands twice, as the calls of the two stores do.
        match self.position(at) {
            None => self.vacancy(),
            own => own,
        }
    }
}
