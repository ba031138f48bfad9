// Searching an image.
ghost use Rattle.store.specs.Table.{Found, Free, Room};
ghost use Rattle.slots.specs.Cuts.{table_of};

use crate::image::Image;
use reading::SiteMonth;

impl Image<'_> {
    // The slot that has the record of a site month.
    #[tactic(auto, using(slots::proofs::Places::found_from))]
    pub(crate) fn place(&self, at: SiteMonth) -> Option<usize>
        ensures { Found (table_of self.now.bytes.now) at result }
    {
        slots::place(self.bytes, 0, at)
    }

    // The first slot that is not in use.
    pub(crate) fn vacancy(&self) -> Option<usize>
        ensures { Free (table_of self.now.bytes.now) result }
    {
        slots::vacancy(self.bytes)
    }

    // The slot that the record of a site month is kept in: its own, else the first vacant.
    pub(crate) fn room(&self, at: SiteMonth) -> Option<usize>
        ensures { Room (table_of self.now.bytes.now) at result }
    {
        // A match: with `or_else` the proof does not close. It stands twice, as the calls of the two stores do.
        match self.place(at) {
            None => self.vacancy(),
            own => own,
        }
    }
}
