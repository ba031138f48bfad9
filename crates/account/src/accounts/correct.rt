// Correct: a reading is put in the place of its meter's.
ghost use Rattle.std.specs.Prelude.{◌≡◌};
ghost use Rattle.request.specs.Asked as asks;
ghost use Rattle.account.specs.Reply.{Responds};
ghost use Rattle.account.specs.Tests.{decided};

use crate::accounts::Accounts;
use answer::{AmountsKind, Answer};
use book::Book;
use reading::{Fault, Reading, SiteMonth};
use store::Store;

impl<B: Book, S: Store> Accounts<'_, B, S> {
    // Puts a reading in the place of its meter's.
    pub(super) fn correct(&mut self, at: SiteMonth, reading: &Reading) -> Result<Answer, Fault>
        ensures lent { self.new.store.ghost_name ≡ self.old.store.ghost_name }
        ensures responds { Responds (B.Book.meaning self.old.book.now) (S.Store.meaning self.old.store.now) (decided (B.Book.meaning self.old.book.now) (S.Store.meaning self.old.store.now) (asks.correct at reading.now.entry)) result (S.Store.meaning self.new.store.now) }
    {
        self.book.check(reading)?;
        self.edit(AmountsKind::Correct, at, |held| held.replacing(reading))
    }
}
