// Post: a reading is added to its site month.
ghost use Rattle.std.specs.Prelude.{◌≡◌, ◌≤◌};
ghost use Rattle.request.specs.Asked as asks;
ghost use Rattle.account.specs.Reply.{Responds};
ghost use Rattle.account.specs.Tests.{decided};

use crate::accounts::Accounts;
use answer::{AmountsKind, Answer};
use book::Book;
use reading::{Fault, Reading, SiteMonth};
use store::Store;

impl<B: Book, S: Store> Accounts<'_, B, S> {
    // Adds a reading to its site month, which it opens if that is not held.
    pub(super) fn post(&mut self, at: SiteMonth, reading: &Reading) -> Result<Answer, Fault>
        requires { at.month ≤ 2399 }
        ensures lent { self.new.store.ghost_name ≡ self.old.store.ghost_name }
        ensures responds { Responds (B.Book.meaning self.old.book.now) (S.Store.meaning self.old.store.now) (decided (B.Book.meaning self.old.book.now) (S.Store.meaning self.old.store.now) (asks.post at reading.now.entry)) result (S.Store.meaning self.new.store.now) }
    {
        self.book.check(reading)?;
        self.edit(AmountsKind::Post, at, |held| held.adding(reading))
    }
}
