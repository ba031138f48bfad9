// Cancel: a meter's reading is taken out.
ghost use Rattle.std.specs.Prelude.{◌≡◌};
ghost use Rattle.request.specs.Asked as asks;
ghost use Rattle.account.specs.Reply.{Responds};
ghost use Rattle.account.specs.Tests.{decided};

use crate::accounts::Accounts;
use answer::{AmountsKind, Answer};
use book::Book;
use reading::{Fault, SiteMonth};
use store::Store;

impl<B: Book, S: Store> Accounts<'_, B, S> {
    // Takes a meter's reading out, and the record with its last.
    pub(super) fn cancel(&mut self, at: SiteMonth, meter: u16) -> Result<Answer, Fault>
        ensures lent { self.new.store.ghost_name ≡ self.old.store.ghost_name }
        ensures responds { Responds (B.Book.meaning self.old.book.now) (S.Store.meaning self.old.store.now) (decided (B.Book.meaning self.old.book.now) (S.Store.meaning self.old.store.now) (asks.cancel at meter)) result (S.Store.meaning self.new.store.now) }
    {
        self.edit(AmountsKind::Cancel, at, |held| held.without(meter))
    }
}
