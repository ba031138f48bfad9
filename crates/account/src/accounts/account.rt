// Account: what the readings of a site month come to.
ghost use Rattle.std.specs.Prelude.{◌≡◌};
ghost use Rattle.request.specs.Asked as asks;
ghost use Rattle.account.specs.Reply.{Responds};
ghost use Rattle.account.specs.Tests.{decided};

use crate::accounts::Accounts;
use crate::held::Held;
use answer::{AmountsKind, Answer};
use book::Book;
use reading::{Fault, SiteMonth};
use store::Store;

impl<B: Book, S: Store> Accounts<'_, B, S> {
    // The settlements of a site month.
    pub(super) fn account(&self, at: SiteMonth) -> Result<Answer, Fault>
        ensures { Responds (B.Book.meaning self.now.book.now) (S.Store.meaning self.now.store.now) (decided (B.Book.meaning self.now.book.now) (S.Store.meaning self.now.store.now) (asks.account at)) result (S.Store.meaning self.now.store.now) }
    {
        let held = Held::find(self.store, at);
        if held.kept.is_none() {
            return Err(Fault::NotHeld);
        }
        Ok(Answer::Amounts {
            kind: AmountsKind::Account,
            amounts: held.readings().settlements(self.book),
        })
    }
}
