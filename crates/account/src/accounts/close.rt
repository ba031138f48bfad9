// Close: a record takes no more changes.
ghost use Rattle.std.specs.Prelude.{◌≡◌};
ghost use Rattle.request.specs.Asked as asks;
ghost use Rattle.book.specs.Meaning.{Meaning};
ghost use Rattle.account.specs.Reply.{Responds};
ghost use Rattle.account.specs.Tests.{decided};

use crate::accounts::Accounts;
use crate::held::Held;
use answer::Answer;
use book::Book;
use reading::{Fault, SiteMonth};
use store::Store;

impl<B: Book, S: Store> Accounts<'_, B, S> {
    // Closes the record of a site month. The book is not asked, so the answer is the same under every one.
    pub(super) fn close(&mut self, at: SiteMonth) -> Result<Answer, Fault>
        ensures lent { self.new.store.ghost_name ≡ self.old.store.ghost_name }
        ensures responds { (b : Meaning) → Responds b (S.Store.meaning self.old.store.now) (decided b (S.Store.meaning self.old.store.now) (asks.close at)) result (S.Store.meaning self.new.store.now) }
    {
        let closed = Held::find(self.store, at).closed()?;
        self.store.keep(&closed)?;
        Ok(Answer::Closed)
    }
}
