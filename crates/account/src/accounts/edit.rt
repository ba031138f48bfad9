// A site month with other readings, and what that comes to.
ghost use Rattle.std.specs.Prelude.{◌≡◌};
ghost use Rattle.std.specs.Fn.{FnOnceReturnsAt, FnOnceTakesAt};
ghost use Rattle.account.specs.Edits.{Edits};
ghost use Rattle.account.specs.declared.held.Held.{Held};

use crate::accounts::Accounts;
use crate::held::Held;
use crate::settle::differences;
use answer::{AmountsKind, Answer};
use book::Book;
use reading::{Fault, SiteMonth};
use store::Store;

impl<B: Book, S: Store> Accounts<'_, B, S> {
    // Edits what is held under a site month, where that is not closed, and states the difference that the edit makes.
    pub(super) fn edit<F: FnOnce(&Held) -> Result<Held, Fault>>(
        &mut self,
        kind: AmountsKind,
        at: SiteMonth,
        edit: F,
    ) -> Result<Answer, Fault>
        requires { (held : Held) → held.at ≡ at → FnOnceTakesAt F.FnOnce edit held }
        ensures lent { self.new.store.ghost_name ≡ self.old.store.ghost_name }
        ensures edits { Edits (FnOnceReturnsAt F.FnOnce edit) (B.Book.meaning self.old.book.now) (S.Store.meaning self.old.store.now) kind at result (S.Store.meaning self.new.store.now) }
    {
        let before = Held::find(self.store, at);
        before.check_open()?;
        let after = edit(&before)?;
        after.keep(self.store)?;
        Ok(Answer::Amounts {
            kind,
            amounts: differences(self.book, &before, &after),
        })
    }
}
