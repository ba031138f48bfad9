// What is answered to a line.
ghost use Rattle.std.specs.Prelude.{◌≡◌};
ghost use Rattle.account.specs.Change.{Leaves, after as left_after};
ghost use Rattle.account.specs.Reply.{answer_of, Responds};
ghost use Rattle.account.specs.Tests.{verdict};

use crate::accounts::Accounts;
use answer::Answer;
use book::Book;
use reading::Fault;
use request::Request;
use store::Store;

impl<B: Book, S: Store> Accounts<'_, B, S> {
    // What is answered to a line, also a refusal.
    pub(crate) fn reply(&mut self, line: &[u8]) -> Answer
        ensures lent { self.new.store.ghost_name ≡ self.old.store.ghost_name }
        ensures value { result ≡ answer_of (B.Book.meaning self.old.book.now) (S.Store.meaning self.old.store.now).held (verdict (B.Book.meaning self.old.book.now) (S.Store.meaning self.old.store.now) 128 line.now) }
        ensures changes { Leaves (S.Store.meaning self.old.store.now) (left_after (B.Book.meaning self.old.book.now) (S.Store.meaning self.old.store.now) 128 line.now) (S.Store.meaning self.new.store.now) }
    {
        self.respond(line).unwrap_or_else(Answer::Refused)
    }

    // The answer to a line, or the fault that stops it.
    fn respond(&mut self, line: &[u8]) -> Result<Answer, Fault>
        ensures lent { self.new.store.ghost_name ≡ self.old.store.ghost_name }
        ensures responds { Responds (B.Book.meaning self.old.book.now) (S.Store.meaning self.old.store.now) (verdict (B.Book.meaning self.old.book.now) (S.Store.meaning self.old.store.now) 128 line.now) result (S.Store.meaning self.new.store.now) }
    {
        match Request::read(line)? {
            Request::Post { at, reading } => self.post(at, &reading),
            Request::Correct { at, reading } => self.correct(at, &reading),
            Request::Cancel { at, meter } => self.cancel(at, meter),
            Request::Close { at } => self.close(at),
            Request::Account { at } => self.account(at),
        }
    }
}
