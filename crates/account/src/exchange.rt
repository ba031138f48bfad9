// One line: read, served and answered.
ghost use Rattle.std.specs.Prelude.{◌≡◌, length};
ghost use Rattle.std.specs.Result.{result_err};
ghost use Rattle.frame.specs.Tests.{buffer_test};
ghost use Rattle.account.specs.Change.{Leaves, after as left_after};
ghost use Rattle.account.specs.Reply.{Replies};
ghost use Rattle.account.specs.Runs.{exchanged, LawOnRuns};
ghost use Rattle.account.specs.Worked.{PostsWorked};

use crate::accounts::Accounts;
use book::Book;
use frame::LINE;
use reading::Fault;
use store::Store;

// The least length of an answer buffer.
pub const BUFFER: usize = LINE;

// Serves a line and writes its answer, or its refusal, at the front of a buffer of at least 128 bytes. Answers the length
// of what it wrote. Line and buffer are the caller's, lent apart: a struct of both would have no other use.
pub fn serve<B: Book, S: Store>(
    book: &B,
    store: &mut S,
    line: &[u8],
    answer: &mut [u8],
) -> Result<usize, Fault>
    ensures replies { Replies (B.Book.meaning book.now) (S.Store.meaning store.old) line.now answer.old answer.new result }
    ensures changes { Leaves (S.Store.meaning store.old) (left_after (B.Book.meaning book.now) (S.Store.meaning store.old) (length answer.old) line.now) (S.Store.meaning store.new) }
    ensures sums { LawOnRuns (B.Book.meaning book.now) (S.Store.meaning store.old) (exchanged line.now answer.old answer.new result) (S.Store.meaning store.new) }
    ensures worked { PostsWorked }
{
    check_buffer(answer)?;
    Accounts { book, store }.reply(line).write(answer)
}

// A refusal, where the answer buffer is too short.
fn check_buffer(buffer: &[u8]) -> Result<(), Fault>
    ensures { result_err result ≡ buffer_test (length buffer.now) }
{
    if buffer.len() < BUFFER {
        Err(Fault::Buffer)
    } else {
        Ok(())
    }
}
