// One line, served under Oregon's book.
ghost use Rattle.std.specs.Prelude.{length};
ghost use Rattle.account.specs.Change.{Leaves, after as left_after};
ghost use Rattle.account.specs.Reply.{Replies};
ghost use Rattle.account.specs.Runs.{exchanged, LawOnRuns};
ghost use Rattle.oregon.specs.Sheet.{oregon_sheet};
ghost use Rattle.oregon_card.specs.Reply.{values};
ghost use Rattle.oregon_account.specs.LowIncome.{LowIncomeOnRuns};
ghost use Rattle.oregon_account.specs.Worked.{MonthWorked};

use account::serve;
use oregon::Oregon;
use reading::Fault;
use store::Store;

// Serves a line and writes its answer, or its refusal, at the front of a buffer of at least 128 bytes. Answers the length
// of what it wrote. Line and buffer stand apart, as in `account`.
pub fn serve_oregon<S: Store>(
    book: &Oregon,
    store: &mut S,
    line: &[u8],
    answer: &mut [u8],
) -> Result<usize, Fault>
    ensures replies { Replies (oregon_sheet (values book.now.card)) (S.Store.meaning store.old) line.now answer.old answer.new result }
    ensures changes { Leaves (S.Store.meaning store.old) (left_after (oregon_sheet (values book.now.card)) (S.Store.meaning store.old) (length answer.old) line.now) (S.Store.meaning store.new) }
    ensures sums { LawOnRuns (oregon_sheet (values book.now.card)) (S.Store.meaning store.old) (exchanged line.now answer.old answer.new result) (S.Store.meaning store.new) }
    ensures low_income { LowIncomeOnRuns (values book.now.card) (S.Store.meaning store.old) (exchanged line.now answer.old answer.new result) (S.Store.meaning store.new) }
    ensures worked { MonthWorked }
{
    serve(book, store, line, answer)
}
