// What a change of readings comes to.
ghost use Rattle.std.specs.Prelude.{◌≡◌};
ghost use Rattle.account.specs.Readings.{found, readings_of};
ghost use Rattle.account.specs.Reply.{differences as differences_between};

use crate::held::Held;
use crate::readings::Amounts;
use book::Book;
use std::array;

// What is settled after a change less what was settled before it, line by line.
pub(crate) fn differences<B: Book>(book: &B, before: &Held, after: &Held) -> Amounts
    ensures { result ≡ differences_between (B.Book.meaning book.now) (readings_of (found before.now.kept)) (readings_of (found after.now.kept)) }
{
    let settled_before = before.readings().settlements(book);
    let settled_after = after.readings().settlements(book);
    array::from_fn(|line| settled_after[line] - settled_before[line])
}
