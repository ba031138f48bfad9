// The readings of a record, and what they come to.
ghost use Rattle.std.specs.Prelude.{◌≡◌, ◌*◌, ◌^◌, ◌≤◌, pos, sum_by};
ghost use Rattle.book.specs.Settled.{settled};
ghost use Rattle.account.specs.Readings.{Few};
ghost use Rattle.account.specs.Reply.{settlements as settlements_of};

use book::Book;
use reading::{Entry, LINES, Reading};
use std::array;

// One amount for each statement line, in whole cents.
pub(crate) type Amounts = [i32; LINES];

// At most sixteen lawful readings.
#[derive(Clone, Copy)]
pub(crate) struct Readings<'a> {
    pub(crate) entries: &'a [Entry],
    ghost few: { Few entries.now },
}

impl Readings<'_> {
    // The sum of their weights on a statement line: a loop, as the project's rules have it.
    fn weight<B: Book>(&self, book: &B, line: usize) -> u64
        ensures value { result ≡ sum_by (λ e. (B.Book.meaning book.now).weight e line) self.now.entries.now }
        ensures bound { result ≤ 16 * 10 ^ 15 }
    {
        let mut sum = 0;
        for entry in self.entries {
            let Ok(reading) = Reading::try_from(*entry) else {
                unreachable()
            };
            sum += book.weight(&reading, line);
        }
        sum
    }

    // What they settle to on a statement line. By the laws of a book that is not above 20 million dollars.
    fn settlement<B: Book>(&self, book: &B, line: usize) -> i32
        ensures { result ≡ pos (settled (B.Book.meaning book.now) self.now.entries.now line) }
    {
        book.settle(self.weight(book, line), line) as i32
    }

    // Their settlement on each statement line.
    pub(crate) fn settlements<B: Book>(&self, book: &B) -> Amounts
        ensures { result ≡ settlements_of (B.Book.meaning book.now) self.now.entries.now }
    {
        array::from_fn(|line| self.settlement(book, line))
    }
}
