// The interface of a book.
ghost use Rattle.std.specs.Prelude.{◌≡◌};
ghost use Rattle.std.specs.Result.{result_err};
ghost use Rattle.book.specs.Meaning.{Meaning, Lawful};

use crate::sense::Sense;
use reading::{Fault, Reading};

// What a book means is its ghost member, and what it keeps its law. Each call answers what the meaning says. Statement lines
// are numbers, by the rule that numbers them from 0.
pub trait Book {
    ghost meaning: { Self → Meaning };

    // Whether a statement line is a charge or a credit.
    fn sense(&self, line: usize) -> Sense
        ensures { result ≡ (meaning self.now).sense line };

    // A refusal, where the book lacks the schedule or does not offer a flag on it.
    fn check(&self, reading: &Reading) -> Result<(), Fault>
        ensures { result_err result ≡ (meaning self.now).check reading.now.entry };

    // The weight of a reading on a statement line, in units.
    fn weight(&self, reading: &Reading, line: usize) -> u64
        ensures { result ≡ (meaning self.now).weight reading.now.entry line };

    // The settlement of a sum of weights on a statement line, in whole cents.
    fn settle(&self, sum: u64, line: usize) -> u64
        ensures { result ≡ (meaning self.now).settle line sum };

    ghost lawful: { (book : Self) → Lawful (meaning book) };
}
