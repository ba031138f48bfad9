// What a reading costs by a book, in cents.
ghost use Rattle.std.specs.Prelude.{◌≡◌, ◌^◌, ◌<◌, ◌≤◌, All, filter, map, sum_by, is_some, is_err, IfOk};
ghost use Rattle.std.specs.List.{range_with_len};
ghost use Rattle.reading.specs.Statement.{lines};
ghost use Rattle.reading.specs.Refusal.{layer_of};
ghost use Rattle.reading.specs.declared.fault.Layer.TheVariants as layer;
ghost use Rattle.bills.specs.Bill.{Billed, has_sense, item_of};

use crate::problem::Problem;
use book::{Book, Sense};
use reading::{Fault, LINES, Reading};
use std::array;

// A reading alone: each statement line, and what they come to.
#[derive(Clone, Copy)]
pub struct Bill {
    pub items: [Item; LINES],
    pub total: Total,
}

// A statement line.
#[derive(Clone, Copy)]
pub struct Item {
    pub sense: Sense,
    pub amount: u64,
}

#[derive(Clone, Copy)]
pub struct Total {
    pub charges: u64,
    pub credits: u64,
}

impl Bill {
    // The bill of a reading alone, unless the book refuses the reading.
    #[tactic(auto, using(crate::proofs::Sums::charges, crate::proofs::Sums::credits, crate::proofs::Sums::amount_at, crate::proofs::Sums::sense_at))]
    pub fn of<B: Book>(book: &B, reading: &Reading) -> Result<Bill, Problem>
        ensures refused { is_err result ≡ is_some ((B.Book.meaning book.now).check reading.now.entry) }
        ensures value { IfOk result (λ bill. Billed (B.Book.meaning book.now) reading.now.entry bill) }
    {
        book.check(reading).map_err(refusal)?;
        let items = items(book, reading);
        Ok(Bill {
            items,
            total: Total {
                charges: sum(&items, Sense::Charge),
                credits: sum(&items, Sense::Credit),
            },
        })
    }
}

// The problem that a book's refusal names. No From: that would owe a problem for every fault.
fn refusal(fault: Fault) -> Problem
    requires { layer_of fault ≡ layer.Book }
{
    match fault {
        Fault::Schedule => Problem::Lacking,
        Fault::Flag => Problem::NotOffered,
        _ => unreachable(),
    }
}

// The settlement of a reading alone on each statement line. By the laws of a book none is above 20 million dollars.
fn items<B: Book>(book: &B, reading: &Reading) -> [Item; LINES]
    ensures value { result ≡ map (item_of (B.Book.meaning book.now) reading.now.entry) (range_with_len 0 lines) }
    ensures most { All (λ item. item.amount ≤ 2000000000) result }
{
    array::from_fn(|line| Item {
        sense: book.sense(line),
        amount: book.settle(book.weight(reading, line), line),
    })
}

// What the items of a sense come to.
fn sum(items: &[Item], sense: Sense) -> u64
    requires { sum_by (λ item. item.amount) items.now < 2 ^ 64 }
    ensures { result ≡ sum_by (λ item. item.amount) (filter (has_sense sense) items.now) }
{
    items
        .iter()
        .filter(|item| item.sense == sense)
        .map(|item| item.amount)
        .sum()
}
