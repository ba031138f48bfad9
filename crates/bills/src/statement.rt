// A statement for a person to read.
use crate::bill::{Bill, Item, Total};
use crate::utility::Utility;
use reading::Entry;
use std::fmt;
use std::fmt::InlineText;

#[derive(Clone, Copy)]
pub struct Statement {
    // The input line that it answers.
    pub number: u64,
    pub utility: Utility,
    pub entry: Entry,
    pub bill: Bill,
}

// Cents, printed as dollars.
#[derive(Clone, Copy)]
struct Dollars(i128);

impl fmt::Display for Statement {
    fn fmt<W: fmt::Write>(&self, f: &mut fmt::Formatter<W>) -> fmt::Result {
        let number = self.number;
        let utility = self.utility;
        let schedule = self.entry.schedule;
        let kwh = self.entry.kwh;
        writeln!(f, "line {number}: {utility} schedule {schedule}, {kwh} kWh")?;
        let names = utility.line_names().iter();
        for (line, (name, item)) in names.zip(&self.bill.items).enumerate() {
            let Item { sense, amount } = *item;
            let amount = Dollars(amount.into());
            writeln!(f, "{line:>2}  {name:<20}  {sense}  {amount:>12}")?;
        }
        let Total { charges, credits } = self.bill.total;
        let owed = Dollars(i128::from(charges) - i128::from(credits));
        writeln!(f, "    {:<28}  {owed:>12}", "total")
    }
}

impl fmt::Display for Dollars {
    fn fmt<W: fmt::Write>(&self, f: &mut fmt::Formatter<W>) -> fmt::Result {
        let sign = if self.0 < 0 { "-" } else { "" };
        let cents = self.0.unsigned_abs();
        let dollars = cents / 100;
        let cents = cents % 100;
        let text: InlineText<24> = InlineText::of(format_args!("{sign}{dollars}.{cents:02}"));
        f.pad(text.as_str())
    }
}
