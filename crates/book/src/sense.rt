// Whether a statement line adds to a bill or takes from it.
use std::fmt;

#[derive(Clone, Copy, Debug, PartialEq, Eq)]
pub enum Sense {
    Charge,
    Credit,
}

impl fmt::Display for Sense {
    ghost use Rattle.std.specs.Prelude.{Some};
    ghost use Rattle.book.specs.Words.{word};

    ghost output = { λ sense. Some (word sense) };

    fn fmt<W: fmt::Write>(&self, f: &mut fmt::Formatter<W>) -> fmt::Result {
        f.write_str(match self {
            Sense::Charge => "charge",
            Sense::Credit => "credit",
        })
    }
}
