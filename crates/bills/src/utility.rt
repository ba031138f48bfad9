// Whose book a reading is reckoned by.
ghost use Rattle.std.specs.Prelude.{◌≡◌, MatchResult};
ghost use Rattle.bills.specs.Name.{Nobody, name_of};

use crate::problem::Problem;
use reading::LINES;
use std::fmt;

#[derive(Clone, Copy, Debug, PartialEq, Eq)]
pub enum Utility {
    Oregon,
    Cooperative,
}

// The names of the statement lines from line 0 on. A utility has no line past them.
static OREGON: [&str; LINES] = [
    "basic charge",
    "load size and demand",
    "energy",
    "credit",
    "reactive power",
    "transmission",
    "system usage",
    "floor",
    "supply",
    "Schedule 203",
    "Schedule 204",
    "Schedule 207",
    "low-income",
];

static COOPERATIVE: [&str; 5] = [
    "basic charge",
    "demand",
    "energy",
    "off-hours credit",
    "power factor",
];

// The utility of a name.
impl TryFrom<&[u8]> for Utility {
    type Error = Problem;

    ghost try_from_gives = { λ name result. MatchResult result (λ utility. name.now ≡ name_of utility) (λ _. Nobody name.now) };

    fn try_from(name: &[u8]) -> Result<Utility, Problem>
        ensures { MatchResult result (λ utility. name.now ≡ name_of utility) (λ _. Nobody name.now) }
    {
        match name {
            b"oregon" => Ok(Utility::Oregon),
            b"cooperative" => Ok(Utility::Cooperative),
            _ => Err(Problem::UnknownBook),
        }
    }
}

impl Utility {
    pub fn line_names(self) -> &'static [&'static str] {
        match self {
            Utility::Oregon => &OREGON,
            Utility::Cooperative => &COOPERATIVE,
        }
    }
}

impl fmt::Display for Utility {
    fn fmt<W: fmt::Write>(&self, f: &mut fmt::Formatter<W>) -> fmt::Result {
        f.write_str(match self {
            Utility::Oregon => "oregon",
            Utility::Cooperative => "cooperative",
        })
    }
}
