// Why an image cannot be taken into use.
ghost use Rattle.std.specs.Prelude.{◌≡◌};
ghost use Rattle.reading.specs.declared.fault.Fault.TheVariants.{Unusable};

use reading::Fault;
use std::fmt;

// Slots count from 0.
#[derive(Clone, Copy, Debug, PartialEq, Eq)]
pub enum Flaw {
    // The last slot is not whole.
    PartSlot,
    NoSlot,
    // There are more than 1,024 slots.
    TooManySlots,
    // The slot is neither empty nor what is written for a lawful record.
    Unlawful { slot: usize },
    // The slot's site month stands again in a later one.
    Twice { slot: usize, again: usize },
}

// The refusal that a flaw comes to.
impl From<Flaw> for Fault {
    ghost from_gives = { λ _ fault. fault ≡ Unusable };

    fn from(_: Flaw) -> Fault
        ensures { result ≡ Unusable }
    {
        Fault::Unusable
    }
}

impl fmt::Display for Flaw {
    ghost use Rattle.std.specs.Prelude.{Some};
    ghost use Rattle.slots.specs.Words.{words};

    ghost output = { λ flaw. Some (words flaw) };

    fn fmt<W: fmt::Write>(&self, f: &mut fmt::Formatter<W>) -> fmt::Result {
        match self {
            Flaw::PartSlot => f.write_str("the last slot is not whole"),
            Flaw::NoSlot => f.write_str("it has no slot"),
            Flaw::TooManySlots => f.write_str("it has more than 1024 slots"),
            Flaw::Unlawful { slot } => write!(
                f,
                "slot {slot} is neither empty nor a lawful record"
            ),
            Flaw::Twice { slot, again } => write!(
                f,
                "slots {slot} and {again} have the same site month"
            ),
        }
    }
}
