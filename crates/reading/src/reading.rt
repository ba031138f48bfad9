// A meter reading within its limits.
ghost use Rattle.std.specs.Prelude.{◌≡◌, true, false, MatchResult};
ghost use Rattle.reading.specs.Limits.{lawful, Limits};

use crate::entry::Entry;
use crate::limits::{MOST_DEMAND, MOST_FLAGS, MOST_KVAR, MOST_KWH, MOST_LOAD, MOST_POWER_FACTOR};

// An entry that keeps the limits of a reading. Nothing but a check makes one.
#[derive(Clone, Copy, Debug, PartialEq, Eq)]
pub struct Reading {
    entry: Entry,
    ghost within: { lawful entry ≡ true },
}

// Plain data that breaks a rule of what was to be made of it.
#[derive(Clone, Copy, Debug, PartialEq, Eq)]
pub struct Unlawful;

// The entry as a reading, unless it breaks a limit.
impl TryFrom<Entry> for Reading {
    ghost use Rattle.reading.specs.Checked.{Checked};

    type Error = Unlawful;

    ghost try_from_gives = { Checked };

    fn try_from(entry: Entry) -> Result<Reading, Unlawful>
        ensures cases { MatchResult result (λ x. x.entry ≡ entry) (λ _. lawful entry ≡ false) }
    {
        if entry.flags <= MOST_FLAGS
            && entry.kwh <= MOST_KWH
            && entry.demand <= MOST_DEMAND
            && entry.peak_demand <= MOST_DEMAND
            && entry.kvar <= MOST_KVAR
            && entry.power_factor <= MOST_POWER_FACTOR
            && entry.load <= MOST_LOAD
            && entry.off_hours <= entry.kwh
            && entry.peak_demand <= entry.demand
        {
            Ok(Reading { entry })
        } else {
            Err(Unlawful)
        }
    }
}

impl Reading {
    // The entry that the reading was made from.
    pub fn entry(&self) -> Entry
        ensures value { result ≡ self.now.entry }
        ensures within { lawful result ≡ true }
        ensures limits { Limits result }
    {
        self.entry
    }
}
