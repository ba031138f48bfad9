// Oregon's schedules.
ghost use Rattle.std.specs.Prelude.{◌≡◌, not, is_some, IfOk, Some};
ghost use Rattle.std.specs.Option.{ok_or};
ghost use Rattle.std.specs.Result.{result_err};
ghost use Rattle.reading.specs.declared.fault.Fault.TheVariants as fault;
ghost use Rattle.reading.specs.First.{when};
ghost use Rattle.oregon_card.specs.Schedules.{schedule_of, place as place_of, offers_voltage, offers_multi_family, unoffered as unoffered_on, check};

use reading::{Entry, Fault};

// In the order of the rate tables and of the card.
#[derive(Clone, Copy, Debug, PartialEq, Eq)]
pub enum Schedule {
    S4,
    S5,
    S23,
    S28,
    S29,
    S728,
    S730,
}

// The schedule of a number.
impl TryFrom<u16> for Schedule {
    type Error = Fault;

    ghost try_from_gives = { λ number result. result ≡ ok_or (schedule_of number) fault.Schedule };

    fn try_from(number: u16) -> Result<Schedule, Fault>
        ensures refused { result_err result ≡ when (not (is_some (schedule_of number))) fault.Schedule }
        ensures value { IfOk result (λ s. schedule_of number ≡ Some s) }
    {
        match number {
            4 => Ok(Schedule::S4),
            5 => Ok(Schedule::S5),
            23 => Ok(Schedule::S23),
            28 => Ok(Schedule::S28),
            29 => Ok(Schedule::S29),
            728 => Ok(Schedule::S728),
            730 => Ok(Schedule::S730),
            _ => Err(Fault::Schedule),
        }
    }
}

impl Schedule {
    // Its place in the rate tables.
    pub fn place(self) -> usize
        ensures { result ≡ place_of self }
    {
        self as usize
    }

    // Whether the flags for delivery and metering at primary voltage are offered.
    fn offers_voltage(self) -> bool
        ensures { result ≡ offers_voltage self }
    {
        matches!(
            self,
            Schedule::S23 | Schedule::S28 | Schedule::S728 | Schedule::S730
        )
    }

    // Whether the flag for multi-family service is offered.
    fn offers_multi_family(self) -> bool
        ensures { result ≡ offers_multi_family self }
    {
        matches!(self, Schedule::S4 | Schedule::S5)
    }

    // Whether a flag is set that the schedule does not offer.
    fn unoffered(self, entry: &Entry) -> bool
        ensures { result ≡ unoffered_on self entry.now }
    {
        let voltage = entry.primary_delivery() || entry.primary_metering();
        (voltage && !self.offers_voltage()) || (entry.multi_family() && !self.offers_multi_family())
    }

    // The schedule of an entry that the book serves. No TryFrom of an entry: a number has that, and here the flags are
    // asked too.
    pub fn serving(entry: &Entry) -> Result<Schedule, Fault>
        ensures refused { result_err result ≡ check entry.now }
        ensures value { IfOk result (λ s. schedule_of entry.now.schedule ≡ Some s) }
    {
        let schedule = Schedule::try_from(entry.schedule)?;
        if schedule.unoffered(entry) {
            return Err(Fault::Flag);
        }
        Ok(schedule)
    }
}
