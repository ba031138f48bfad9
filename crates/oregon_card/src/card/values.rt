// What a card says.
ghost use Rattle.std.specs.Prelude.{◌≡◌, slice_index};
ghost use Rattle.oregon_card.specs.Reply.{values};
ghost use Rattle.oregon_card.specs.Schedules.{place};

use crate::card::Card;
use crate::schedule::Schedule;

impl Card {
    // The cap on the low-income charge of a site month, in cents.
    pub fn cap(&self) -> u32
        ensures { result ≡ (values self.now).cap }
    {
        self.cap
    }

    // A schedule's supply rate, in thousandths of a cent per kWh.
    pub fn supply(&self, schedule: Schedule) -> u16
        ensures { result ≡ slice_index (values self.now).supply (place schedule) }
    {
        self.prices[schedule.place()].supply
    }

    // A schedule's low-income rate, in thousandths of a cent per kWh.
    pub fn low_income(&self, schedule: Schedule) -> u16
        ensures { result ≡ slice_index (values self.now).low_income (place schedule) }
    {
        self.prices[schedule.place()].low_income
    }
}
