// Oregon's book.
ghost use Rattle.std.specs.Prelude.{◌≡◌, ◌^◌, ◌≤◌};
ghost use Rattle.oregon_card.specs.Reply.{values};
ghost use Rattle.oregon.specs.Sheet.{exact as exact_on, metered as metered_on, oregon_sheet};
ghost use Rattle.oregon.specs.Laws.{keeps};

use crate::rates;
use crate::service::Service;
use book::{Book, CENT, Sense, half_up, rounded};
use oregon_card::Card;
use reading::{Fault, Reading};

// The sheets, with the values of a card.
#[derive(Clone, Copy)]
pub struct Oregon {
    pub card: Card,
}

impl Book for Oregon {
    ghost meaning = { λ book. oregon_sheet (values book.card) };

    ghost lawful = { λ book. keeps (values book.card) book.card.supply_fits book.card.low_income_fits };

    // Only line 3 is a credit, by this book's own sheet: a default in the trait would be a promise of every book.
    fn sense(&self, line: usize) -> Sense {
        if line == 3 {
            Sense::Credit
        } else {
            Sense::Charge
        }
    }

    fn check(&self, reading: &Reading) -> Result<(), Fault> {
        Service::of(reading)?;
        Ok(())
    }

    fn weight(&self, reading: &Reading, line: usize) -> u64 {
        match Service::of(reading) {
            Ok(service) => self.metered(&service, line),
            Err(_) => 0,
        }
    }

    fn settle(&self, sum: u64, line: usize) -> u64 {
        let cents = half_up(sum);
        if line == 12 {
            cents.min(u64::from(self.card.cap()))
        } else {
            cents
        }
    }
}

impl Oregon {
    // What a reading weighs on a statement line: lines 0 to 8 are rounded at the meter.
    fn metered(&self, service: &Service, line: usize) -> u64
        ensures { result ≡ metered_on (values self.now.card) service.now.schedule service.now.entry line }
    {
        let units = self.exact(service, line);
        if line < 9 { rounded(units) } else { units }
    }

    // What a reading costs on a statement line, in units, before it is rounded. Lines are numbers, by a rule of a book.
    fn exact(&self, service: &Service, line: usize) -> u64
        ensures value { result ≡ exact_on (values self.now.card) service.now.schedule service.now.entry line }
        ensures bound { result ≤ 10 ^ 18 }
    {
        match line {
            0 => u64::from(service.basic()) * CENT,
            1 => service.load_and_demand(),
            2 => service.energy(),
            3 => service.credit(),
            4 => service.reactive(),
            5 => service.transmission(),
            6 => service.by_kwh(rates::USAGE),
            7 => service.floor() * CENT,
            8 => service.per_kwh(self.card.supply(service.schedule), service.entry.kwh),
            9 => service.by_kwh(rates::SCHEDULE_203),
            10 => service.by_kwh(rates::SCHEDULE_204),
            11 => service.by_kwh(rates::SCHEDULE_207),
            12 => service.per_kwh(self.card.low_income(service.schedule), service.entry.kwh),
            _ => 0,
        }
    }
}
