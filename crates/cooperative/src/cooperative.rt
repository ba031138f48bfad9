// The cooperative's industrial schedule.
ghost use Rattle.std.specs.Prelude.{◌≡◌, ◌^◌, ◌≤◌};
ghost use Rattle.cooperative.specs.Schedule.{cooperative as sheet, exact as exact_on, power_factor};
ghost use Rattle.cooperative.specs.Laws.{keeps};

use book::{Book, CENT, Sense, half_up, rounded};
use reading::{Fault, Reading};

const SCHEDULE: u16 = 5;
// In cents.
const BASIC: u64 = 22_000;
// In cents per kW.
const DEMAND: u64 = 625;
// The first kWh, at the lower rate.
const BLOCK: u32 = 75_000;
// In thousandths of a cent per kWh.
const ENERGY: u64 = 3_520;

const ENERGY_PAST: u64 = 4_320;

const OFF_HOURS: u64 = 520;
// In percent.
const FULL_FACTOR: u8 = 97;

// The book has no values of its own: its rates stand in its schedule.
#[derive(Clone, Copy)]
pub struct Cooperative;

impl Book for Cooperative {
    ghost meaning = { λ _. sheet };

    ghost lawful = { λ book. keeps };

    // Only line 3 is a credit, by this book's own sheet: a default in the trait would be a promise of every book.
    fn sense(&self, line: usize) -> Sense {
        if line == 3 {
            Sense::Credit
        } else {
            Sense::Charge
        }
    }

    fn check(&self, reading: &Reading) -> Result<(), Fault> {
        let entry = reading.entry();
        if entry.schedule != SCHEDULE {
            return Err(Fault::Schedule);
        }
        if entry.flags != 0 {
            return Err(Fault::Flag);
        }
        Ok(())
    }

    fn weight(&self, reading: &Reading, line: usize) -> u64 {
        match self.check(reading) {
            Ok(()) => rounded(exact(reading, line)),
            Err(_) => 0,
        }
    }

    fn settle(&self, sum: u64, _line: usize) -> u64 {
        half_up(sum)
    }
}

// What a reading costs on a statement line, in units, before it is rounded. Lines are numbers, by a rule of a book.
fn exact(reading: &Reading, line: usize) -> u64
    ensures value { result ≡ exact_on reading.now.entry line }
    ensures bound { result ≤ 10 ^ 15 }
{
    let entry = reading.entry();
    match line {
        0 => BASIC * CENT,
        1 => DEMAND * u64::from(entry.peak_demand) * 1_000_000,
        2 => {
            let first = entry.kwh.min(BLOCK);
            let past = entry.kwh.saturating_sub(BLOCK);
            (ENERGY * u64::from(first) + ENERGY_PAST * u64::from(past)) * 10_000
        }
        3 => OFF_HOURS * u64::from(entry.off_hours) * 10_000,
        4 => power_factor(reading),
        _ => 0,
    }
}

// What is missing to 97 percent, for each kW of demand.
fn power_factor(reading: &Reading) -> u64
    ensures value { result ≡ power_factor reading.now.entry }
    ensures bound { result ≤ 10 ^ 15 }
{
    let entry = reading.entry();
    let missing = FULL_FACTOR.saturating_sub(entry.power_factor);
    u64::from(missing) * (DEMAND * u64::from(entry.demand)) * 10_000
}
