// A reading from the ten fields of a line.
ghost use Rattle.std.specs.Prelude.{◌≡◌, ◌<◌, ◌≤◌, true, IfOk, MatchResult};
ghost use Rattle.std.specs.Result.{result_ok};
ghost use Rattle.reading.specs.Limits.{lawful};
ghost use Rattle.line_buffer.specs.Received.{received};
ghost use Rattle.bills.specs.Entered.{Entered};
ghost use Rattle.bills.specs.Number.{number_in};

use crate::line::{FIELDS, Line};
use crate::number::number;
use crate::problem::{Field, Problem};
use crate::utility::Utility;
use line_buffer::LineBuffer;
use reading::{
    Entry, MOST_DEMAND, MOST_FLAGS, MOST_KVAR, MOST_KWH, MOST_LOAD, MOST_POWER_FACTOR, Reading,
};

// What a line asks for: the bill of a reading by a utility's book.
#[derive(Clone, Copy)]
pub struct Asked {
    pub utility: Utility,
    pub reading: Reading,
}

// The numbers on a line as they are written: no limit is known to hold.
#[derive(Clone, Copy)]
struct Numbers {
    schedule: u64,
    flags: u64,
    kwh: u64,
    off_hours: u64,
    demand: u64,
    peak_demand: u64,
    kvar: u64,
    power_factor: u64,
    load: u64,
}

impl Asked {
    pub fn read(line: &Line) -> Result<Asked, Problem> {
        let fields = line.fields().ok_or(Problem::NotTen)?;
        let utility = Utility::try_from(fields[0].line())?;
        let entry = Numbers::read(fields)?.entry()?;
        let Ok(reading) = Reading::try_from(entry) else {
            unreachable()
        };
        Ok(Asked { utility, reading })
    }
}

impl Numbers {
    // The numbers from left to right, the first field being a name.
    fn read(fields: &[LineBuffer; FIELDS]) -> Result<Numbers, Problem> {
        let [
            _,
            schedule,
            flags,
            kwh,
            off_hours,
            demand,
            peak_demand,
            kvar,
            power_factor,
            load,
        ] = fields;
        Ok(Numbers {
            schedule: number_of(schedule, Field::Schedule)?,
            flags: number_of(flags, Field::Flags)?,
            kwh: number_of(kwh, Field::Kwh)?,
            off_hours: number_of(off_hours, Field::OffHours)?,
            demand: number_of(demand, Field::Demand)?,
            peak_demand: number_of(peak_demand, Field::PeakDemand)?,
            kvar: number_of(kvar, Field::Kvar)?,
            power_factor: number_of(power_factor, Field::PowerFactor)?,
            load: number_of(load, Field::LoadSize)?,
        })
    }

    // The entry of a reading within its limits. Its meter is 0, since the meter changes no amount. No TryFrom: it is used
    // once, and the member would repeat its clauses.
    fn entry(&self) -> Result<Entry, Problem>
        ensures within { IfOk result (λ e. lawful e ≡ true) }
        ensures value { IfOk result (λ e. Entered self.now e) }
    {
        let schedule = within(self.schedule, u16::MAX.into(), Field::Schedule)?;
        let flags = within(self.flags, MOST_FLAGS.into(), Field::Flags)?;
        let kwh = within(self.kwh, MOST_KWH.into(), Field::Kwh)?;
        let demand = within(self.demand, MOST_DEMAND.into(), Field::Demand)?;
        let peak_demand = within(self.peak_demand, MOST_DEMAND.into(), Field::PeakDemand)?;
        let kvar = within(self.kvar, MOST_KVAR.into(), Field::Kvar)?;
        let power_factor = within(
            self.power_factor,
            MOST_POWER_FACTOR.into(),
            Field::PowerFactor,
        )?;
        let load = within(self.load, MOST_LOAD.into(), Field::LoadSize)?;
        if self.off_hours > kwh {
            return Err(Problem::AboveKwh);
        }
        if peak_demand > demand {
            return Err(Problem::AboveDemand);
        }
        // A cast loses nothing of a number within its limit.
        Ok(Entry {
            meter: 0,
            schedule: schedule as u16,
            flags: flags as u8,
            power_factor: power_factor as u8,
            kwh: kwh as u32,
            off_hours: self.off_hours as u32,
            demand: demand as u32,
            peak_demand: peak_demand as u32,
            kvar: kvar as u16,
            load: load as u16,
        })
    }
}

fn number_of(text: &LineBuffer, field: Field) -> Result<u64, Problem>
    ensures { result_ok result ≡ number_in (received text.now) }
{
    number(text.line()).ok_or(Problem::NotANumber(field))
}

fn within(value: u64, limit: u64, field: Field) -> Result<u64, Problem>
    ensures { MatchResult result (λ v. (v ≡ value) × (v ≤ limit)) (λ _. limit < value) }
{
    if value > limit {
        return Err(Problem::Above { field, limit });
    }
    Ok(value)
}
