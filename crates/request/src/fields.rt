// The fields of a request's frame.
ghost use Rattle.std.specs.Prelude.{◌≡◌, ◌+◌, ◌*◌, ◌<◌, ◌≤◌, [], ◌∷◌, length, None, IfOk};
ghost use Rattle.std.specs.Result.{result_err};
ghost use Rattle.frame.specs.Held.{held};
ghost use Rattle.frame.specs.Seal.{field};
ghost use Rattle.reading.specs.First.{or_else};
ghost use Rattle.request.specs.Fields.{site_month_in, meter_in, earlier_in, entry_in, earlier_limits, month_limit, reading_limits};
ghost use Rattle.request.specs.Tests.{limit_test, excess_test};

use crate::limit::{Limit, check_limits};
use frame::{Field, Frame};
use reading::{
    Entry, Fault, LAST_MONTH, MOST_DEMAND, MOST_FLAGS, MOST_KVAR, MOST_KWH, MOST_POWER_FACTOR,
    Reading, SiteMonth, load_size, nearest_kw,
};
use std::array;

const SITE: Field = Field { byte: 3, width: 4 };

const MONTH: Field = Field { byte: 7, width: 2 };

const METER: Field = Field { byte: 9, width: 2 };

const SCHEDULE: Field = Field { byte: 11, width: 2 };

const FLAGS: Field = Field { byte: 13, width: 1 };

const KWH: Field = Field { byte: 14, width: 4 };

const OFF_HOURS: Field = Field { byte: 18, width: 4 };

const DEMAND: Field = Field { byte: 22, width: 4 };

const PEAK_DEMAND: Field = Field { byte: 26, width: 4 };

const KVAR: Field = Field { byte: 30, width: 2 };

const POWER_FACTOR: Field = Field { byte: 32, width: 1 };

const MONTH_LIMIT: Limit = Limit {
    field: MONTH,
    most: LAST_MONTH as u32,
};

// Those of a reading but for the month and the earlier demands, in the order of their bytes.
const READING_LIMITS: [Limit; 6] = [
    Limit {
        field: FLAGS,
        most: MOST_FLAGS as u32,
    },
    Limit {
        field: KWH,
        most: MOST_KWH,
    },
    Limit {
        field: DEMAND,
        most: MOST_DEMAND,
    },
    Limit {
        field: PEAK_DEMAND,
        most: MOST_DEMAND,
    },
    Limit {
        field: KVAR,
        most: MOST_KVAR as u32,
    },
    Limit {
        field: POWER_FACTOR,
        most: MOST_POWER_FACTOR as u32,
    },
];

// The most that an earlier demand may be, in kW.
const MOST_EARLIER: u32 = 9_999;

// The demand of an earlier month, counted from 0. These are a reading's last fields.
fn earlier_demand(i: usize) -> Field
    requires { i < 11 }
    ensures { result ≡ record { byte = 33 + 2 * i; width = 2 } }
{
    Field {
        byte: 33 + 2 * i,
        width: 2,
    }
}

// The limits of the earlier demands.
fn earlier_limits() -> [Limit; 11]
    ensures { result ≡ earlier_limits }
{
    array::from_fn(|i| Limit {
        field: earlier_demand(i),
        most: MOST_EARLIER,
    })
}

// The site and the month, or a refusal where the month is above its limit.
pub(crate) fn site_month(frame: &Frame) -> Result<SiteMonth, Fault>
    requires { 8 ≤ length (held frame.now) }
    ensures refused { result_err result ≡ limit_test (month_limit ∷ []) (held frame.now) }
    ensures value { IfOk result (λ at. at ≡ site_month_in (held frame.now)) }
{
    check_limits(frame, &[MONTH_LIMIT])?;
    Ok(SiteMonth {
        site: frame.number(SITE),
        month: frame.number(MONTH) as u16,
    })
}

// The meter.
pub(crate) fn meter(frame: &Frame) -> u16
    requires { 10 ≤ length (held frame.now) }
    ensures { result ≡ meter_in (held frame.now) }
{
    frame.number(METER) as u16
}

// A frame that carries a reading, and whose month is within its limit.
#[derive(Clone, Copy)]
pub(crate) struct ReadingFrame<'a> {
    pub(crate) frame: &'a Frame,
    ghost whole: { length (held frame.now) ≡ 55 },
    ghost month: { limit_test (month_limit ∷ []) (held frame.now) ≡ None },
}

impl<'a> ReadingFrame<'a> {
    // The demands of the eleven earlier months.
    fn earlier(&self) -> [u16; 11]
        ensures { result ≡ earlier_in (held self.now.frame.now) }
    {
        array::from_fn(|i| self.frame.number(earlier_demand(i)) as u16)
    }

    // The reading as plain data.
    fn entry(&self) -> Entry
        requires { field (held self.now.frame.now) 22 4 ≤ 99999 }
        ensures { result ≡ entry_in (held self.now.frame.now) }
    {
        let frame = self.frame;
        let demand = frame.number(DEMAND);
        let load = load_size(nearest_kw(demand) as u16, &self.earlier());
        Entry {
            meter: meter(frame),
            schedule: frame.number(SCHEDULE) as u16,
            flags: frame.number(FLAGS) as u8,
            power_factor: frame.number(POWER_FACTOR) as u8,
            kwh: frame.number(KWH),
            off_hours: frame.number(OFF_HOURS),
            demand,
            peak_demand: frame.number(PEAK_DEMAND),
            kvar: frame.number(KVAR) as u16,
            load,
        }
    }

    // A refusal where a field is above its limit, at the first such.
    fn check_limits(&self) -> Result<(), Fault>
        ensures { result_err result ≡ limit_test reading_limits (held self.now.frame.now) }
    {
        check_limits(self.frame, &READING_LIMITS)?;
        check_limits(self.frame, &earlier_limits())
    }

    // The reading of a post or a correction, or the first refusal that fits its fields.
    pub(crate) fn reading(&self) -> Result<Reading, Fault>
        ensures refused { result_err result ≡ or_else (limit_test reading_limits (held self.now.frame.now)) (excess_test (held self.now.frame.now)) }
        ensures value { IfOk result (λ x. x.entry ≡ entry_in (held self.now.frame.now)) }
    {
        self.check_limits()?;
        let entry = self.entry();
        if entry.off_hours > entry.kwh {
            return Err(Fault::OffHours);
        }
        if entry.peak_demand > entry.demand {
            return Err(Fault::PeakDemand);
        }
        let Ok(reading) = Reading::try_from(entry) else {
            unreachable()
        };
        Ok(reading)
    }
}
