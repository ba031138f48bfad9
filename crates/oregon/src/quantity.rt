// What a reading's charges are counted by.
ghost use Rattle.std.specs.Prelude.{◌≡◌, ◌^◌, ◌≤◌, if◌then◌else◌, slice_index};
ghost use Rattle.reading.specs.Flags.{primary_delivery};
ghost use Rattle.oregon.specs.Sheet.{factor as factor_of, kw as kw_of, billed as billed_on, per_kwh, per_kw};

use crate::rates::FLOORS;
use crate::service::Service;
use reading::nearest_kw;

// A rate by the voltage of delivery: at secondary, and at primary.
pub(crate) type Rate = [u16; 2];

impl Service {
    // The rate in a row of a table.
    pub(crate) fn rate(&self, row: Rate) -> u16
        ensures { result ≡ slice_index row (if primary_delivery self.now.entry then 1 else 0) }
    {
        if self.entry.primary_delivery() {
            row[1]
        } else {
            row[0]
        }
    }

    // The factor that adjusts quantities metered at another voltage than delivered, in ten-thousandths.
    pub(crate) fn factor(&self) -> u16
        ensures value { result ≡ factor_of self.now.entry }
        ensures bound { result ≤ 10157 }
    {
        match (self.entry.primary_delivery(), self.entry.primary_metering()) {
            (false, true) => 9_845,
            (true, false) => 10_157,
            _ => 10_000,
        }
    }

    // The demand in kW.
    pub(crate) fn kw(&self) -> u16
        ensures value { result ≡ kw_of self.now.entry }
        ensures bound { result ≤ 10000 }
    {
        nearest_kw(self.entry.demand) as u16
    }

    // The demand in kW, raised to the schedule's floor.
    pub(crate) fn billed(&self) -> u16
        ensures value { result ≡ billed_on self.now.schedule self.now.entry }
        ensures bound { result ≤ 10000 }
    {
        self.kw().max(FLOORS[self.schedule.place()])
    }

    // A rate in thousandths of a cent for each kWh as adjusted, in units.
    pub(crate) fn per_kwh(&self, rate: u16, kwh: u32) -> u64
        requires { kwh ≤ 999999 }
        ensures value { result ≡ per_kwh rate kwh self.now.entry }
        ensures bound { result ≤ 10 ^ 15 }
    {
        u64::from(rate) * u64::from(kwh) * u64::from(self.factor())
    }

    // A rate in cents for each kW as adjusted, in units.
    pub(crate) fn per_kw(&self, rate: u16, kw: u16) -> u64
        requires { kw ≤ 10000 }
        ensures value { result ≡ per_kw rate kw self.now.entry }
        ensures bound { result ≤ 10 ^ 16 }
    {
        self.per_kwh(rate, u32::from(kw)) * 1_000
    }
}
