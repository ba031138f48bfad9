// What a reading costs on each statement line, exactly, in units.
ghost use Rattle.std.specs.Prelude.{◌≡◌, ◌+◌, ◌*◌, ◌^◌, ◌≤◌, min, if◌then◌else◌, slice_index};
ghost use Rattle.reading.specs.Flags.{primary_delivery};
ghost use Rattle.oregon.specs.Rates.{band_28, band_730, demand_rates};
ghost use Rattle.oregon_card.specs.Schedules.{place as place_of};
ghost use Rattle.oregon.specs.Sheet.{rate as rate_in, per_kw as per_kw_of, billed as billed_on, basic as basic_on, three_phase_demand, over_15, load_demand, energy as energy_on, credit as credit_on, reactive as reactive_on, transmission as transmission_on, floor as floor_on, rider};

use crate::quantity::Rate;
use crate::rates;
use crate::service::Service;
use book::{CENT, half_up};
use oregon_card::Schedule;

// The bands are matches on ranges, as the sheets have them: one search in a table of their ends is no plainer.

// The band of the load size on 28 and 728.
fn band_28(load: u16) -> usize
    ensures { result ≡ band_28 load }
{
    match load {
        0..=50 => 0,
        51..=100 => 1,
        101..=300 => 2,
        _ => 3,
    }
}

// The band of the load size on 730.
fn band_730(load: u16) -> usize
    ensures { result ≡ band_730 load }
{
    match load {
        0..=200 => 0,
        201..=300 => 1,
        _ => 2,
    }
}

// Each bound is that of its own sum: a type for each power of ten would be no plainer. A match on the schedule has an arm
// for each formula of the sheets; what differs in a rate alone is a table.
impl Service {
    // The basic charge, in cents.
    pub(crate) fn basic(&self) -> u16
        ensures { result ≡ basic_on self.now.schedule self.now.entry }
    {
        match self.schedule {
            Schedule::S4 | Schedule::S5 => if self.entry.multi_family() { 800 } else { 950 },
            Schedule::S23 => if self.entry.three_phase() { 2590 } else { 1735 },
            Schedule::S28 | Schedule::S728 => self.rate(rates::BASIC_28[band_28(self.entry.load)]),
            Schedule::S29 => 3700,
            Schedule::S730 => self.rate(rates::BASIC_730[band_730(self.entry.load)]),
        }
    }

    // Three-phase service on 4 and 5: by the kW of billed demand, and no less than a least charge.
    fn three_phase(&self) -> u64
        ensures value { result ≡ three_phase_demand self.now.schedule self.now.entry }
        ensures bound { result ≤ 10 ^ 15 }
    {
        if !self.entry.three_phase() {
            return 0;
        }
        (rates::THREE_PHASE * u64::from(self.billed())).max(rates::LEAST_THREE_PHASE) * CENT
    }

    // What is over 15 kW as adjusted, in ten-thousandths of a kW.
    fn over_15(&self, kw: u16) -> u64
        requires { kw ≤ 10000 }
        ensures value { result ≡ over_15 kw self.now.entry }
        ensures bound { result ≤ 10000 * 10157 }
    {
        (u64::from(kw) * u64::from(self.factor())).saturating_sub(150_000)
    }

    // Load size and demand on 23: each kW over 15.
    fn small_load(&self) -> u64
        ensures value { result ≡ (140 * over_15 self.now.entry.load self.now.entry + rate_in demand_rates (place_of self.now.schedule) self.now.entry * over_15 (billed_on self.now.schedule self.now.entry) self.now.entry) * 1000 }
        ensures bound { result ≤ 10 ^ 17 }
    {
        let load = rates::LOAD_23 * self.over_15(self.entry.load);
        let rate = self.rate(rates::DEMAND[self.schedule.place()]);
        let demand = u64::from(rate) * self.over_15(self.billed());
        (load + demand) * 1_000
    }

    // Load size by its band, and demand.
    fn banded_load(&self, load: Rate) -> u64
        ensures value { result ≡ per_kw_of (slice_index load (if primary_delivery self.now.entry then 1 else 0)) self.now.entry.load self.now.entry + per_kw_of (rate_in demand_rates (place_of self.now.schedule) self.now.entry) (billed_on self.now.schedule self.now.entry) self.now.entry }
        ensures bound { result ≤ 10 ^ 17 }
    {
        let demand = self.rate(rates::DEMAND[self.schedule.place()]);
        self.per_kw(self.rate(load), self.entry.load) + self.per_kw(demand, self.billed())
    }

    // Load size and demand.
    pub(crate) fn load_and_demand(&self) -> u64
        ensures value { result ≡ load_demand self.now.schedule self.now.entry }
        ensures bound { result ≤ 10 ^ 17 }
    {
        match self.schedule {
            Schedule::S4 | Schedule::S5 => self.three_phase(),
            Schedule::S23 => self.small_load(),
            Schedule::S28 | Schedule::S728 => self.banded_load(
                rates::LOAD_28[band_28(self.entry.load)],
            ),
            Schedule::S29 => 0,
            Schedule::S730 => self.banded_load(rates::LOAD_730[band_730(self.entry.load)]),
        }
    }

    // The kWh of a block: the first 50 for each kW of billed demand.
    fn block(&self) -> u32
        ensures { result ≡ min self.now.entry.kwh (50 * billed_on self.now.schedule self.now.entry) }
    {
        self.entry.kwh.min(50 * u32::from(self.billed()))
    }

    // Energy: the kWh of schedule 29's block, or all kWh on another schedule.
    pub(crate) fn energy(&self) -> u64
        ensures value { result ≡ energy_on self.now.schedule self.now.entry }
        ensures bound { result ≤ 10 ^ 16 }
    {
        match self.schedule {
            Schedule::S29 => self.per_kwh(rates::BLOCK, self.block()),
            _ => self.by_kwh(rates::ENERGY),
        }
    }

    // Credit: schedule 29's kWh past its block.
    pub(crate) fn credit(&self) -> u64
        ensures value { result ≡ credit_on self.now.schedule self.now.entry }
        ensures bound { result ≤ 10 ^ 16 }
    {
        match self.schedule {
            Schedule::S29 => self.per_kwh(rates::CREDIT, self.entry.kwh - self.block()),
            _ => 0,
        }
    }

    // Reactive power: the kvar over 40 percent of the demand in kW, in tenths.
    pub(crate) fn reactive(&self) -> u64
        ensures value { result ≡ reactive_on self.now.schedule self.now.entry }
        ensures bound { result ≤ 10 ^ 17 }
    {
        let excess = (10 * u32::from(self.entry.kvar)).saturating_sub(4 * u32::from(self.kw()));
        self.per_kwh(self.rate(rates::REACTIVE[self.schedule.place()]), excess) * 100
    }

    // Transmission: by the kWh, or by the kW of billed demand.
    pub(crate) fn transmission(&self) -> u64
        ensures value { result ≡ transmission_on self.now.schedule self.now.entry }
        ensures bound { result ≤ 10 ^ 17 }
    {
        let kw_rate = self.rate(rates::TRANSMISSION_KW[self.schedule.place()]);
        self.by_kwh(rates::TRANSMISSION) + self.per_kw(kw_rate, self.billed())
    }

    // A table's rate for each kWh.
    pub(crate) fn by_kwh(&self, table: [Rate; 7]) -> u64
        ensures value { result ≡ rider table self.now.schedule self.now.entry }
        ensures bound { result ≤ 10 ^ 15 }
    {
        self.per_kwh(self.rate(table[self.schedule.place()]), self.entry.kwh)
    }

    // The floor: what the credit exceeds energy, transmission and system usage by, in cents.
    pub(crate) fn floor(&self) -> u64
        ensures value { result * 10000000 ≡ floor_on self.now.schedule self.now.entry }
        ensures bound { result ≤ 10 ^ 9 }
    {
        let charged = half_up(self.energy())
            + half_up(self.transmission())
            + half_up(self.by_kwh(rates::USAGE));
        half_up(self.credit()).saturating_sub(charged)
    }
}
