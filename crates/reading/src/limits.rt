// The most that the fields of a reading may hold, and the last month.
pub const MOST_FLAGS: u8 = 15;

pub const MOST_KWH: u32 = 999_999;

// In tenths of a kW, of the demand and of the peak-hours demand.
pub const MOST_DEMAND: u32 = 99_999;

pub const MOST_KVAR: u16 = 9_999;

// In percent.
pub const MOST_POWER_FACTOR: u8 = 100;

// In kW.
pub const MOST_LOAD: u16 = 10_000;

// From January 2000 as 0.
pub const LAST_MONTH: u16 = 2_399;
