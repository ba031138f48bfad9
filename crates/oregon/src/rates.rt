// The rates of Oregon's sheets. A row has the rate at secondary and the rate at primary delivery. The rows of a table are
// those of schedules 4, 5, 23, 28, 29, 728 and 730, or of the bands of the load size. Constant tables by schedule and
// voltage, one for each line of the sheets, by a rule of the project.
use crate::quantity::Rate;

// In thousandths of a cent per kWh.
pub(crate) const ENERGY: [Rate; 7] = [
    [3523, 3523],
    [3523, 3523],
    [3182, 3133],
    [411, 69],
    [0, 0],
    [411, 69],
    [0, 0],
];

pub(crate) const TRANSMISSION: [Rate; 7] = [
    [818, 818],
    [818, 818],
    [723, 712],
    [0, 0],
    [736, 736],
    [0, 0],
    [0, 0],
];

pub(crate) const USAGE: [Rate; 7] = [
    [146, 146],
    [146, 146],
    [133, 131],
    [147, 139],
    [147, 147],
    [68, 64],
    [65, 64],
];

pub(crate) const SCHEDULE_203: [Rate; 7] = [[5, 5], [5, 5], [5, 5], [5, 5], [5, 5], [5, 5], [5, 5]];

pub(crate) const SCHEDULE_204: [Rate; 7] = [
    [38, 38],
    [38, 38],
    [36, 36],
    [37, 37],
    [37, 37],
    [37, 37],
    [36, 36],
];

pub(crate) const SCHEDULE_207: [Rate; 7] = [[4, 4], [4, 4], [3, 3], [3, 3], [3, 3], [3, 3], [3, 3]];

// Schedule 29's block and its credit, in thousandths of a cent per kWh.
pub(crate) const BLOCK: u16 = 18_940;

pub(crate) const CREDIT: u16 = 1_335;

// In cents per kW.
pub(crate) const TRANSMISSION_KW: [Rate; 7] = [
    [0, 0],
    [0, 0],
    [0, 0],
    [220, 214],
    [0, 0],
    [0, 0],
    [0, 0],
];

pub(crate) const DEMAND: [Rate; 7] = [
    [0, 0],
    [0, 0],
    [464, 458],
    [403, 490],
    [0, 0],
    [403, 490],
    [417, 417],
];

pub(crate) const LOAD_23: u64 = 140;

pub(crate) const LOAD_28: [Rate; 4] = [[120, 140], [95, 115], [55, 70], [35, 35]];

pub(crate) const LOAD_730: [Rate; 3] = [[0, 0], [175, 165], [85, 80]];

pub(crate) const THREE_PHASE: u64 = 220;

// In cents per kvar.
pub(crate) const REACTIVE: [Rate; 7] = [
    [0, 0],
    [0, 0],
    [65, 60],
    [65, 60],
    [0, 0],
    [65, 60],
    [65, 60],
];

// In cents.
pub(crate) const BASIC_28: [Rate; 4] = [[1900, 2500], [3500, 4300], [8400, 10000], [11900, 14300]];

pub(crate) const BASIC_730: [Rate; 3] = [[49400, 48100], [14400, 15100], [38000, 39300]];

pub(crate) const LEAST_THREE_PHASE: u64 = 380;

// The floors of the billed demand, in kW.
pub(crate) const FLOORS: [u16; 7] = [0, 0, 0, 15, 15, 15, 100];
