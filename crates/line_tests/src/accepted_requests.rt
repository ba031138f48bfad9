// Requests that are accepted, with every field that they carry.
use crate::table::check_all;
use reading::{Entry, Reading, SiteMonth};
use request::Request;
use std::process::Abort;

// A post or a correction with its whole reading.
#[derive(Clone, Copy)]
struct Full {
    line: &'static [u8],
    at: SiteMonth,
    entry: Entry,
}

// A post that is the plain one but for the demands.
#[derive(Clone, Copy)]
struct Load {
    line: &'static [u8],
    // In tenths of a kW.
    demand: u32,
    load: u16,
}

// A request without a reading.
#[derive(Clone, Copy)]
struct Named {
    line: &'static [u8],
    request: Request,
}

// Whole readings posted.
const POSTED: [Full; 7] = [
    // That of the worked month.
    Full {
        line: b"01340000000700FC0001000400000003E80000000000000000000000000000640000000000000000000000000000000000000000000074",
        at: SiteMonth {
            site: 7,
            month: 252,
        },
        entry: Entry {
            meter: 1,
            schedule: 4,
            flags: 0,
            power_factor: 100,
            kwh: 1_000,
            off_hours: 0,
            demand: 0,
            peak_demand: 0,
            kvar: 0,
            load: 0,
        },
    },
    // Every field 0.
    Full {
        line: b"013400000000000000000000000000000000000000000000000000000000000000000000000000000000000000000000000000000000CB",
        at: SiteMonth { site: 0, month: 0 },
        entry: Entry {
            meter: 0,
            schedule: 0,
            flags: 0,
            power_factor: 0,
            kwh: 0,
            off_hours: 0,
            demand: 0,
            peak_demand: 0,
            kvar: 0,
            load: 0,
        },
    },
    // Every field at its limit.
    Full {
        line: b"0134FFFFFFFF095FFFFFFFFF0F000F423F000F423F0001869F0001869F270F64270F270F270F270F270F270F270F270F270F270F270F04",
        at: SiteMonth {
            site: 4_294_967_295,
            month: 2_399,
        },
        entry: Entry {
            meter: 65_535,
            schedule: 65_535,
            flags: 15,
            power_factor: 100,
            kwh: 999_999,
            off_hours: 999_999,
            demand: 99_999,
            peak_demand: 99_999,
            kvar: 9_999,
            load: 9_999,
        },
    },
    // Every byte different.
    Full {
        line: b"01340102030405060708090A0B000C0D0E000A101100011213000110121617180102030405060708090A0B0C0D0E0F10111213141516AC",
        at: SiteMonth {
            site: 16_909_060,
            month: 1_286,
        },
        entry: Entry {
            meter: 1_800,
            schedule: 2_314,
            flags: 11,
            power_factor: 24,
            kwh: 789_774,
            off_hours: 659_473,
            demand: 70_163,
            peak_demand: 69_650,
            kvar: 5_655,
            load: 6_207,
        },
    },
    // Off-hours at the kWh.
    Full {
        line: b"01340000000700FC0001000400000004D2000004D2000000000000000000006400000000000000000000000000000000000000000000B3",
        at: SiteMonth {
            site: 7,
            month: 252,
        },
        entry: Entry {
            meter: 1,
            schedule: 4,
            flags: 0,
            power_factor: 100,
            kwh: 1_234,
            off_hours: 1_234,
            demand: 0,
            peak_demand: 0,
            kvar: 0,
            load: 0,
        },
    },
    // Peak-hours demand at the demand.
    Full {
        line: b"01340000000700FC0001000400000003E800000000000010E1000010E10000640000000000000000000000000000000000000000000092",
        at: SiteMonth {
            site: 7,
            month: 252,
        },
        entry: Entry {
            meter: 1,
            schedule: 4,
            flags: 0,
            power_factor: 100,
            kwh: 1_000,
            off_hours: 0,
            demand: 4_321,
            peak_demand: 4_321,
            kvar: 0,
            load: 432,
        },
    },
    // Schedule 730, flags 7.
    Full {
        line: b"0134000000010001000202DA070003D090000186A00000303900002EE001415D04B0044C03E80000000000000000000000000000000055",
        at: SiteMonth { site: 1, month: 1 },
        entry: Entry {
            meter: 2,
            schedule: 730,
            flags: 7,
            power_factor: 93,
            kwh: 250_000,
            off_hours: 100_000,
            demand: 12_345,
            peak_demand: 12_000,
            kvar: 321,
            load: 1_217,
        },
    },
];

// Whole readings corrected.
const CORRECTED: [Full; 3] = [
    // Every field 0.
    Full {
        line: b"033400000000000000000000000000000000000000000000000000000000000000000000000000000000000000000000000000000000C9",
        at: SiteMonth { site: 0, month: 0 },
        entry: Entry {
            meter: 0,
            schedule: 0,
            flags: 0,
            power_factor: 0,
            kwh: 0,
            off_hours: 0,
            demand: 0,
            peak_demand: 0,
            kvar: 0,
            load: 0,
        },
    },
    // Every field at its limit.
    Full {
        line: b"0334FFFFFFFF095FFFFFFFFF0F000F423F000F423F0001869F0001869F270F64270F270F270F270F270F270F270F270F270F270F270F02",
        at: SiteMonth {
            site: 4_294_967_295,
            month: 2_399,
        },
        entry: Entry {
            meter: 65_535,
            schedule: 65_535,
            flags: 15,
            power_factor: 100,
            kwh: 999_999,
            off_hours: 999_999,
            demand: 99_999,
            peak_demand: 99_999,
            kvar: 9_999,
            load: 9_999,
        },
    },
    // Every byte different.
    Full {
        line: b"0334FEDCBA980123FEDC02DA050005432100012345000043210000123409875A1516131411120F100D0E0B0C090A07080506030401025B",
        at: SiteMonth {
            site: 4_275_878_552,
            month: 291,
        },
        entry: Entry {
            meter: 65_244,
            schedule: 730,
            flags: 5,
            power_factor: 90,
            kwh: 344_865,
            off_hours: 74_565,
            demand: 17_185,
            peak_demand: 4_660,
            kvar: 2_439,
            load: 5_141,
        },
    },
];

// The site month of every load size.
const PLAIN_AT: SiteMonth = SiteMonth {
    site: 7,
    month: 252,
};

// The reading of every load size, but for its demand and its load.
const PLAIN: Entry = Entry {
    meter: 1,
    schedule: 4,
    flags: 0,
    power_factor: 100,
    kwh: 1_000,
    off_hours: 0,
    demand: 0,
    peak_demand: 0,
    kvar: 0,
    load: 0,
};

// Demands and the load sizes that follow from them, in kW.
const LOADS: [Load; 37] = [
    // None.
    Load {
        line: b"01340000000700FC0001000400000003E80000000000000000000000000000640000000000000000000000000000000000000000000074",
        demand: 0,
        load: 0,
    },
    // This month alone.
    Load {
        line: b"01340000000700FC0001000400000003E80000000000000172000000000000640000000000000000000000000000000000000000000001",
        demand: 370,
        load: 37,
    },
    // One alone, the first.
    Load {
        line: b"01340000000700FC0001000400000003E8000000000000000000000000000064002500000000000000000000000000000000000000004F",
        demand: 0,
        load: 37,
    },
    // One alone, in the middle.
    Load {
        line: b"01340000000700FC0001000400000003E8000000000000000000000000000064000000000000000000000025000000000000000000004F",
        demand: 0,
        load: 37,
    },
    // One alone, the last.
    Load {
        line: b"01340000000700FC0001000400000003E8000000000000000000000000000064000000000000000000000000000000000000000000254F",
        demand: 0,
        load: 37,
    },
    // One alone, 1 kW.
    Load {
        line: b"01340000000700FC0001000400000003E80000000000000000000000000000640000000000000001000000000000000000000000000073",
        demand: 0,
        load: 1,
    },
    // One alone, 9,999 kW.
    Load {
        line: b"01340000000700FC0001000400000003E80000000000000000000000000000640000000000000000270F0000000000000000000000003E",
        demand: 0,
        load: 9_999,
    },
    // 20.4 kW is 20.
    Load {
        line: b"01340000000700FC0001000400000003E800000000000000CC0000000000006400000000000000000000000000000000000000000000A8",
        demand: 204,
        load: 20,
    },
    // 20.5 kW is 21.
    Load {
        line: b"01340000000700FC0001000400000003E800000000000000CD0000000000006400000000000000000000000000000000000000000000A7",
        demand: 205,
        load: 21,
    },
    // 9,999.4 kW is 9,999.
    Load {
        line: b"01340000000700FC0001000400000003E8000000000001869A000000000000640000000000000000000000000000000000000000000053",
        demand: 99_994,
        load: 9_999,
    },
    // 9,999.9 kW is 10,000.
    Load {
        line: b"01340000000700FC0001000400000003E8000000000001869F00000000000064000000000000000000000000000000000000000000004E",
        demand: 99_999,
        load: 10_000,
    },
    // 10,000 and 9,999.
    Load {
        line: b"01340000000700FC0001000400000003E8000000000001869F00000000000064270F000000000000000000000000000000000000000018",
        demand: 99_999,
        load: 9_999,
    },
    // 10,000 and 9,998.
    Load {
        line: b"01340000000700FC0001000400000003E8000000000001869F00000000000064270E000000000000000000000000000000000000000019",
        demand: 99_999,
        load: 9_999,
    },
    // 10,000 and 1.
    Load {
        line: b"01340000000700FC0001000400000003E8000000000001869F00000000000064000100000000000000000000000000000000000000004D",
        demand: 99_999,
        load: 5_000,
    },
    // 0.4 kW is no month.
    Load {
        line: b"01340000000700FC0001000400000003E80000000000000004000000000000640000000000000000000000000000000000000000000070",
        demand: 4,
        load: 0,
    },
    // 0.5 kW is 1 kW.
    Load {
        line: b"01340000000700FC0001000400000003E8000000000000000500000000000064000000000000000000000000000000000000000000006F",
        demand: 5,
        load: 1,
    },
    // 0.4 kW beside 9 kW is no month.
    Load {
        line: b"01340000000700FC0001000400000003E80000000000000004000000000000640009000000000000000000000000000000000000000067",
        demand: 4,
        load: 9,
    },
    // 0.5 kW beside 9 kW is one.
    Load {
        line: b"01340000000700FC0001000400000003E80000000000000005000000000000640009000000000000000000000000000000000000000066",
        demand: 5,
        load: 5,
    },
    // 20.4 kW and 21: a half dropped.
    Load {
        line: b"01340000000700FC0001000400000003E800000000000000CC000000000000640015000000000000000000000000000000000000000093",
        demand: 204,
        load: 20,
    },
    // 20.5 kW and 20: a half dropped.
    Load {
        line: b"01340000000700FC0001000400000003E800000000000000CD000000000000640014000000000000000000000000000000000000000093",
        demand: 205,
        load: 20,
    },
    // 20.5 kW and 21.
    Load {
        line: b"01340000000700FC0001000400000003E800000000000000CD000000000000640015000000000000000000000000000000000000000092",
        demand: 205,
        load: 21,
    },
    // 1 and 1.
    Load {
        line: b"01340000000700FC0001000400000003E80000000000000000000000000000640001000100000000000000000000000000000000000072",
        demand: 0,
        load: 1,
    },
    // 1 and 2: a half dropped.
    Load {
        line: b"01340000000700FC0001000400000003E80000000000000000000000000000640001000200000000000000000000000000000000000071",
        demand: 0,
        load: 1,
    },
    // Two greatest, the first two.
    Load {
        line: b"01340000000700FC0001000400000003E8000000000000000000000000000064003C0028001E0014000A000000000000000000000000D4",
        demand: 0,
        load: 50,
    },
    // Two greatest, the last two.
    Load {
        line: b"01340000000700FC0001000400000003E8000000000000000000000000000064000000000000000000000000000A0014001E0028003CD4",
        demand: 0,
        load: 50,
    },
    // Two greatest, the greater last.
    Load {
        line: b"01340000000700FC0001000400000003E80000000000000000000000000000640028000000000000000000000000000000000000003C10",
        demand: 0,
        load: 50,
    },
    // Two greatest, the greater first.
    Load {
        line: b"01340000000700FC0001000400000003E8000000000000000000000000000064003C000000000000000000000000000000000000002810",
        demand: 0,
        load: 50,
    },
    // Eleven going up.
    Load {
        line: b"01340000000700FC0001000400000003E8000000000000000000000000000064000100020003000400050006000700080009000A000C31",
        demand: 0,
        load: 11,
    },
    // Eleven going down.
    Load {
        line: b"01340000000700FC0001000400000003E8000000000000000000000000000064000C000A00090008000700060005000400030002000131",
        demand: 0,
        load: 11,
    },
    // A repeated greatest.
    Load {
        line: b"01340000000700FC0001000400000003E80000000000000000000000000000640032001E003200000000000000000000000000000000F2",
        demand: 0,
        load: 50,
    },
    // A greatest thrice.
    Load {
        line: b"01340000000700FC0001000400000003E800000000000000000000000000006400320032000000000032003100000000000000000000AD",
        demand: 0,
        load: 50,
    },
    // All twelve equal.
    Load {
        line: b"01340000000700FC0001000400000003E800000000000000500000000000006400080008000800080008000800080008000800080008CC",
        demand: 80,
        load: 8,
    },
    // This month the greatest.
    Load {
        line: b"01340000000700FC0001000400000003E8000000000000019000000000000064001E0014000000000000000000000000000000000000B1",
        demand: 400,
        load: 35,
    },
    // This month the second.
    Load {
        line: b"01340000000700FC0001000400000003E800000000000000FA00000000000064001E001400000000000000000000000000000000000048",
        demand: 250,
        load: 27,
    },
    // This month the third.
    Load {
        line: b"01340000000700FC0001000400000003E8000000000000006400000000000064001E0014000000000000000000000000000000000000DE",
        demand: 100,
        load: 25,
    },
    // This month repeats the greatest.
    Load {
        line: b"01340000000700FC0001000400000003E8000000000000012C000000000000640000001E00140000000000000000000000000000000015",
        demand: 300,
        load: 30,
    },
    // Zeros between them.
    Load {
        line: b"01340000000700FC0001000400000003E80000000000000000000000000000640000000700000000000000000000000000090000000064",
        demand: 0,
        load: 8,
    },
];

// Cancels, closes and accounts.
const NAMED: [Named; 11] = [
    // Cancel: every field 0.
    Named {
        line: b"02080000000000000000F6",
        request: Request::Cancel {
            at: SiteMonth { site: 0, month: 0 },
            meter: 0,
        },
    },
    // Cancel: every field at its limit.
    Named {
        line: b"0208FFFFFFFF095FFFFF94",
        request: Request::Cancel {
            at: SiteMonth {
                site: 4_294_967_295,
                month: 2_399,
            },
            meter: 65_535,
        },
    },
    // Cancel: that of the worked month.
    Named {
        line: b"02080000000700FC0002F1",
        request: Request::Cancel {
            at: SiteMonth {
                site: 7,
                month: 252,
            },
            meter: 2,
        },
    },
    // Cancel: every byte different.
    Named {
        line: b"02080102030405060708D2",
        request: Request::Cancel {
            at: SiteMonth {
                site: 16_909_060,
                month: 1_286,
            },
            meter: 1_800,
        },
    },
    // Close: every field 0.
    Named {
        line: b"0406000000000000F6",
        request: Request::Close {
            at: SiteMonth { site: 0, month: 0 },
        },
    },
    // Close: every field at its limit.
    Named {
        line: b"0406FFFFFFFF095F92",
        request: Request::Close {
            at: SiteMonth {
                site: 4_294_967_295,
                month: 2_399,
            },
        },
    },
    // Close: every byte different.
    Named {
        line: b"0406010203040506E1",
        request: Request::Close {
            at: SiteMonth {
                site: 16_909_060,
                month: 1_286,
            },
        },
    },
    // Account: every field 0.
    Named {
        line: b"0506000000000000F5",
        request: Request::Account {
            at: SiteMonth { site: 0, month: 0 },
        },
    },
    // Account: every field at its limit.
    Named {
        line: b"0506FFFFFFFF095F91",
        request: Request::Account {
            at: SiteMonth {
                site: 4_294_967_295,
                month: 2_399,
            },
        },
    },
    // Account: site 7, month 252.
    Named {
        line: b"05060000000700FCF2",
        request: Request::Account {
            at: SiteMonth {
                site: 7,
                month: 252,
            },
        },
    },
    // Account: every byte different.
    Named {
        line: b"0506010203040506E0",
        request: Request::Account {
            at: SiteMonth {
                site: 16_909_060,
                month: 1_286,
            },
        },
    },
];

fn reading_of(rt: &impl Abort, entry: Entry) -> Reading {
    Reading::try_from(entry).expect(rt, "unlawful")
}

fn check_post(rt: &impl Abort, case: &Full) {
    let request = Request::Post {
        at: case.at,
        reading: reading_of(rt, case.entry),
    };
    assert_eq!(rt; Request::read(case.line), Ok(request));
}

fn check_correction(rt: &impl Abort, case: &Full) {
    let request = Request::Correct {
        at: case.at,
        reading: reading_of(rt, case.entry),
    };
    assert_eq!(rt; Request::read(case.line), Ok(request));
}

fn check_load(rt: &impl Abort, case: &Load) {
    let entry = Entry {
        demand: case.demand,
        load: case.load,
        ..PLAIN
    };
    let posted = Full {
        line: case.line,
        at: PLAIN_AT,
        entry,
    };
    check_post(rt, &posted);
}

fn check_named(rt: &impl Abort, case: &Named) {
    assert_eq!(rt; Request::read(case.line), Ok(case.request));
}

#[test]
fn full_readings(rt: HostRuntime) {
    check_all(&rt, &POSTED, check_post);
    check_all(&rt, &CORRECTED, check_correction);
}

#[test]
fn load_sizes(rt: HostRuntime) {
    check_all(&rt, &LOADS, check_load);
}

#[test]
fn without_readings(rt: HostRuntime) {
    check_all(&rt, &NAMED, check_named);
}
