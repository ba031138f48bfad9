// Answer lines: amounts written and read back, refused lines, and the line of every refusal.
use crate::buffer::{UNTOUCHED, check_line, check_written};
use crate::refusal::check_refused;
use crate::refused_requests::Refused;
use crate::table::check_all;
use answer::{AmountsKind, Answer, read_amounts};
use reading::{Fault, LINES};
use std::process::Abort;

// An answer of amounts, and its line.
#[derive(Clone, Copy)]
struct Case {
    line: &'static [u8],
    kind: AmountsKind,
    amounts: [i32; LINES],
}

// An answer without amounts, and its line.
#[derive(Clone, Copy)]
struct Line {
    answer: Answer,
    line: &'static [u8],
}

// Amounts of every kind of answer that has them.
const AMOUNTS: [Case; 17] = [
    // The worked answer.
    Case {
        line: b"8134000003B60000000000000DC3000000000000000000000332000000920000000000001388000000050000002600000004000000141D",
        kind: AmountsKind::Post,
        amounts: [950, 0, 3_523, 0, 0, 818, 146, 0, 5_000, 5, 38, 4, 20],
    },
    // All 0, post.
    Case {
        line: b"8134000000000000000000000000000000000000000000000000000000000000000000000000000000000000000000000000000000004B",
        kind: AmountsKind::Post,
        amounts: [0, 0, 0, 0, 0, 0, 0, 0, 0, 0, 0, 0, 0],
    },
    // All 0, cancel.
    Case {
        line: b"8234000000000000000000000000000000000000000000000000000000000000000000000000000000000000000000000000000000004A",
        kind: AmountsKind::Cancel,
        amounts: [0, 0, 0, 0, 0, 0, 0, 0, 0, 0, 0, 0, 0],
    },
    // All 0, correct.
    Case {
        line: b"83340000000000000000000000000000000000000000000000000000000000000000000000000000000000000000000000000000000049",
        kind: AmountsKind::Correct,
        amounts: [0, 0, 0, 0, 0, 0, 0, 0, 0, 0, 0, 0, 0],
    },
    // All 0, account.
    Case {
        line: b"85340000000000000000000000000000000000000000000000000000000000000000000000000000000000000000000000000000000047",
        kind: AmountsKind::Account,
        amounts: [0, 0, 0, 0, 0, 0, 0, 0, 0, 0, 0, 0, 0],
    },
    // All 1.
    Case {
        line: b"8134000000010000000100000001000000010000000100000001000000010000000100000001000000010000000100000001000000013E",
        kind: AmountsKind::Post,
        amounts: [1, 1, 1, 1, 1, 1, 1, 1, 1, 1, 1, 1, 1],
    },
    // All -1.
    Case {
        line: b"8234FFFFFFFFFFFFFFFFFFFFFFFFFFFFFFFFFFFFFFFFFFFFFFFFFFFFFFFFFFFFFFFFFFFFFFFFFFFFFFFFFFFFFFFFFFFFFFFFFFFFFFFF7E",
        kind: AmountsKind::Cancel,
        amounts: [-1, -1, -1, -1, -1, -1, -1, -1, -1, -1, -1, -1, -1],
    },
    // All least.
    Case {
        line: b"833480000000800000008000000080000000800000008000000080000000800000008000000080000000800000008000000080000000C9",
        kind: AmountsKind::Correct,
        amounts: [
            i32::MIN,
            i32::MIN,
            i32::MIN,
            i32::MIN,
            i32::MIN,
            i32::MIN,
            i32::MIN,
            i32::MIN,
            i32::MIN,
            i32::MIN,
            i32::MIN,
            i32::MIN,
            i32::MIN,
        ],
    },
    // All greatest.
    Case {
        line: b"85347FFFFFFF7FFFFFFF7FFFFFFF7FFFFFFF7FFFFFFF7FFFFFFF7FFFFFFF7FFFFFFF7FFFFFFF7FFFFFFF7FFFFFFF7FFFFFFF7FFFFFFFFB",
        kind: AmountsKind::Account,
        amounts: [
            i32::MAX,
            i32::MAX,
            i32::MAX,
            i32::MAX,
            i32::MAX,
            i32::MAX,
            i32::MAX,
            i32::MAX,
            i32::MAX,
            i32::MAX,
            i32::MAX,
            i32::MAX,
            i32::MAX,
        ],
    },
    // 1 first.
    Case {
        line: b"8134000000010000000000000000000000000000000000000000000000000000000000000000000000000000000000000000000000004A",
        kind: AmountsKind::Post,
        amounts: [1, 0, 0, 0, 0, 0, 0, 0, 0, 0, 0, 0, 0],
    },
    // -1 first.
    Case {
        line: b"8234FFFFFFFF0000000000000000000000000000000000000000000000000000000000000000000000000000000000000000000000004E",
        kind: AmountsKind::Cancel,
        amounts: [-1, 0, 0, 0, 0, 0, 0, 0, 0, 0, 0, 0, 0],
    },
    // 1 last.
    Case {
        line: b"83340000000000000000000000000000000000000000000000000000000000000000000000000000000000000000000000000000000148",
        kind: AmountsKind::Correct,
        amounts: [0, 0, 0, 0, 0, 0, 0, 0, 0, 0, 0, 0, 1],
    },
    // Least last.
    Case {
        line: b"853400000000000000000000000000000000000000000000000000000000000000000000000000000000000000000000000080000000C7",
        kind: AmountsKind::Account,
        amounts: [0, 0, 0, 0, 0, 0, 0, 0, 0, 0, 0, 0, i32::MIN],
    },
    // -2,500 on line 12.
    Case {
        line: b"8234000000000000000000000000000000000000000000000000000000000000000000000000000000000000000000000000FFFFF63C1A",
        kind: AmountsKind::Cancel,
        amounts: [0, 0, 0, 0, 0, 0, 0, 0, 0, 0, 0, 0, -2_500],
    },
    // Mixed.
    Case {
        line: b"82340000000000000001FFFFFFFF800000007FFFFFFF000000FF00000100FFFFFF01FFFFFF000000FFFFFFFF000001000000FEFFFFFF5E",
        kind: AmountsKind::Cancel,
        amounts: [
            0,
            1,
            -1,
            i32::MIN,
            i32::MAX,
            255,
            256,
            -255,
            -256,
            65_535,
            -65_536,
            16_777_216,
            -16_777_217,
        ],
    },
    // Mixed otherwise.
    Case {
        line: b"83347FFFFFFF80000000FFFFFFFF0000000100000000FFFFFF800000008000007FFFFFFF800000000002FFFFFFFE05F5E0FFFA0A1F015D",
        kind: AmountsKind::Correct,
        amounts: [
            i32::MAX,
            i32::MIN,
            -1,
            1,
            0,
            -128,
            128,
            32_767,
            -32_768,
            2,
            -2,
            99_999_999,
            -99_999_999,
        ],
    },
    // Every amount different.
    Case {
        line: b"85340102030401020305010203060102030701020308010203090102030A0102030B0102030C0102030D0102030E0102030F0102031077",
        kind: AmountsKind::Account,
        amounts: [
            16_909_060, 16_909_061, 16_909_062, 16_909_063, 16_909_064, 16_909_065, 16_909_066,
            16_909_067, 16_909_068, 16_909_069, 16_909_070, 16_909_071, 16_909_072,
        ],
    },
];

// Numbers 2 to 6, and lines that two of them fit.
const UNREAD: [Refused; 36] = [
    // Nothing.
    Refused {
        line: b"",
        refusal: (2, 1, 0),
    },
    // 5 characters.
    Refused {
        line: b"81340",
        refusal: (2, 1, 0),
    },
    // An answer without its last character.
    Refused {
        line: b"8134000003B60000000000000DC3000000000000000000000332000000920000000000001388000000050000002600000004000000141",
        refusal: (2, 1, 0),
    },
    // An answer with a carriage return.
    Refused {
        line: b"8134000003B60000000000000DC3000000000000000000000332000000920000000000001388000000050000002600000004000000141D\r",
        refusal: (2, 1, 0),
    },
    // 127 characters.
    Refused {
        line: b"0000000000000000000000000000000000000000000000000000000000000000000000000000000000000000000000000000000000000000000000000000000",
        refusal: (2, 1, 0),
    },
    // 129 characters.
    Refused {
        line: b"000000000000000000000000000000000000000000000000000000000000000000000000000000000000000000000000000000000000000000000000000000000",
        refusal: (2, 1, 0),
    },
    // 130 characters.
    Refused {
        line: b"0000000000000000000000000000000000000000000000000000000000000000000000000000000000000000000000000000000000000000000000000000000000",
        refusal: (2, 1, 0),
    },
    // First column.
    Refused {
        line: b"G134000003B60000000000000DC3000000000000000000000332000000920000000000001388000000050000002600000004000000141D",
        refusal: (3, 1, 1),
    },
    // A middle column, lower case.
    Refused {
        line: b"8134000003Bb0000000000000DC3000000000000000000000332000000920000000000001388000000050000002600000004000000141D",
        refusal: (3, 1, 12),
    },
    // Last column.
    Refused {
        line: b"8134000003B60000000000000DC3000000000000000000000332000000920000000000001388000000050000002600000004000000141d",
        refusal: (3, 1, 110),
    },
    // NUL.
    Refused {
        line: b"8134000003B60000000000000DC300000000000000000000033200\0000920000000000001388000000050000002600000004000000141D",
        refusal: (3, 1, 55),
    },
    // Byte 200.
    Refused {
        line: b"8134000003B60000000000000DC3000000000000000000000332000\xC800920000000000001388000000050000002600000004000000141D",
        refusal: (3, 1, 56),
    },
    // Two, the first counts.
    Refused {
        line: b"8134000003B60000000000000DC30000000000000000000003320000009200000000000013880000000500000026000000\x09 000000141D",
        refusal: (3, 1, 99),
    },
    // Another check byte.
    Refused {
        line: b"8134000003B60000000000000DC3000000000000000000000332000000920000000000001388000000050000002600000004000000141E",
        refusal: (4, 2, 0),
    },
    // Another amount.
    Refused {
        line: b"8134000007B60000000000000DC3000000000000000000000332000000920000000000001388000000050000002600000004000000141D",
        refusal: (4, 2, 0),
    },
    // Kind 84.
    Refused {
        line: b"84007C",
        refusal: (5, 2, 1),
    },
    // Kind 84 with amounts.
    Refused {
        line: b"8434000003B60000000000000DC3000000000000000000000332000000920000000000001388000000050000002600000004000000141A",
        refusal: (5, 2, 1),
    },
    // Kind 90.
    Refused {
        line: b"900070",
        refusal: (5, 2, 1),
    },
    // Kind 90 with amounts.
    Refused {
        line: b"9034000003B60000000000000DC3000000000000000000000332000000920000000000001388000000050000002600000004000000140E",
        refusal: (5, 2, 1),
    },
    // Kind 7F.
    Refused {
        line: b"7F040D05000962",
        refusal: (5, 2, 1),
    },
    // Kind 7F with amounts.
    Refused {
        line: b"7F34000003B60000000000000DC3000000000000000000000332000000920000000000001388000000050000002600000004000000141F",
        refusal: (5, 2, 1),
    },
    // Kind 01, the worked post.
    Refused {
        line: b"01340000000700FC0001000400000003E80000000000000000000000000000640000000000000000000000000000000000000000000074",
        refusal: (5, 2, 1),
    },
    // Kind 01 with amounts.
    Refused {
        line: b"0134000003B60000000000000DC3000000000000000000000332000000920000000000001388000000050000002600000004000000149D",
        refusal: (5, 2, 1),
    },
    // Kind 80.
    Refused {
        line: b"8034000003B60000000000000DC3000000000000000000000332000000920000000000001388000000050000002600000004000000141E",
        refusal: (5, 2, 1),
    },
    // Kind 86.
    Refused {
        line: b"8634000003B60000000000000DC30000000000000000000003320000009200000000000013880000000500000026000000040000001418",
        refusal: (5, 2, 1),
    },
    // Kind 00.
    Refused {
        line: b"000000",
        refusal: (5, 2, 1),
    },
    // Kind FF.
    Refused {
        line: b"FF34000003B60000000000000DC3000000000000000000000332000000920000000000001388000000050000002600000004000000149F",
        refusal: (5, 2, 1),
    },
    // Length byte 33.
    Refused {
        line: b"8133000003B60000000000000DC3000000000000000000000332000000920000000000001388000000050000002600000004000000141E",
        refusal: (6, 2, 2),
    },
    // Length byte 35.
    Refused {
        line: b"8235000003B60000000000000DC3000000000000000000000332000000920000000000001388000000050000002600000004000000141B",
        refusal: (6, 2, 2),
    },
    // Payload short.
    Refused {
        line: b"8334000003B60000000000000DC30000000000000000000003320000009200000000000013880000000500000026000000040000002F",
        refusal: (6, 2, 2),
    },
    // Payload long.
    Refused {
        line: b"8534000003B60000000000000DC3000000000000000000000332000000920000000000001388000000050000002600000004000000140019",
        refusal: (6, 2, 2),
    },
    // Length byte and payload 48, twelve amounts.
    Refused {
        line: b"8130000003B60000000000000DC300000000000000000000033200000092000000000000138800000005000000260000000435",
        refusal: (6, 2, 2),
    },
    // Length byte and payload 56, fourteen amounts.
    Refused {
        line: b"8538000003B60000000000000DC3000000000000000000000332000000920000000000001388000000050000002600000004000000140000000015",
        refusal: (6, 2, 2),
    },
    // Length byte and payload 0.
    Refused {
        line: b"82007E",
        refusal: (6, 2, 2),
    },
    // 4 before 5.
    Refused {
        line: b"84007D",
        refusal: (4, 2, 0),
    },
    // 5 before 6.
    Refused {
        line: b"8433000003B60000000000000DC3000000000000000000000332000000920000000000001388000000050000002600000004000000141B",
        refusal: (5, 2, 1),
    },
];

// Every refusal, and the two answers that are always the same.
const FIXED: [Line; 26] = [
    Line {
        answer: Answer::Refused(Fault::Buffer),
        line: b"7F04010100007B",
    },
    Line {
        answer: Answer::Refused(Fault::LineLength),
        line: b"7F04020100007A",
    },
    Line {
        answer: Answer::Refused(Fault::Digit { column: 1 }),
        line: b"7F040301000178",
    },
    Line {
        answer: Answer::Refused(Fault::Digit { column: 70 }),
        line: b"7F040301004633",
    },
    Line {
        answer: Answer::Refused(Fault::Digit { column: 128 }),
        line: b"7F0403010080F9",
    },
    Line {
        answer: Answer::Refused(Fault::Digit { column: 65_535 }),
        line: b"7F040301FFFF7B",
    },
    Line {
        answer: Answer::Refused(Fault::Sum),
        line: b"7F040402000077",
    },
    Line {
        answer: Answer::Refused(Fault::Kind),
        line: b"7F040502000175",
    },
    Line {
        answer: Answer::Refused(Fault::PayloadLength),
        line: b"7F040602000273",
    },
    Line {
        answer: Answer::Refused(Fault::Limit { byte: 3 }),
        line: b"7F040703000370",
    },
    Line {
        answer: Answer::Refused(Fault::Limit { byte: 7 }),
        line: b"7F04070300076C",
    },
    Line {
        answer: Answer::Refused(Fault::Limit { byte: 53 }),
        line: b"7F04070300353E",
    },
    Line {
        answer: Answer::Refused(Fault::Limit { byte: 4_660 }),
        line: b"7F04070312342D",
    },
    Line {
        answer: Answer::Refused(Fault::OffHours),
        line: b"7F040803001260",
    },
    Line {
        answer: Answer::Refused(Fault::PeakDemand),
        line: b"7F040803001A58",
    },
    Line {
        answer: Answer::Refused(Fault::Schedule),
        line: b"7F040904000B65",
    },
    Line {
        answer: Answer::Refused(Fault::Flag),
        line: b"7F040A04000D62",
    },
    Line {
        answer: Answer::Refused(Fault::Closed),
        line: b"7F040B0500036A",
    },
    Line {
        answer: Answer::Refused(Fault::Standing),
        line: b"7F040C05000963",
    },
    Line {
        answer: Answer::Refused(Fault::NoMeter),
        line: b"7F040D05000962",
    },
    Line {
        answer: Answer::Refused(Fault::NotHeld),
        line: b"7F040D05000368",
    },
    Line {
        answer: Answer::Refused(Fault::RecordFull),
        line: b"7F040E05000961",
    },
    Line {
        answer: Answer::Refused(Fault::StoreFull),
        line: b"7F040F06000365",
    },
    Line {
        answer: Answer::Refused(Fault::Unusable),
        line: b"7F041006000067",
    },
    Line {
        answer: Answer::Closed,
        line: b"84007C",
    },
    Line {
        answer: Answer::CardAccepted,
        line: b"900070",
    },
];

// What stands in a place of amounts before a line is read.
const BEFORE: [i32; LINES] = [11, -12, 13, -14, 15, -16, 17, -18, 19, -20, 21, -22, 23];

// The answer's line stands in this buffer, and nothing past the line.
fn check_answer(rt: &impl Abort, answer: Answer, line: &[u8], buffer: &mut [u8]) {
    let written = answer.write(buffer);
    check_line(rt, written, buffer, line);
}

fn check_amounts(rt: &impl Abort, case: &Case) {
    let answer = Answer::Amounts {
        kind: case.kind,
        amounts: case.amounts,
    };
    check_answer(rt, answer, case.line, &mut [UNTOUCHED; 200]);
    let mut amounts = BEFORE;
    assert_eq!(rt; read_amounts(case.line, &mut amounts), Ok(case.kind));
    assert_eq!(rt; amounts, case.amounts);
}

// The place of the amounts is as it was.
fn check_unread(rt: &impl Abort, case: &Refused) {
    let mut amounts = BEFORE;
    check_refused(rt, read_amounts(case.line, &mut amounts), case.refusal);
    assert_eq!(rt; amounts, BEFORE);
}

fn check_fixed(rt: &impl Abort, case: &Line) {
    check_answer(rt, case.answer, case.line, &mut [UNTOUCHED; 128]);
}

#[test]
fn written_and_read_back(rt: HostRuntime) {
    check_all(&rt, &AMOUNTS, check_amounts);
}

#[test]
fn refused_lines(rt: HostRuntime) {
    check_all(&rt, &UNREAD, check_unread);
}

#[test]
fn fixed_lines(rt: HostRuntime) {
    check_all(&rt, &FIXED, check_fixed);
}

#[test]
fn short_buffer(rt: HostRuntime) {
    let mut buffer = [UNTOUCHED; 127];
    check_refused(&rt, Answer::Closed.write(&mut buffer), (1, 1, 0));
    check_written(&rt, &buffer, b"");
}
