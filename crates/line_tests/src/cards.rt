// Card lines, accepted and refused, with the answer that stands in the buffer.
use crate::buffer::{UNTOUCHED, check_line, check_written};
use crate::refusal::check_refused;
use crate::table::check_all;
use oregon_card::take_card;
use std::process::Abort;

// A line and its answer.
#[derive(Clone, Copy)]
struct Case {
    line: &'static [u8],
    answer: &'static [u8],
}

// The answer to a card that is accepted. A refusal is longer.
const ACCEPTED: &[u8] = b"900070";

// The card of the worked month.
const WORKED: Case = Case {
    line: b"102000001388138800141388001413880014138800141388001413880014138800146C",
    answer: ACCEPTED,
};

// Cards that are accepted.
const TAKEN: [Case; 6] = [
    WORKED,
    // Every field 0.
    Case {
        line: b"10200000000000000000000000000000000000000000000000000000000000000000D0",
        answer: ACCEPTED,
    },
    // Cap 0.
    Case {
        line: b"1020000000001388001413880014138800141388001413880014138800141388001407",
        answer: ACCEPTED,
    },
    // Cap 99,999,999.
    Case {
        line: b"102005F5E0FF138800141388001413880014138800141388001413880014138800142E",
        answer: ACCEPTED,
    },
    // Cap 99,999,999, rates 65,535.
    Case {
        line: b"102005F5E0FFFFFFFFFFFFFFFFFFFFFFFFFFFFFFFFFFFFFFFFFFFFFFFFFFFFFFFFFF13",
        answer: ACCEPTED,
    },
    // Every rate different.
    Case {
        line: b"102000001388006400C8006500C9006600CA006700CB006800CC006900CD006A00CED7",
        answer: ACCEPTED,
    },
];

// Numbers 2 and 3.
const CHARACTERS: [Case; 15] = [
    // Nothing.
    Case {
        line: b"",
        answer: b"7F04020100007A",
    },
    // 5 characters.
    Case {
        line: b"10200",
        answer: b"7F04020100007A",
    },
    // 7 characters.
    Case {
        line: b"1020000",
        answer: b"7F04020100007A",
    },
    // A card without its last character.
    Case {
        line: b"102000001388138800141388001413880014138800141388001413880014138800146",
        answer: b"7F04020100007A",
    },
    // A card with a carriage return.
    Case {
        line: b"102000001388138800141388001413880014138800141388001413880014138800146C\r",
        answer: b"7F04020100007A",
    },
    // 129 characters.
    Case {
        line: b"000000000000000000000000000000000000000000000000000000000000000000000000000000000000000000000000000000000000000000000000000000000",
        answer: b"7F04020100007A",
    },
    // 130 characters.
    Case {
        line: b"0000000000000000000000000000000000000000000000000000000000000000000000000000000000000000000000000000000000000000000000000000000000",
        answer: b"7F04020100007A",
    },
    // First column.
    Case {
        line: b"G02000001388138800141388001413880014138800141388001413880014138800146C",
        answer: b"7F040301000178",
    },
    // A middle column.
    Case {
        line: b"1020000013881388001413880014138800 4138800141388001413880014138800146C",
        answer: b"7F040301002356",
    },
    // Lower case.
    Case {
        line: b"102000001388138800141388001413880014138800141388001413880014138800146c",
        answer: b"7F040301004633",
    },
    // A carriage return in the last column.
    Case {
        line: b"102000001388138800141388001413880014138800141388001413880014138800146\r",
        answer: b"7F040301004633",
    },
    // NUL.
    Case {
        line: b"1\02000001388138800141388001413880014138800141388001413880014138800146C",
        answer: b"7F040301000277",
    },
    // Byte 255.
    Case {
        line: b"10\xFF000001388138800141388001413880014138800141388001413880014138800146C",
        answer: b"7F040301000376",
    },
    // Column 128.
    Case {
        line: b"0000000000000000000000000000000000000000000000000000000000000000000000000000000000000000000000000000000000000000000000000000000Z",
        answer: b"7F0403010080F9",
    },
    // Two, the first counts.
    Case {
        line: b"10200000138z13880014138800141388001413880014138800141388001413880014zC",
        answer: b"7F040301000C6D",
    },
];

// Numbers 4 to 7, and lines that two of them fit.
const FRAMES: [Case; 23] = [
    // The sum is 1.
    Case {
        line: b"102000001388138800141388001413880014138800141388001413880014138800146D",
        answer: b"7F040402000077",
    },
    // Another rate.
    Case {
        line: b"102000001388198800141388001413880014138800141388001413880014138800146C",
        answer: b"7F040402000077",
    },
    // Kind 00.
    Case {
        line: b"000000",
        answer: b"7F040502000175",
    },
    // Kind 01, the worked post.
    Case {
        line: b"01340000000700FC0001000400000003E80000000000000000000000000000640000000000000000000000000000000000000000000074",
        answer: b"7F040502000175",
    },
    // Kind 05.
    Case {
        line: b"05060000000700FCF2",
        answer: b"7F040502000175",
    },
    // Kind 11.
    Case {
        line: b"112000001388138800141388001413880014138800141388001413880014138800146B",
        answer: b"7F040502000175",
    },
    // Kind 0F.
    Case {
        line: b"0F2000001388138800141388001413880014138800141388001413880014138800146D",
        answer: b"7F040502000175",
    },
    // Kind 90, the answer to a card.
    Case {
        line: b"900070",
        answer: b"7F040502000175",
    },
    // Kind 90 with a card in it.
    Case {
        line: b"90200000138813880014138800141388001413880014138800141388001413880014EC",
        answer: b"7F040502000175",
    },
    // Length byte 1F.
    Case {
        line: b"101F00001388138800141388001413880014138800141388001413880014138800146D",
        answer: b"7F040602000273",
    },
    // Length byte 21.
    Case {
        line: b"102100001388138800141388001413880014138800141388001413880014138800146B",
        answer: b"7F040602000273",
    },
    // Payload short.
    Case {
        line: b"10200000138813880014138800141388001413880014138800141388001413880080",
        answer: b"7F040602000273",
    },
    // Payload long.
    Case {
        line: b"10200000138813880014138800141388001413880014138800141388001413880014006C",
        answer: b"7F040602000273",
    },
    // Length byte and payload 31.
    Case {
        line: b"101F0000138813880014138800141388001413880014138800141388001413880081",
        answer: b"7F040602000273",
    },
    // Length byte and payload 33.
    Case {
        line: b"10210000138813880014138800141388001413880014138800141388001413880014006B",
        answer: b"7F040602000273",
    },
    // Length byte and payload 36, an eighth schedule.
    Case {
        line: b"1024000013881388001413880014138800141388001413880014138800141388001413880014B9",
        answer: b"7F040602000273",
    },
    // No payload.
    Case {
        line: b"1000F0",
        answer: b"7F040602000273",
    },
    // Cap 100,000,000.
    Case {
        line: b"102005F5E100138800141388001413880014138800141388001413880014138800142C",
        answer: b"7F040703000370",
    },
    // Cap 4,294,967,295.
    Case {
        line: b"1020FFFFFFFF138800141388001413880014138800141388001413880014138800140B",
        answer: b"7F040703000370",
    },
    // Cap 100,000,000, rates 0.
    Case {
        line: b"102005F5E10000000000000000000000000000000000000000000000000000000000F5",
        answer: b"7F040703000370",
    },
    // 4 before 5.
    Case {
        line: b"05060000000700FCF3",
        answer: b"7F040402000077",
    },
    // 5 before 6.
    Case {
        line: b"111F00001388138800141388001413880014138800141388001413880014138800146C",
        answer: b"7F040502000175",
    },
    // 6 before 7.
    Case {
        line: b"101F05F5E100138800141388001413880014138800141388001413880014138800142D",
        answer: b"7F040602000273",
    },
];

// The answer to a line stands in this buffer, and nothing past the answer.
fn check_answer(rt: &impl Abort, case: &Case, buffer: &mut [u8]) {
    let reply = take_card(case.line, buffer);
    let taken = case.answer.len() == ACCEPTED.len();
    assert_eq!(rt; reply.map(|reply| reply.card.is_ok()), Ok(taken));
    check_line(rt, reply.map(|reply| reply.length), buffer, case.answer);
}

fn check_card(rt: &impl Abort, case: &Case) {
    check_answer(rt, case, &mut [UNTOUCHED; 200]);
}

// Number 1 comes back, whatever the line, and the buffer is as it was.
fn check_short(rt: &impl Abort, line: &[u8], buffer: &mut [u8]) {
    check_refused(rt, take_card(line, buffer), (1, 1, 0));
    check_written(rt, buffer, b"");
}

#[test]
fn accepted_cards(rt: HostRuntime) {
    check_all(&rt, &TAKEN, check_card);
}

#[test]
fn refused_characters(rt: HostRuntime) {
    check_all(&rt, &CHARACTERS, check_card);
}

#[test]
fn refused_frames(rt: HostRuntime) {
    check_all(&rt, &FRAMES, check_card);
}

#[test]
fn shortest_buffer(rt: HostRuntime) {
    check_answer(&rt, &WORKED, &mut [UNTOUCHED; 128]);
}

#[test]
fn short_buffers(rt: HostRuntime) {
    check_short(&rt, WORKED.line, &mut [UNTOUCHED; 127]);
    check_short(&rt, WORKED.line, &mut []);
    check_short(&rt, b"", &mut [UNTOUCHED; 127]);
}
