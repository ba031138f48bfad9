// Requests that are refused, each with its number, layer and place.
use crate::refusal::{Refusal, check_refused};
use crate::table::check_all;
use request::Request;
use std::process::Abort;

// A line and its refusal.
#[derive(Clone, Copy)]
pub(crate) struct Refused {
    pub(crate) line: &'static [u8],
    pub(crate) refusal: Refusal,
}

// Number 2: the number of characters.
const LENGTHS: [Refused; 15] = [
    // Nothing.
    Refused {
        line: b"",
        refusal: (2, 1, 0),
    },
    // 1 character.
    Refused {
        line: b"0",
        refusal: (2, 1, 0),
    },
    // 2 characters.
    Refused {
        line: b"00",
        refusal: (2, 1, 0),
    },
    // 4 characters, which sum to 0.
    Refused {
        line: b"0000",
        refusal: (2, 1, 0),
    },
    // 5 characters.
    Refused {
        line: b"05060",
        refusal: (2, 1, 0),
    },
    // 7 characters.
    Refused {
        line: b"0506000",
        refusal: (2, 1, 0),
    },
    // A right line without its last character.
    Refused {
        line: b"05060000000700FCF",
        refusal: (2, 1, 0),
    },
    // A right line with a carriage return.
    Refused {
        line: b"05060000000700FCF2\r",
        refusal: (2, 1, 0),
    },
    // A right line with a line feed.
    Refused {
        line: b"05060000000700FCF2\n",
        refusal: (2, 1, 0),
    },
    // A right line with a space before it.
    Refused {
        line: b" 05060000000700FCF2",
        refusal: (2, 1, 0),
    },
    // A right post without its last character.
    Refused {
        line: b"01340000000700FC0001000400000003E8000000000000000000000000000064000000000000000000000000000000000000000000007",
        refusal: (2, 1, 0),
    },
    // 127 characters.
    Refused {
        line: b"0000000000000000000000000000000000000000000000000000000000000000000000000000000000000000000000000000000000000000000000000000000",
        refusal: (2, 1, 0),
    },
    // 129 characters.
    Refused {
        line: b"000000000000000000000000000000000000000000000000000000000000000000000000000000000000000000000000000000000000000000000000000000000",
        refusal: (2, 1, 0),
    },
    // 130 characters, which sum to 0.
    Refused {
        line: b"0000000000000000000000000000000000000000000000000000000000000000000000000000000000000000000000000000000000000000000000000000000000",
        refusal: (2, 1, 0),
    },
    // 256 characters, which sum to 0.
    Refused {
        line: b"0000000000000000000000000000000000000000000000000000000000000000000000000000000000000000000000000000000000000000000000000000000000000000000000000000000000000000000000000000000000000000000000000000000000000000000000000000000000000000000000000000000000000000",
        refusal: (2, 1, 0),
    },
];

// Number 3: a character that is no digit.
const DIGITS: [Refused; 32] = [
    // First column.
    Refused {
        line: b"G5060000000700FCF2",
        refusal: (3, 1, 1),
    },
    // Second column.
    Refused {
        line: b"0G060000000700FCF2",
        refusal: (3, 1, 2),
    },
    // Third column.
    Refused {
        line: b"05G60000000700FCF2",
        refusal: (3, 1, 3),
    },
    // A middle column.
    Refused {
        line: b"05060000G00700FCF2",
        refusal: (3, 1, 9),
    },
    // Last column but one.
    Refused {
        line: b"05060000000700FCG2",
        refusal: (3, 1, 17),
    },
    // Last column.
    Refused {
        line: b"05060000000700FCFG",
        refusal: (3, 1, 18),
    },
    // Column 110 of a post.
    Refused {
        line: b"01340000000700FC0001000400000003E8000000000000000000000000000064000000000000000000000000000000000000000000007Z",
        refusal: (3, 1, 110),
    },
    // Column 128 of 128.
    Refused {
        line: b"0000000000000000000000000000000000000000000000000000000000000000000000000000000000000000000000000000000000000000000000000000000Z",
        refusal: (3, 1, 128),
    },
    // Column 6 of 6.
    Refused {
        line: b"00000Z",
        refusal: (3, 1, 6),
    },
    // All columns.
    Refused {
        line: b"ZZZZZZ",
        refusal: (3, 1, 1),
    },
    // Lower-case f.
    Refused {
        line: b"05060000000700FCf2",
        refusal: (3, 1, 17),
    },
    // Lower-case a.
    Refused {
        line: b"050a0000000700FCF2",
        refusal: (3, 1, 4),
    },
    // A space.
    Refused {
        line: b"0506 000000700FCF2",
        refusal: (3, 1, 5),
    },
    // A space after a line of odd length.
    Refused {
        line: b"05060000000700FCF ",
        refusal: (3, 1, 18),
    },
    // A carriage return at the end of an even number.
    Refused {
        line: b"05060000000700FCF\r",
        refusal: (3, 1, 18),
    },
    // A tab.
    Refused {
        line: b"05060\x0900000700FCF2",
        refusal: (3, 1, 6),
    },
    // A line feed.
    Refused {
        line: b"0506000\n000700FCF2",
        refusal: (3, 1, 8),
    },
    // NUL.
    Refused {
        line: b"\05060000000700FCF2",
        refusal: (3, 1, 1),
    },
    // NUL in the last column.
    Refused {
        line: b"05060000000700FCF\0",
        refusal: (3, 1, 18),
    },
    // Byte 127.
    Refused {
        line: b"050600000\x7F0700FCF2",
        refusal: (3, 1, 10),
    },
    // Byte 128.
    Refused {
        line: b"0506000000\x80700FCF2",
        refusal: (3, 1, 11),
    },
    // Byte 176, which is 48 and 128.
    Refused {
        line: b"05060000000\xB000FCF2",
        refusal: (3, 1, 12),
    },
    // Byte 255.
    Refused {
        line: b"050600000007\xFF0FCF2",
        refusal: (3, 1, 13),
    },
    // The character before 0.
    Refused {
        line: b"05/60000000700FCF2",
        refusal: (3, 1, 3),
    },
    // The character after 9.
    Refused {
        line: b"05:60000000700FCF2",
        refusal: (3, 1, 3),
    },
    // The character before A.
    Refused {
        line: b"05@60000000700FCF2",
        refusal: (3, 1, 3),
    },
    // The character after F.
    Refused {
        line: b"05G60000000700FCF2",
        refusal: (3, 1, 3),
    },
    // The character before a.
    Refused {
        line: b"05`60000000700FCF2",
        refusal: (3, 1, 3),
    },
    // A minus sign.
    Refused {
        line: b"05-60000000700FCF2",
        refusal: (3, 1, 3),
    },
    // 0x in front.
    Refused {
        line: b"0x05060000000700FCF2",
        refusal: (3, 1, 2),
    },
    // Two, the high digit of a byte and the low.
    Refused {
        line: b"050600gh000700FCF2",
        refusal: (3, 1, 7),
    },
    // Two far apart.
    Refused {
        line: b"0h060000000700FCFg",
        refusal: (3, 1, 2),
    },
];

// Number 4: the sum of the bytes.
const SUMS: [Refused; 9] = [
    // Check byte one too great.
    Refused {
        line: b"05060000000700FCF3",
        refusal: (4, 2, 0),
    },
    // Check byte one too small.
    Refused {
        line: b"05060000000700FCF1",
        refusal: (4, 2, 0),
    },
    // Check byte 00.
    Refused {
        line: b"05060000000700FC00",
        refusal: (4, 2, 0),
    },
    // Another month.
    Refused {
        line: b"05060000000700FDF2",
        refusal: (4, 2, 0),
    },
    // A cancel sent as a close.
    Refused {
        line: b"04080000000700FC0001F2",
        refusal: (4, 2, 0),
    },
    // The sum is 1.
    Refused {
        line: b"000001",
        refusal: (4, 2, 0),
    },
    // The sum is 255.
    Refused {
        line: b"FF0000",
        refusal: (4, 2, 0),
    },
    // The sum is 128.
    Refused {
        line: b"404000",
        refusal: (4, 2, 0),
    },
    // A post with another check byte.
    Refused {
        line: b"01340000000700FC0001000400000003E80000000000000000000000000000640000000000000000000000000000000000000000000075",
        refusal: (4, 2, 0),
    },
];

// Number 5: kinds that are not requests.
const KINDS: [Refused; 12] = [
    // Kind 00.
    Refused {
        line: b"000000",
        refusal: (5, 2, 1),
    },
    // Kind 00, 128 characters.
    Refused {
        line: b"00000000000000000000000000000000000000000000000000000000000000000000000000000000000000000000000000000000000000000000000000000000",
        refusal: (5, 2, 1),
    },
    // Kind 06.
    Refused {
        line: b"0606000000000000F4",
        refusal: (5, 2, 1),
    },
    // Kind 10, the card.
    Refused {
        line: b"102000001388138800141388001413880014138800141388001413880014138800146C",
        refusal: (5, 2, 1),
    },
    // Kind 7F.
    Refused {
        line: b"7F040D05000962",
        refusal: (5, 2, 1),
    },
    // Kind 80.
    Refused {
        line: b"800080",
        refusal: (5, 2, 1),
    },
    // Kind 81, an answer to a post.
    Refused {
        line: b"8134000003B60000000000000DC3000000000000000000000332000000920000000000001388000000050000002600000004000000141D",
        refusal: (5, 2, 1),
    },
    // Kind 84, the answer to a close.
    Refused {
        line: b"84007C",
        refusal: (5, 2, 1),
    },
    // Kind 85, an answer to an account.
    Refused {
        line: b"85340000000000000000000000000000000000000000000000000000000000000000000000000000000000000000000000000000000047",
        refusal: (5, 2, 1),
    },
    // Kind 90.
    Refused {
        line: b"900070",
        refusal: (5, 2, 1),
    },
    // Kind FF.
    Refused {
        line: b"FF0001",
        refusal: (5, 2, 1),
    },
    // Kind 50.
    Refused {
        line: b"5006000000000000AA",
        refusal: (5, 2, 1),
    },
];

// Number 6: the length byte, the payload and the kind disagree.
const PAYLOADS: [Refused; 28] = [
    // Account: length byte 05.
    Refused {
        line: b"05050000000700FCF3",
        refusal: (6, 2, 2),
    },
    // Account: length byte 07.
    Refused {
        line: b"05070000000700FCF1",
        refusal: (6, 2, 2),
    },
    // Account: length byte 00.
    Refused {
        line: b"05000000000700FCF8",
        refusal: (6, 2, 2),
    },
    // Account: length byte FF.
    Refused {
        line: b"05FF0000000700FCF9",
        refusal: (6, 2, 2),
    },
    // Account: payload short.
    Refused {
        line: b"05060000000700EE",
        refusal: (6, 2, 2),
    },
    // Account: payload long.
    Refused {
        line: b"05060000000700FC00F2",
        refusal: (6, 2, 2),
    },
    // Account: no payload.
    Refused {
        line: b"0506F5",
        refusal: (6, 2, 2),
    },
    // Account: length byte and payload 5.
    Refused {
        line: b"05050000000700EF",
        refusal: (6, 2, 2),
    },
    // Account: length byte and payload 7.
    Refused {
        line: b"05070000000700FC00F1",
        refusal: (6, 2, 2),
    },
    // Account: length byte and payload 0.
    Refused {
        line: b"0500FB",
        refusal: (6, 2, 2),
    },
    // Account: length byte and payload 8, as a cancel has.
    Refused {
        line: b"05080000000700FC0001EF",
        refusal: (6, 2, 2),
    },
    // Close: length byte and payload 8, as a cancel has.
    Refused {
        line: b"04080000000700FC0001F0",
        refusal: (6, 2, 2),
    },
    // Close: length byte 08.
    Refused {
        line: b"04080000000700FCF1",
        refusal: (6, 2, 2),
    },
    // Close: no payload.
    Refused {
        line: b"0400FC",
        refusal: (6, 2, 2),
    },
    // Cancel: length byte and payload 6, as a close has.
    Refused {
        line: b"02060000000700FCF5",
        refusal: (6, 2, 2),
    },
    // Cancel: length byte 06.
    Refused {
        line: b"02060000000700FC0001F4",
        refusal: (6, 2, 2),
    },
    // Cancel: payload short.
    Refused {
        line: b"02080000000700FC00F3",
        refusal: (6, 2, 2),
    },
    // Cancel: payload long.
    Refused {
        line: b"02080000000700FC000100F2",
        refusal: (6, 2, 2),
    },
    // Post: length byte 33.
    Refused {
        line: b"01330000000700FC0001000400000003E80000000000000000000000000000640000000000000000000000000000000000000000000075",
        refusal: (6, 2, 2),
    },
    // Post: length byte 35.
    Refused {
        line: b"01350000000700FC0001000400000003E80000000000000000000000000000640000000000000000000000000000000000000000000073",
        refusal: (6, 2, 2),
    },
    // Post: payload short.
    Refused {
        line: b"01340000000700FC0001000400000003E800000000000000000000000000006400000000000000000000000000000000000000000074",
        refusal: (6, 2, 2),
    },
    // Post: payload long.
    Refused {
        line: b"01340000000700FC0001000400000003E8000000000000000000000000000064000000000000000000000000000000000000000000000074",
        refusal: (6, 2, 2),
    },
    // Post: length byte and payload 51.
    Refused {
        line: b"01330000000700FC0001000400000003E800000000000000000000000000006400000000000000000000000000000000000000000075",
        refusal: (6, 2, 2),
    },
    // Post: length byte and payload 53.
    Refused {
        line: b"01350000000700FC0001000400000003E8000000000000000000000000000064000000000000000000000000000000000000000000000073",
        refusal: (6, 2, 2),
    },
    // Post: length byte and payload 61, 128 characters.
    Refused {
        line: b"013D0000000700FC0001000400000003E8000000000000000000000000000064000000000000000000000000000000000000000000000000000000000000006B",
        refusal: (6, 2, 2),
    },
    // Post: no payload.
    Refused {
        line: b"0134CB",
        refusal: (6, 2, 2),
    },
    // Correction: length byte 52.
    Refused {
        line: b"03520000000700FC0001000400000003E80000000000000000000000000000640000000000000000000000000000000000000000000054",
        refusal: (6, 2, 2),
    },
    // Correction: length byte and payload 6.
    Refused {
        line: b"03060000000700FCF4",
        refusal: (6, 2, 2),
    },
];

// Number 7: each field above its limit, and the first of two.
const LIMITS: [Refused; 43] = [
    // Post: month 2,400.
    Refused {
        line: b"01340000000709600001000400000003E80000000000000000000000000000640000000000000000000000000000000000000000000007",
        refusal: (7, 3, 7),
    },
    // Post: month 65,535.
    Refused {
        line: b"013400000007FFFF0001000400000003E80000000000000000000000000000640000000000000000000000000000000000000000000072",
        refusal: (7, 3, 7),
    },
    // Correction: month 2,400.
    Refused {
        line: b"03340000000709600001000400000003E80000000000000000000000000000640000000000000000000000000000000000000000000005",
        refusal: (7, 3, 7),
    },
    // Cancel: month 2,400.
    Refused {
        line: b"0208000000070960000185",
        refusal: (7, 3, 7),
    },
    // Cancel: month 65,535.
    Refused {
        line: b"020800000007FFFF0001F0",
        refusal: (7, 3, 7),
    },
    // Close: month 2,400.
    Refused {
        line: b"040600000007096086",
        refusal: (7, 3, 7),
    },
    // Account: month 2,400.
    Refused {
        line: b"050600000007096085",
        refusal: (7, 3, 7),
    },
    // Flags 16.
    Refused {
        line: b"01340000000700FC0001000410000003E80000000000000000000000000000640000000000000000000000000000000000000000000064",
        refusal: (7, 3, 13),
    },
    // Flags 255.
    Refused {
        line: b"01340000000700FC00010004FF000003E80000000000000000000000000000640000000000000000000000000000000000000000000075",
        refusal: (7, 3, 13),
    },
    // Correction: flags 16.
    Refused {
        line: b"03340000000700FC0001000410000003E80000000000000000000000000000640000000000000000000000000000000000000000000062",
        refusal: (7, 3, 13),
    },
    // KWh 1,000,000.
    Refused {
        line: b"01340000000700FC0001000400000F424000000000000000000000000000006400000000000000000000000000000000000000000000CE",
        refusal: (7, 3, 14),
    },
    // KWh 4,294,967,295.
    Refused {
        line: b"01340000000700FC0001000400FFFFFFFF0000000000000000000000000000640000000000000000000000000000000000000000000063",
        refusal: (7, 3, 14),
    },
    // A demand of 100,000.
    Refused {
        line: b"01340000000700FC0001000400000003E800000000000186A000000000000064000000000000000000000000000000000000000000004D",
        refusal: (7, 3, 22),
    },
    // A demand of 2,147,483,648.
    Refused {
        line: b"01340000000700FC0001000400000003E800000000800000000000000000006400000000000000000000000000000000000000000000F4",
        refusal: (7, 3, 22),
    },
    // A demand of 4,294,967,295.
    Refused {
        line: b"01340000000700FC0001000400000003E800000000FFFFFFFF000000000000640000000000000000000000000000000000000000000078",
        refusal: (7, 3, 22),
    },
    // A peak-hours demand of 100,000.
    Refused {
        line: b"01340000000700FC0001000400000003E8000000000001869F000186A00000640000000000000000000000000000000000000000000027",
        refusal: (7, 3, 26),
    },
    // A peak-hours demand of 4,294,967,295.
    Refused {
        line: b"01340000000700FC0001000400000003E8000000000001869FFFFFFFFF0000640000000000000000000000000000000000000000000052",
        refusal: (7, 3, 26),
    },
    // Kvar 10,000.
    Refused {
        line: b"01340000000700FC0001000400000003E8000000000000000000000000271064000000000000000000000000000000000000000000003D",
        refusal: (7, 3, 30),
    },
    // Kvar 65,535.
    Refused {
        line: b"01340000000700FC0001000400000003E8000000000000000000000000FFFF640000000000000000000000000000000000000000000076",
        refusal: (7, 3, 30),
    },
    // Power factor 101.
    Refused {
        line: b"01340000000700FC0001000400000003E80000000000000000000000000000650000000000000000000000000000000000000000000073",
        refusal: (7, 3, 32),
    },
    // Power factor 255.
    Refused {
        line: b"01340000000700FC0001000400000003E80000000000000000000000000000FF00000000000000000000000000000000000000000000D9",
        refusal: (7, 3, 32),
    },
    // Earlier month 1: 10,000.
    Refused {
        line: b"01340000000700FC0001000400000003E8000000000000000000000000000064271000000000000000000000000000000000000000003D",
        refusal: (7, 3, 33),
    },
    // Earlier month 2: 10,000.
    Refused {
        line: b"01340000000700FC0001000400000003E8000000000000000000000000000064000027100000000000000000000000000000000000003D",
        refusal: (7, 3, 35),
    },
    // Earlier month 3: 10,000.
    Refused {
        line: b"01340000000700FC0001000400000003E8000000000000000000000000000064000000002710000000000000000000000000000000003D",
        refusal: (7, 3, 37),
    },
    // Earlier month 4: 10,000.
    Refused {
        line: b"01340000000700FC0001000400000003E8000000000000000000000000000064000000000000271000000000000000000000000000003D",
        refusal: (7, 3, 39),
    },
    // Earlier month 5: 10,000.
    Refused {
        line: b"01340000000700FC0001000400000003E8000000000000000000000000000064000000000000000027100000000000000000000000003D",
        refusal: (7, 3, 41),
    },
    // Earlier month 6: 10,000.
    Refused {
        line: b"01340000000700FC0001000400000003E8000000000000000000000000000064000000000000000000002710000000000000000000003D",
        refusal: (7, 3, 43),
    },
    // Earlier month 7: 10,000.
    Refused {
        line: b"01340000000700FC0001000400000003E8000000000000000000000000000064000000000000000000000000271000000000000000003D",
        refusal: (7, 3, 45),
    },
    // Earlier month 8: 10,000.
    Refused {
        line: b"01340000000700FC0001000400000003E8000000000000000000000000000064000000000000000000000000000027100000000000003D",
        refusal: (7, 3, 47),
    },
    // Earlier month 9: 10,000.
    Refused {
        line: b"01340000000700FC0001000400000003E8000000000000000000000000000064000000000000000000000000000000002710000000003D",
        refusal: (7, 3, 49),
    },
    // Earlier month 10: 10,000.
    Refused {
        line: b"01340000000700FC0001000400000003E8000000000000000000000000000064000000000000000000000000000000000000271000003D",
        refusal: (7, 3, 51),
    },
    // Earlier month 11: 10,000.
    Refused {
        line: b"01340000000700FC0001000400000003E8000000000000000000000000000064000000000000000000000000000000000000000027103D",
        refusal: (7, 3, 53),
    },
    // Earlier month 11: 65,535.
    Refused {
        line: b"01340000000700FC0001000400000003E80000000000000000000000000000640000000000000000000000000000000000000000FFFF76",
        refusal: (7, 3, 53),
    },
    // Correction: earlier month 6: 10,000.
    Refused {
        line: b"03340000000700FC0001000400000003E8000000000000000000000000000064000000000000000000002710000000000000000000003B",
        refusal: (7, 3, 43),
    },
    // Month and flags.
    Refused {
        line: b"01340000000709600001000410000003E800000000000000000000000000006400000000000000000000000000000000000000000000F7",
        refusal: (7, 3, 7),
    },
    // Flags and kWh.
    Refused {
        line: b"01340000000700FC0001000410000F424000000000000000000000000000006400000000000000000000000000000000000000000000BE",
        refusal: (7, 3, 13),
    },
    // KWh and demand.
    Refused {
        line: b"01340000000700FC0001000400000F424000000000000186A00000000000006400000000000000000000000000000000000000000000A7",
        refusal: (7, 3, 14),
    },
    // Both demands.
    Refused {
        line: b"01340000000700FC0001000400000003E800000000000186A0000186A00000640000000000000000000000000000000000000000000026",
        refusal: (7, 3, 22),
    },
    // Peak-hours demand and kvar.
    Refused {
        line: b"01340000000700FC0001000400000003E80000000000000005000186A02710640000000000000000000000000000000000000000000011",
        refusal: (7, 3, 26),
    },
    // Kvar and power factor.
    Refused {
        line: b"01340000000700FC0001000400000003E8000000000000000000000000271065000000000000000000000000000000000000000000003C",
        refusal: (7, 3, 30),
    },
    // Power factor and earlier month 1.
    Refused {
        line: b"01340000000700FC0001000400000003E8000000000000000000000000000065271000000000000000000000000000000000000000003C",
        refusal: (7, 3, 32),
    },
    // Earlier months 3 and 9.
    Refused {
        line: b"01340000000700FC0001000400000003E80000000000000000000000000000640000000027100000000000000000000027100000000006",
        refusal: (7, 3, 37),
    },
    // Every field above its limit.
    Refused {
        line: b"0134FFFFFFFFFFFFFFFFFFFFFFFFFFFFFFFFFFFFFFFFFFFFFFFFFFFFFFFFFFFFFFFFFFFFFFFFFFFFFFFFFFFFFFFFFFFFFFFFFFFFFFFFFF",
        refusal: (7, 3, 7),
    },
];

// Number 8: off-hours kWh above the kWh, peak-hours demand above the demand.
const EXCESSES: [Refused; 12] = [
    // Off-hours one above the kWh.
    Refused {
        line: b"01340000000700FC0001000400000003E8000003E900000000000000000000640000000000000000000000000000000000000000000088",
        refusal: (8, 3, 18),
    },
    // Off-hours 1, kWh 0.
    Refused {
        line: b"01340000000700FC000100040000000000000000010000000000000000000064000000000000000000000000000000000000000000005E",
        refusal: (8, 3, 18),
    },
    // Off-hours 1,000,000, kWh at the limit.
    Refused {
        line: b"01340000000700FC0001000400000F423F000F42400000000000000000000064000000000000000000000000000000000000000000003E",
        refusal: (8, 3, 18),
    },
    // Off-hours 2,147,483,648.
    Refused {
        line: b"01340000000700FC0001000400000003E880000000000000000000000000006400000000000000000000000000000000000000000000F4",
        refusal: (8, 3, 18),
    },
    // Off-hours 4,294,967,295.
    Refused {
        line: b"01340000000700FC0001000400000F423FFFFFFFFF000000000000000000006400000000000000000000000000000000000000000000D3",
        refusal: (8, 3, 18),
    },
    // Correction: off-hours.
    Refused {
        line: b"03340000000700FC0001000400000003E8000003E900000000000000000000640000000000000000000000000000000000000000000086",
        refusal: (8, 3, 18),
    },
    // Peak-hours demand one above the demand.
    Refused {
        line: b"01340000000700FC0001000400000003E800000000000000640000006500006400000000000000000000000000000000000000000000AB",
        refusal: (8, 3, 26),
    },
    // A peak-hours demand of 1 with no demand.
    Refused {
        line: b"01340000000700FC0001000400000003E80000000000000000000000010000640000000000000000000000000000000000000000000073",
        refusal: (8, 3, 26),
    },
    // Peak-hours demand at the limit.
    Refused {
        line: b"01340000000700FC0001000400000003E8000000000001869E0001869F0000640000000000000000000000000000000000000000000029",
        refusal: (8, 3, 26),
    },
    // Correction: peak-hours demand.
    Refused {
        line: b"03340000000700FC0001000400000003E800000000000000640000006500006400000000000000000000000000000000000000000000A9",
        refusal: (8, 3, 26),
    },
    // Both.
    Refused {
        line: b"01340000000700FC0001000400000003E8000003E9000000640000006500006400000000000000000000000000000000000000000000BF",
        refusal: (8, 3, 18),
    },
    // Correction: both.
    Refused {
        line: b"03340000000700FC000100040000000000FFFFFFFF000000000001869F000064000000000000000000000000000000000000000000003B",
        refusal: (8, 3, 18),
    },
];

// Lines that several numbers fit: the least is the answer.
const ORDER: [Refused; 21] = [
    // 2 before 3: odd.
    Refused {
        line: b"zzzzzzz",
        refusal: (2, 1, 0),
    },
    // 2 before 3: too few.
    Refused {
        line: b" ",
        refusal: (2, 1, 0),
    },
    // 2 before 3: too many.
    Refused {
        line: b"zzzzzzzzzzzzzzzzzzzzzzzzzzzzzzzzzzzzzzzzzzzzzzzzzzzzzzzzzzzzzzzzzzzzzzzzzzzzzzzzzzzzzzzzzzzzzzzzzzzzzzzzzzzzzzzzzzzzzzzzzzzzzzzzzz",
        refusal: (2, 1, 0),
    },
    // 2 before 4.
    Refused {
        line: b"05060000000700FCF",
        refusal: (2, 1, 0),
    },
    // 3 before 4.
    Refused {
        line: b"05060000000700FCFg",
        refusal: (3, 1, 18),
    },
    // 3 before 5.
    Refused {
        line: b"0000000000000000000000000000000000000000000000000000000000000000000000000000000000000000000000000000000000000000000000000000000g",
        refusal: (3, 1, 128),
    },
    // 3 before 6.
    Refused {
        line: b"050500g0000700FCF3",
        refusal: (3, 1, 7),
    },
    // 3 before 7.
    Refused {
        line: b"01340000000709600001000400000003E8000000000000000000000000000064000000000000000000000000000000000000000000000g",
        refusal: (3, 1, 110),
    },
    // 4 before 5.
    Refused {
        line: b"06060000000700FCF2",
        refusal: (4, 2, 0),
    },
    // 4 before 6.
    Refused {
        line: b"05050000000700FCF2",
        refusal: (4, 2, 0),
    },
    // 4 before 7.
    Refused {
        line: b"050600000007096080",
        refusal: (4, 2, 0),
    },
    // 4 before 8.
    Refused {
        line: b"01340000000700FC0001000400000000000000000100000000000000000000640000000000000000000000000000000000000000000050",
        refusal: (4, 2, 0),
    },
    // 5 before 6.
    Refused {
        line: b"06050000000700FCF2",
        refusal: (5, 2, 1),
    },
    // 5 before 7.
    Refused {
        line: b"060600000007096084",
        refusal: (5, 2, 1),
    },
    // 5 before 8.
    Refused {
        line: b"81340000000700FC00010004000000000000000001000000000000000000006400000000000000000000000000000000000000000000DE",
        refusal: (5, 2, 1),
    },
    // 6 before 7: post.
    Refused {
        line: b"01350000000709600001000400000003E8000000000000000000000000000064000000000000000000000000000000000000000000000006",
        refusal: (6, 2, 2),
    },
    // 6 before 7: account.
    Refused {
        line: b"050500000007096086",
        refusal: (6, 2, 2),
    },
    // 6 before 8.
    Refused {
        line: b"01350000000700FC000100040000000000000000010000000000000000000064000000000000000000000000000000000000000000005D",
        refusal: (6, 2, 2),
    },
    // 7 before 8: kWh.
    Refused {
        line: b"01340000000700FC0001000400000F4240000F42410000000000000000000064000000000000000000000000000000000000000000003C",
        refusal: (7, 3, 14),
    },
    // 7 before 8: peak-hours demand.
    Refused {
        line: b"01340000000700FC0001000400000003E80000000000000000000186A0000064000000000000000000000000000000000000000000004D",
        refusal: (7, 3, 26),
    },
    // 7 before 8: the last earlier demand.
    Refused {
        line: b"01340000000700FC0001000400000000000000000100000000000000010000640000000000000000000000000000000000000000271026",
        refusal: (7, 3, 53),
    },
];

fn check_request(rt: &impl Abort, case: &Refused) {
    check_refused(rt, Request::read(case.line), case.refusal);
}

#[test]
fn wrong_lengths(rt: HostRuntime) {
    check_all(&rt, &LENGTHS, check_request);
}

#[test]
fn wrong_digits(rt: HostRuntime) {
    check_all(&rt, &DIGITS, check_request);
}

#[test]
fn wrong_sums(rt: HostRuntime) {
    check_all(&rt, &SUMS, check_request);
}

#[test]
fn other_kinds(rt: HostRuntime) {
    check_all(&rt, &KINDS, check_request);
}

#[test]
fn wrong_payloads(rt: HostRuntime) {
    check_all(&rt, &PAYLOADS, check_request);
}

#[test]
fn above_limits(rt: HostRuntime) {
    check_all(&rt, &LIMITS, check_request);
}

#[test]
fn above_totals(rt: HostRuntime) {
    check_all(&rt, &EXCESSES, check_request);
}

#[test]
fn first_that_fits(rt: HostRuntime) {
    check_all(&rt, &ORDER, check_request);
}
