// The tariff block by Oregon's sheets: lines on standard input, one answer line for each on standard output.
#![tactic(auto)]

use line_reader::{Answered, BUFFER, LineReader};
use oregon_card::{Card, take_card};
use std::io;

// Takes cards until one is accepted or the input ends, and reads no more then.
fn main(rt: HostRuntime) -> io::Result<()> {
    let mut reader = LineReader::fused();
    match reader.answer(&rt, |line, buffer| Ok(answer_card(line, buffer)))? {
        Some(_) => eprintln!(rt;
            "oregon-lines: the card is accepted; serving requests is not built yet"
        ),
        None => Ok(()),
    }
}

// Answers a line as a card, which is found if it is accepted. oregon_serve has this step too: what the two share is
// `take_card`, and a crate of its own for the rest would be no plainer.
fn answer_card(line: &[u8], buffer: &mut [u8; BUFFER]) -> Answered<Card> {
    let Ok(reply) = take_card(line, buffer) else {
        unreachable()
    };
    Answered {
        length: reply.length,
        found: reply.card.ok(),
    }
}
