// The tariff block by Oregon's sheets: lines on standard input, one answer line for each on standard output.
#![tactic(auto)]

use line_reader::{Answered, BUFFER, LineReader};
use oregon::Oregon;
use oregon_account::serve_oregon;
use oregon_card::{Card, take_card};
use record::VACANT;
use row_store::Rows;
use std::io;

// How many site months the program holds.
const ROWS: usize = 64;

// Takes lines as cards until one is accepted, then as requests.
fn main(rt: HostRuntime) -> io::Result<()> {
    let mut rows = [VACANT; ROWS];
    let mut store = Rows::open(&mut rows);
    let mut reader = LineReader::new();
    let Some(card) = reader.answer(&rt, |line, buffer| Ok(answer_card(line, buffer)))? else {
        return Ok(());
    };
    let oregon = Oregon { card };
    reader.answer(
        &rt,
        |line, buffer| Ok(answer_request(&oregon, &mut store, line, buffer)),
    )?;
    Ok(())
}

// Answers a line as a card, which is found if it is accepted. oregon_lines has this step too, and says why.
fn answer_card(line: &[u8], buffer: &mut [u8; BUFFER]) -> Answered<Card> {
    let Ok(reply) = take_card(line, buffer) else {
        unreachable()
    };
    Answered {
        length: reply.length,
        found: reply.card.ok(),
    }
}

// Answers a line as a request. coop_lines does the same by another call, which is all that the step is.
fn answer_request(
    oregon: &Oregon,
    store: &mut Rows<'_>,
    line: &[u8],
    buffer: &mut [u8; BUFFER],
) -> Answered<()> {
    let Ok(length) = serve_oregon(oregon, store, line, buffer) else {
        unreachable()
    };
    Answered {
        length,
        found: None,
    }
}
