// Reading a card and answering its line.
ghost use Rattle.std.specs.Prelude.{◌≡◌, ◌+◌, ◌*◌, ◌≤◌, true, map, ◌<◌, length, IfOk};
ghost use Rattle.std.specs.List.{range_with_len};
ghost use Rattle.std.specs.Result.{result_err, result_map_both};
ghost use Rattle.frame.specs.Held.{held};
ghost use Rattle.frame.specs.Line.{bytes_of};
ghost use Rattle.frame.specs.Seal.{field};
ghost use Rattle.reading.specs.First.{first};
ghost use Rattle.frame.specs.Written.{Written};
ghost use Rattle.oregon_card.specs.Layout.{values_in, rates_fit, card_tests};
ghost use Rattle.oregon_card.specs.Rates.{prices_at as prices_in, supply_rates, low_income_rates};
ghost use Rattle.oregon_card.specs.Reply.{values, card_line, card_on};

use crate::card::Card;
use crate::card::prices::Prices;
use answer::Answer;
use frame::{Field, Frame};
use reading::Fault;
use std::array;

// The length of the answer line, and the card, or the refusal that was written. The length stands beside the caller's
// buffer, which the call fills.
#[derive(Clone, Copy)]
pub struct CardReply {
    pub length: usize,
    pub card: Result<Card, Fault>,
}

// The one kind that this call serves: an enum of one would be no plainer.
const KIND: u8 = 0x10;

const CAP: Field = Field { byte: 3, width: 4 };

// Answers a card line in a buffer of at least 128 bytes, and gives the card, or the refusal where the line is refused.
pub fn take_card(line: &[u8], answer: &mut [u8]) -> Result<CardReply, Fault>
    ensures written { Written (card_line line.now) answer.old answer.new (result_map_both (λ reply. reply.length) (λ fault. fault) result) }
    ensures card { IfOk result (λ reply. result_map_both values (λ fault. fault) reply.card ≡ card_on line.now) }
{
    let card = Card::read(line);
    let reply = match card {
        Ok(_) => Answer::CardAccepted,
        Err(fault) => Answer::Refused(fault),
    };
    let length = reply.write(answer)?;
    Ok(CardReply { length, card })
}

impl Card {
    // The card on a line, or the first refusal that fits the line.
    fn read(line: &[u8]) -> Result<Card, Fault>
        ensures refused { result_err result ≡ first (card_tests line.now) }
        ensures value { IfOk result (λ card. values card ≡ values_in (bytes_of line.now)) }
    {
        let frame = Frame::read(line)?;
        if frame.kind() != KIND {
            return Err(Fault::Kind);
        }
        frame.expect(32)?;
        let cap = frame.number(CAP);
        if cap > 99_999_999 {
            return Err(Fault::Limit { byte: 3 });
        }
        Ok(Card {
            cap,
            prices: prices(&frame),
        })
    }
}

// The prices of the seven schedules.
fn prices(frame: &Frame) -> [Prices; 7]
    requires { length (held frame.now) ≡ 35 }
    ensures value { result ≡ map (prices_in (held frame.now)) (range_with_len 0 7) }
    ensures supply_fits { rates_fit (supply_rates result) ≡ true }
    ensures low_income_fits { rates_fit (low_income_rates result) ≡ true }
{
    array::from_fn(|place| prices_at(frame, place))
}

// The prices of the schedule at a place. They lie four bytes apart.
fn prices_at(frame: &Frame, place: usize) -> Prices
    requires { (length (held frame.now) ≡ 35) × (place < 7) }
    ensures { result ≡ prices_in (held frame.now) place }
{
    Prices {
        supply: rate(frame, 7 + 4 * place),
        low_income: rate(frame, 9 + 4 * place),
    }
}

// The rate at a byte of the frame.
fn rate(frame: &Frame, byte: usize) -> u16
    requires { (1 ≤ byte) × (byte + 1 ≤ length (held frame.now)) }
    ensures { result ≡ field (held frame.now) byte 2 }
{
    frame.number(Field { byte, width: 2 }) as u16
}
