// The card line.
use crate::problem::Problem;
use frame::LINE;
use oregon_card::{Card, take_card};

// The card on a line, or why it is refused.
pub fn read(line: &[u8]) -> Result<Card, Problem> {
    let mut answer = [0; LINE];
    let Ok(reply) = take_card(line, &mut answer) else {
        unreachable()
    };
    reply.card.map_err(Problem::Card)
}
