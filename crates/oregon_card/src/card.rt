// Oregon's card.
ghost use Rattle.std.specs.Prelude.{◌≡◌, ◌≤◌, true};
ghost use Rattle.oregon_card.specs.Layout.{rates_fit};
ghost use Rattle.oregon_card.specs.Rates.{supply_rates, low_income_rates};

mod prices;
mod read;
mod values;

use prices::Prices;
pub use read::{CardReply, take_card};

// The cap and the prices, those of schedules 4, 5, 23, 28, 29, 728 and 730 in this order.
#[derive(Clone, Copy)]
pub struct Card {
    // In cents.
    cap: u32,
    prices: [Prices; 7],
    ghost capped: { cap ≤ 99999999 },
    ghost supply_fits: { rates_fit (supply_rates prices) ≡ true },
    ghost low_income_fits: { rates_fit (low_income_rates prices) ≡ true },
}
