// Decimal numbers.
ghost use Rattle.std.specs.Prelude.{◌≡◌};
ghost use Rattle.bills.specs.Number.{number_in};

// The number that a text writes in one to ten digits. `parse` would take a plus sign too, and zeros without end.
#[tactic(auto, using(std::proofs::lemmas::List::Sums::fold_more, crate::proofs::Digits::digits_more, crate::proofs::Digits::value_fits, crate::proofs::Digits::stray))]
pub fn number(text: &[u8]) -> Option<u64>
    ensures { result ≡ number_in text.now }
{
    if text.is_empty() || text.len() > 10 {
        return None;
    }
    let mut value = 0;
    for byte in text {
        if !byte.is_ascii_digit() {
            return None;
        }
        value = 10 * value + u64::from(*byte - b'0');
    }
    Some(value)
}
