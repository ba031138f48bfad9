// Units, which are ten-millionths of a cent, and whole cents.
ghost use Rattle.std.specs.Prelude.{◌≡◌, ◌*◌, ◌^◌, ◌≤◌};
ghost use Rattle.book.specs.Money.{half_up, rounded as rounded_to};

// A cent in units.
pub const CENT: u64 = 10_000_000;

// Units to whole cents, a half going up.
pub fn half_up(units: u64) -> u64
    ensures { result ≡ half_up units }
{
    let whole = units / CENT;
    if units % CENT >= CENT / 2 {
        whole + 1
    } else {
        whole
    }
}

// Units rounded to whole cents, in units again.
pub fn rounded(units: u64) -> u64
    requires { units ≤ 10 ^ 18 }
    ensures { result ≡ rounded_to units }
{
    CENT * half_up(units)
}
