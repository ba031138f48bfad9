// A schedule's prices on the card, in thousandths of a cent per kWh.
#[derive(Clone, Copy)]
pub(crate) struct Prices {
    pub(crate) supply: u16,
    pub(crate) low_income: u16,
}
