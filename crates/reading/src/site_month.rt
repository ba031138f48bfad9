// A site and a month: what a record is kept under.
#[derive(Clone, Copy, Debug, PartialEq, Eq)]
pub struct SiteMonth {
    pub site: u32,
    // From January 2000 as 0.
    pub month: u16,
}
