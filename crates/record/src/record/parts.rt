// What a record holds.
ghost use Rattle.std.specs.Prelude.{◌≡◌, ◌≤◌, true, length};
ghost use Rattle.std.specs.List.{list_all};
ghost use Rattle.record.specs.Holding.{lawful_reading};
ghost use Rattle.record.specs.Meters.{rising};
ghost use Rattle.record.specs.Rows.{holding, lawful_row};

use crate::record::Record;
use crate::row::Row;
use reading::{Entry, SiteMonth};

impl Record {
    // The record as a row, which is the only lawful one of these values.
    pub fn row(&self) -> &Row
        ensures value { result.now ≡ self.now.row }
        ensures lawful { lawful_row result.now ≡ true }
        ensures only { (other : Row) → lawful_row other ≡ true → holding other ≡ holding result.now → other ≡ result.now }
    {
        &self.row
    }

    // The site month.
    pub fn at(&self) -> SiteMonth
        ensures { result ≡ (holding self.now.row).at }
    {
        self.row.at
    }

    pub fn is_closed(&self) -> bool
        ensures { result ≡ (holding self.now.row).closed }
    {
        self.row.state.is_closed()
    }

    // The readings, in rising meter order.
    pub fn readings(&self) -> &[Entry]
        ensures value { result.now ≡ (holding self.now.row).readings }
        ensures least { 1 ≤ length result.now }
        ensures most { length result.now ≤ 16 }
        ensures each { list_all lawful_reading result.now ≡ true }
        ensures order { rising result.now ≡ true }
    {
        &self.row.entries[0..self.row.count]
    }
}
