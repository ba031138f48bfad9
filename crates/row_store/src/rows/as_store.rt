// Rows as a store.
ghost use Rattle.std.specs.Prelude.{◌≡◌, MatchBool, MatchResult};
ghost use Rattle.record.specs.Rows.{holding, vacant};
ghost use Rattle.store.specs.Changes.{Kept, Removed};
ghost use Rattle.store.specs.Table.{table_meaning, OneRow};
ghost use Rattle.store.proofs.Stored.{table_lawful};

use crate::rows::Rows;
use reading::{Fault, SiteMonth};
use record::{Record, VACANT};
use store::Store;

// An image's store has the same bodies, but each promises of its own memory what changes there. A trait below both would have six
// calls with laws for these five: how many rows there are, the two searches, and a row read, written and emptied.
impl<'a> Store for Rows<'a> {
    ghost meaning = { λ store. table_meaning store.rows.now };

    ghost lawful = { λ store. table_lawful store.rows.now store.lawful store.least store.most };

    fn capacity(&self) -> usize {
        self.rows.len()
    }

    #[tactic(auto, using(store::proofs::Searching::found_position, store::proofs::Stored::found_holds))]
    fn find(&self, at: SiteMonth) -> bool {
        self.position(at).is_some()
    }

    fn read(&self, at: SiteMonth, place: &mut Record) -> bool {
        let Some(i) = self.position(at) else {
            return false;
        };
        let Ok(found) = Record::try_from(self.rows[i]) else {
            unreachable()
        };
        *place = found;
        true
    }

    // One row changes, or none where the record is refused.
    fn keep(&mut self, kept: &Record) -> Result<(), Fault>
        ensures kept { Kept (table_meaning self.old.rows.now) (holding kept.now.row) (table_meaning self.new.rows.now) result }
        ensures rows { MatchResult result (λ _. OneRow kept.now.row self.old.rows.now self.new.rows.now) (λ _. self.new.rows.now ≡ self.old.rows.now) }
    {
        let row = *kept.row();
        let Some(i) = self.room(row.at) else {
            return Err(Fault::StoreFull);
        };
        self.rows[i] = row;
        Ok(())
    }

    // One row becomes vacant, or none changes where the site month is not held.
    fn remove(&mut self, at: SiteMonth) -> bool
        ensures removed { Removed (table_meaning self.old.rows.now) at (table_meaning self.new.rows.now) result }
        ensures rows { MatchBool result (OneRow vacant self.old.rows.now self.new.rows.now) (self.new.rows.now ≡ self.old.rows.now) }
    {
        let Some(i) = self.position(at) else {
            return false;
        };
        self.rows[i] = VACANT;
        true
    }
}
