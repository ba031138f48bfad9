// The calls of a store.
ghost use Rattle.std.specs.Prelude.{◌≡◌, replicate, MatchBool, MatchResult};
ghost use Rattle.record.specs.Rows.{holding};
ghost use Rattle.slot.specs.Layout.{slot_bytes};
ghost use Rattle.store.specs.Changes.{Kept, Removed};
ghost use Rattle.store.specs.Table.{table_meaning};
ghost use Rattle.slots.specs.Cuts.{table_of, OneSlot};
ghost use Rattle.slots.proofs.Imaged.{image_lawful};

use crate::image::Image;
use crate::image::put::put;
use reading::{Fault, SiteMonth};
use record::Record;
use slot::{EMPTY, decode, encode};
use store::Store;

// A store over rows has the same bodies, and says why both stand.
impl<'a> Store for Image<'a> {
    ghost meaning = { λ store. table_meaning (table_of store.bytes.now) };

    ghost lawful = { λ store. image_lawful store.bytes.now store.lawful };

    #[tactic(auto, using(slots::proofs::Cutting::table_long))]
    fn capacity(&self) -> usize {
        slots::count(self.bytes)
    }

    #[tactic(auto, using(store::proofs::Stored::found_holds))]
    fn find(&self, at: SiteMonth) -> bool {
        self.place(at).is_some()
    }

    fn read(&self, at: SiteMonth, place: &mut Record) -> bool {
        let Some(i) = self.place(at) else {
            return false;
        };
        let Ok(Some(found)) = decode(slots::slot_at(self.bytes, i)) else {
            unreachable()
        };
        *place = found;
        true
    }

    // One slot's bytes change, or none where the record is refused.
    fn keep(&mut self, kept: &Record) -> Result<(), Fault>
        ensures kept { Kept (table_meaning (table_of self.old.bytes.now)) (holding kept.now.row) (table_meaning (table_of self.new.bytes.now)) result }
        ensures bytes { MatchResult result (λ _. OneSlot (slot_bytes kept.now.row) self.old.bytes.now self.new.bytes.now) (λ _. self.new.bytes.now ≡ self.old.bytes.now) }
    {
        let Some(i) = self.room(kept.at()) else {
            return Err(Fault::StoreFull);
        };
        put(self.bytes, i, &encode(kept));
        Ok(())
    }

    // One slot's bytes become zero, or none change where the site month is not held.
    fn remove(&mut self, at: SiteMonth) -> bool
        ensures removed { Removed (table_meaning (table_of self.old.bytes.now)) at (table_meaning (table_of self.new.bytes.now)) result }
        ensures bytes { MatchBool result (OneSlot (replicate 424 0) self.old.bytes.now self.new.bytes.now) (self.new.bytes.now ≡ self.old.bytes.now) }
    {
        let Some(i) = self.place(at) else {
            return false;
        };
        put(self.bytes, i, &EMPTY);
        true
    }
}
