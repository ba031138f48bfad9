// The interface of a store.
ghost use Rattle.std.specs.Prelude.{◌≡◌};
ghost use Rattle.record.specs.Rows.{holding};
ghost use Rattle.store.specs.Changes.{Copied, Kept, Removed};
ghost use Rattle.store.specs.Meaning.{Meaning, Lawful, look_up, holds};

use reading::{Fault, SiteMonth};
use record::Record;

// The most records of a store.
pub const MOST: usize = 1024;

// What a store means is its ghost member `meaning`, and what it keeps `lawful`.
pub trait Store {
    ghost meaning: { Self → Meaning };

    ghost lawful: { (store : Self) → Lawful (meaning store) };

    // How many records the store may hold.
    fn capacity(&self) -> usize
        ensures { result ≡ (meaning self.now).capacity };

    // Whether a site month is held.
    fn find(&self, at: SiteMonth) -> bool
        ensures { result ≡ holds at (meaning self.now).held };

    // Copies the record of a site month to the caller's place, and says whether it is held. If not, the place stays. The
    // place is the caller's by a rule of a store.
    fn read(&self, at: SiteMonth, place: &mut Record) -> bool
        ensures found { result ≡ holds at (meaning self.now).held }
        ensures after { Copied (look_up at (meaning self.now).held) place.old.row place.new.row };

    // Puts a record under its site month. It is refused if that site month is new and the store holds its capacity.
    fn keep(&mut self, kept: &Record) -> Result<(), Fault>
        ensures { Kept (meaning self.old) (holding kept.now.row) (meaning self.new) result };

    // Takes the record of a site month away, and says whether it was held. Its room then serves any other.
    fn remove(&mut self, at: SiteMonth) -> bool
        ensures { Removed (meaning self.old) at (meaning self.new) result };
}
