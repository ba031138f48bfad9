// What a store holds, found and kept.
ghost use Rattle.std.specs.Prelude.{◌≡◌};
ghost use Rattle.store.specs.Meaning.{look_up};
ghost use Rattle.account.specs.Change.{Left};
ghost use Rattle.account.specs.Readings.{found};

use crate::held::Held;
use reading::{Fault, Reading, SiteMonth};
use record::{BLANK, Record};
use store::Store;

impl Held {
    // What a store holds under a site month.
    pub(crate) fn find<S: Store>(store: &S, at: SiteMonth) -> Held
        ensures at { result.at ≡ at }
        ensures value { found result.kept ≡ look_up at (S.Store.meaning store.now).held }
    {
        let mut place = placeholder();
        let kept = store.read(at, &mut place).then_some(place);
        Held { at, kept }
    }

    // Keeps the record in a store, or takes the site month's out where there is none.
    pub(crate) fn keep<S: Store>(&self, store: &mut S) -> Result<(), Fault>
        ensures { Left (S.Store.meaning store.old) self.now.at (found self.now.kept) (S.Store.meaning store.new) result }
    {
        match &self.kept {
            Some(record) => store.keep(record),
            None => {
                store.remove(self.at);
                Ok(())
            }
        }
    }
}

// A record to read into.
fn placeholder() -> Record {
    let Ok(reading) = Reading::try_from(BLANK) else {
        unreachable()
    };
    Record::new(SiteMonth { site: 0, month: 0 }, &reading)
}
