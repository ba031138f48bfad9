// The entries of a record.
ghost use Rattle.std.specs.Prelude.{◌≡◌, ◌-◌, ◌<◌, true, [], ◌∷◌, ◌++◌, length, take, is_ok, MatchResult};
ghost use Rattle.std.specs.List.{insert, remove, list_all};
ghost use Rattle.record.specs.Holding.{lawful_reading};
ghost use Rattle.record.specs.Meters.{rising, stands, StandsAt, BelongsAt, blank as blank_entry};
ghost use Rattle.record.specs.Rows.{is_blank};

use crate::row::BLANK;
use reading::{Entry, Reading};

// Whether each is a lawful reading.
pub(crate) fn all_lawful(entries: &[Entry]) -> bool
    ensures { result ≡ list_all lawful_reading entries.now }
{
    entries.iter().all(lawful)
}

// Whether an entry is a lawful reading.
fn lawful(entry: &Entry) -> bool
    ensures { result ≡ lawful_reading entry.now }
{
    Reading::try_from(*entry).is_ok()
}

// Whether each is zero.
pub(crate) fn all_blank(entries: &[Entry]) -> bool
    ensures { result ≡ list_all is_blank entries.now }
{
    entries.iter().all(|entry| *entry == BLANK)
}

// Whether the meters rise.
pub(crate) fn climbing(entries: &[Entry]) -> bool
    ensures { result ≡ rising entries.now }
{
    entries.is_sorted_by(|entry, next| entry.meter < next.meter)
}

// Where the reading of a meter stands, else where it would be put.
pub(crate) fn search(entries: &[Entry], meter: u16) -> Result<usize, usize>
    requires { rising entries.now ≡ true }
    ensures found { is_ok result ≡ stands meter entries.now }
    ensures place { MatchResult result (StandsAt meter entries.now) (BelongsAt meter entries.now) }
{
    entries.binary_search_by_key(&meter, |entry| entry.meter)
}

// Puts an entry at a place and moves those from there on up by one. The last falls out.
#[tactic(auto, using(crate::proofs::Turning::inserted))]
pub(crate) fn insert(entries: &mut [Entry], place: usize, entry: Entry)
    requires { place < length entries.old }
    ensures { entries.new ≡ insert (take (length entries.old - 1) entries.old) place entry }
{
    entries[place..].rotate_right(1);
    entries[place] = entry;
}

// Takes the entry at a place out and moves those behind it down by one. The last is zero.
#[tactic(auto, using(crate::proofs::Turning::removed))]
pub(crate) fn remove(entries: &mut [Entry], place: usize)
    requires { place < length entries.old }
    ensures { entries.new ≡ remove entries.old place ++ blank_entry ∷ [] }
{
    let last = entries.len() - 1;
    entries[place..].rotate_left(1);
    entries[last] = BLANK;
}
