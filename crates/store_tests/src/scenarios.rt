// Running a scenario over both stores, small ones and the largest.
use crate::note::Noted;
use crate::opened::{on_image, on_rows};
use record::VACANT;
use slot::SLOT;
use std::alloc::Global;
use std::process::Abort;
use std::test::*;
use store::Store;

// Played on a store that holds nothing.
// A trait, since a closure has one type of store; over a `&mut dyn Store` the proof does not close.
pub(crate) trait Scenario {
    fn play<S: Store>(rt: &impl Abort, store: &mut S);
}

const CAPACITIES: [usize; 4] = [1, 2, 5, 1_024];

// The scenario in each store of each capacity. A failure notes the capacity.
pub(crate) fn on_both<P: Scenario>(rt: &impl Abort, heap: Global) -> Result<(), Fail> {
    for capacity in CAPACITIES.iter() {
        let rt = &Noted(rt, *capacity);
        let mut rows = vec![in heap; VACANT; *capacity]?;
        let noted = &Noted(rt, "rows");
        on_rows(noted, rows.as_mut_slice(), |store| P::play(noted, store));
        let mut bytes = vec![in heap; 0u8; SLOT.wrapping_mul(*capacity)]?;
        let noted = &Noted(rt, "image");
        on_image(noted, bytes.as_mut_slice(), |store| P::play(noted, store));
    }
    Ok(())
}
