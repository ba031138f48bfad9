// Edits of a record. Each gives the record that it leaves.
ghost use Rattle.std.specs.Prelude.{◌≡◌, ◌≤◌, true, false, [], ◌∷◌, IfOk, MatchOption, OnOk};
ghost use Rattle.std.specs.Result.{result_err};
ghost use Rattle.reading.specs.First.{first};
ghost use Rattle.record.specs.Edits.{added, replaced, taken_out, Puts, Takes, with_readings, add_tests, meter_test};
ghost use Rattle.record.specs.Meters.{StandsAt};
ghost use Rattle.record.specs.Rows.{holding};

use crate::entries;
use crate::record::Record;
use crate::row::{BLANK, READINGS, Row, State};
use reading::{Fault, Reading, SiteMonth};

impl Record {
    // The open record of one reading. The limit of the month is asked for, and no fact of a SiteMonth: a look-up takes any.
    pub fn new(at: SiteMonth, reading: &Reading) -> Record
        requires { at.month ≤ 2399 }
        ensures { holding result.row ≡ record { at = at; closed = false; readings = reading.now.entry ∷ [] } }
    {
        let mut entries = [BLANK; READINGS];
        entries[0] = reading.entry();
        let row = Row {
            at,
            state: State::Open,
            count: 1,
            entries,
        };
        Record { row }
    }

    // The record with a reading added in order.
    pub fn with(&self, reading: &Reading) -> Result<Record, Fault>
        ensures refused { result_err result ≡ first (add_tests reading.now.entry (holding self.now.row).readings) }
        ensures value { IfOk result (λ x. holding x.row ≡ with_readings (added reading.now.entry (holding self.now.row).readings) (holding self.now.row)) }
        ensures meters { IfOk result (λ x. Puts reading.now.entry (holding self.now.row).readings (holding x.row).readings) }
    {
        let entry = reading.entry();
        let Err(place) = entries::search(self.readings(), entry.meter) else {
            return Err(Fault::Standing);
        };
        if self.row.count == READINGS {
            return Err(Fault::RecordFull);
        }
        let count = self.row.count + 1;
        let mut entries = self.row.entries;
        entries::insert(&mut entries[..count], place, entry);
        let row = Row {
            count,
            entries,
            ..self.row
        };
        Ok(Record { row })
    }

    // The record with a reading in the place of its meter's.
    pub fn replacing(&self, reading: &Reading) -> Result<Record, Fault>
        ensures refused { result_err result ≡ meter_test reading.now.entry.meter (holding self.now.row).readings }
        ensures value { IfOk result (λ x. holding x.row ≡ with_readings (replaced reading.now.entry (holding self.now.row).readings) (holding self.now.row)) }
        ensures meters { IfOk result (λ x. Puts reading.now.entry (holding self.now.row).readings (holding x.row).readings) }
    {
        let entry = reading.entry();
        let place = self.standing(entry.meter)?;
        let mut row = self.row;
        row.entries[place] = entry;
        Ok(Record { row })
    }

    // The record with a meter's reading taken out, or nothing where that was its last.
    #[tactic(auto, using(crate::proofs::Editing::takes_taken, crate::proofs::Edited::without_is, crate::proofs::Edited::without_lawful, crate::proofs::Laws::laws))]
    pub fn without(&self, meter: u16) -> Result<Option<Record>, Fault>
        ensures refused { result_err result ≡ meter_test meter (holding self.now.row).readings }
        ensures value { IfOk result (λ left. MatchOption left (taken_out meter (holding self.now.row).readings ≡ []) (λ x. holding x.row ≡ with_readings (taken_out meter (holding self.now.row).readings) (holding self.now.row))) }
        ensures meters { OnOk result (Takes meter (holding self.now.row).readings (taken_out meter (holding self.now.row).readings)) }
    {
        let place = self.standing(meter)?;
        let count = self.row.count;
        if count == 1 {
            return Ok(None);
        }
        let mut entries = self.row.entries;
        entries::remove(&mut entries[..count], place);
        let row = Row {
            count: count - 1,
            entries,
            ..self.row
        };
        Ok(Some(Record { row }))
    }

    // Where the reading of a meter stands.
    fn standing(&self, meter: u16) -> Result<usize, Fault>
        ensures refused { result_err result ≡ meter_test meter (holding self.now.row).readings }
        ensures value { IfOk result (StandsAt meter (holding self.now.row).readings) }
    {
        entries::search(self.readings(), meter).or(Err(Fault::NoMeter))
    }

    // The record closed.
    pub fn closed(&self) -> Record
        ensures { holding result.row ≡ record { at = (holding self.now.row).at; closed = true; readings = (holding self.now.row).readings } }
    {
        let mut row = self.row;
        row.state = State::Closed;
        Record { row }
    }
}
