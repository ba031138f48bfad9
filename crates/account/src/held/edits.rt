// Edits of what is held. Each gives what it leaves.
ghost use Rattle.std.specs.Prelude.{◌≡◌, ◌≤◌, true, not, [], ◌∷◌, is_some, IfOk, Some};
ghost use Rattle.std.specs.Option.{option_map};
ghost use Rattle.std.specs.Result.{result_err};
ghost use Rattle.reading.specs.First.{when, first};
ghost use Rattle.reading.specs.declared.fault.Fault.TheVariants.{Closed, NotHeld};
ghost use Rattle.record.specs.Edits.{added, replaced, taken_out, add_tests, meter_test};
ghost use Rattle.record.specs.Holding.{Holding};
ghost use Rattle.record.specs.Rows.{holding};
ghost use Rattle.account.specs.Readings.{found, readings_of, closed_of};

use crate::held::Held;
use reading::{Fault, Reading};
use record::Record;

impl Held {
    ghost use Rattle.account.specs.Edits.{Edited};

    // With a reading more, in a new record where there is none.
    pub(crate) fn adding(&self, reading: &Reading) -> Result<Held, Fault>
        requires { self.now.at.month ≤ 2399 }
        ensures refused { result_err result ≡ first (add_tests reading.now.entry (readings_of (found self.now.kept))) }
        ensures value { IfOk result (Edited self.now (added reading.now.entry)) }
    {
        let kept = match &self.kept {
            Some(record) => record.with(reading)?,
            None => Record::new(self.at, reading),
        };
        Ok(Held {
            at: self.at,
            kept: Some(kept),
        })
    }

    // With a reading in the place of its meter's.
    pub(crate) fn replacing(&self, reading: &Reading) -> Result<Held, Fault>
        ensures refused { result_err result ≡ meter_test reading.now.entry.meter (readings_of (found self.now.kept)) }
        ensures value { IfOk result (Edited self.now (replaced reading.now.entry)) }
    {
        let record = self.kept.as_ref().ok_or(Fault::NoMeter)?;
        let kept = record.replacing(reading)?;
        Ok(Held {
            at: self.at,
            kept: Some(kept),
        })
    }

    // With a meter's reading taken out, and the record with its last.
    pub(crate) fn without(&self, meter: u16) -> Result<Held, Fault>
        ensures refused { result_err result ≡ meter_test meter (readings_of (found self.now.kept)) }
        ensures value { IfOk result (Edited self.now (taken_out meter)) }
    {
        let record = self.kept.as_ref().ok_or(Fault::NoMeter)?;
        let kept = record.without(meter)?;
        Ok(Held { at: self.at, kept })
    }

    // The record closed, where it is held and open.
    pub(crate) fn closed(&self) -> Result<Record, Fault>
        ensures refused { result_err result ≡ first (when (closed_of (found self.now.kept)) Closed ∷ when (not (is_some (found self.now.kept))) NotHeld ∷ []) }
        ensures value { IfOk result (λ x. Some (holding x.row) ≡ option_map (λ (h : Holding). record { at = h.at; closed = true; readings = h.readings }) (found self.now.kept)) }
    {
        self.check_open()?;
        let record = self.kept.as_ref().ok_or(Fault::NotHeld)?;
        Ok(record.closed())
    }
}
