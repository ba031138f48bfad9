// What a site month's record holds.
ghost use Rattle.std.specs.Prelude.{◌≡◌};
ghost use Rattle.std.specs.Result.{result_err};
ghost use Rattle.reading.specs.First.{when};
ghost use Rattle.reading.specs.declared.fault.Fault.TheVariants.{Closed};
ghost use Rattle.account.specs.Readings.{found, readings_of, closed_of};

use crate::held::Held;
use crate::readings::Readings;
use reading::Fault;

impl Held {
    // The readings that stand, none where there is no record.
    pub(crate) fn readings(&self) -> Readings<'_>
        ensures { result.entries.now ≡ readings_of (found self.now.kept) }
    {
        let entries = match &self.kept {
            Some(record) => record.readings(),
            None => &[],
        };
        Readings { entries }
    }

    // A refusal, where the record is closed.
    pub(crate) fn check_open(&self) -> Result<(), Fault>
        ensures { result_err result ≡ when (closed_of (found self.now.kept)) Closed }
    {
        match &self.kept {
            Some(record) if record.is_closed() => Err(Fault::Closed),
            _ => Ok(()),
        }
    }
}
