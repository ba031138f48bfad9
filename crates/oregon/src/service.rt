// A reading served on a schedule.
ghost use Rattle.std.specs.Prelude.{◌≡◌, IfOk, Some};
ghost use Rattle.std.specs.Result.{result_err};
ghost use Rattle.reading.specs.Limits.{Limits};
ghost use Rattle.oregon_card.specs.Schedules.{schedule_of, check};

use oregon_card::Schedule;
use reading::{Entry, Fault, Reading};

#[derive(Clone, Copy)]
pub(crate) struct Service {
    pub(crate) schedule: Schedule,
    pub(crate) entry: Entry,
    ghost limits: { Limits entry },
}

impl Service {
    // The service of a reading, or the refusal where no schedule serves it. No TryFrom: the
    // member would repeat these three clauses.
    pub(crate) fn of(reading: &Reading) -> Result<Service, Fault>
        ensures refused { result_err result ≡ check reading.now.entry }
        ensures entry { IfOk result (λ service. service.entry ≡ reading.now.entry) }
        ensures schedule { IfOk result (λ service. schedule_of reading.now.entry.schedule ≡ Some service.schedule) }
    {
        let entry = reading.entry();
        let schedule = Schedule::serving(&entry)?;
        Ok(Service { schedule, entry })
    }
}
