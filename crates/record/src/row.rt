// A record as plain data: no rule is known to hold.
ghost use Rattle.std.specs.Prelude.{◌≡◌};
ghost use Rattle.record.specs.Rows.{keyed};
ghost use Rattle.record.specs.States.{used, is_closed};

use reading::{Entry, SiteMonth};

// The most readings of a record.
pub const READINGS: usize = 16;

// An entry that is not in use.
pub const BLANK: Entry = Entry {
    meter: 0,
    schedule: 0,
    flags: 0,
    power_factor: 0,
    kwh: 0,
    off_hours: 0,
    demand: 0,
    peak_demand: 0,
    kvar: 0,
    load: 0,
};

#[derive(Clone, Copy, Debug, PartialEq, Eq)]
pub enum State {
    // No record is kept here.
    Empty,
    Open,
    Closed,
}

impl State {
    // Whether a record is kept here.
    pub fn is_used(self) -> bool
        ensures { result ≡ used self }
    {
        self != State::Empty
    }

    pub fn is_closed(self) -> bool
        ensures { result ≡ is_closed self }
    {
        self == State::Closed
    }
}

// Plain data with a count beside the entries, by the rule that rows in lent memory and entries in a record are plain.
#[derive(Clone, Copy, Debug, PartialEq, Eq)]
pub struct Row {
    pub at: SiteMonth,
    pub state: State,
    // How many of the entries are in use, from the first on.
    pub count: usize,
    pub entries: [Entry; READINGS],
}

// A row that is not in use.
pub const VACANT: Row = Row {
    at: SiteMonth { site: 0, month: 0 },
    state: State::Empty,
    count: 0,
    entries: [BLANK; READINGS],
};

impl Row {
    // Whether the row has the record of a site month.
    pub fn is_of(&self, at: SiteMonth) -> bool
        ensures { result ≡ keyed at self.now }
    {
        self.state.is_used() && self.at == at
    }
}
