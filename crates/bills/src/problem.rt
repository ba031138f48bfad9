// What is wrong with a line.
use reading::Fault;
use std::fmt;

#[derive(Clone, Copy, Debug, PartialEq, Eq)]
pub enum Problem {
    // The card is refused.
    Card(Fault),
    // There are not ten fields.
    NotTen,
    // The first field is the name of no book.
    UnknownBook,
    NotANumber(Field),
    Above { field: Field, limit: u64 },
    // The off-hours kWh are above the kWh.
    AboveKwh,
    // The peak-hours demand is above the demand.
    AboveDemand,
    // The book lacks the schedule.
    Lacking,
    // A flag is not offered on the schedule.
    NotOffered,
}

// A number on a line.
#[derive(Clone, Copy, Debug, PartialEq, Eq)]
pub enum Field {
    Schedule,
    Flags,
    Kwh,
    OffHours,
    Demand,
    PeakDemand,
    Kvar,
    PowerFactor,
    LoadSize,
}

// The part of the line, and what is wrong there.
impl fmt::Display for Problem {
    fn fmt<W: fmt::Write>(&self, f: &mut fmt::Formatter<W>) -> fmt::Result {
        match self {
            Problem::Card(fault) => {
                let number = fault.number();
                let place = fault.place();
                write!(f, "card: refused {number}, place {place}")
            }
            Problem::NotTen => f.write_str("fields: ten are wanted"),
            Problem::UnknownBook => f.write_str("book: oregon or cooperative"),
            Problem::NotANumber(field) => write!(f, "{field}: not a number"),
            Problem::Above { field, limit } => write!(f, "{field}: above its limit of {limit}"),
            Problem::AboveKwh => write!(f, "{}: above the kWh", Field::OffHours),
            Problem::AboveDemand => write!(f, "{}: above the demand", Field::PeakDemand),
            Problem::Lacking => {
                let number = Fault::Schedule.number();
                write!(
                    f,
                    "{}: refused {number}, the book lacks it",
                    Field::Schedule
                )
            }
            Problem::NotOffered => {
                let number = Fault::Flag.number();
                write!(
                    f,
                    "{}: refused {number}, not offered on the schedule",
                    Field::Flags
                )
            }
        }
    }
}

impl fmt::Display for Field {
    fn fmt<W: fmt::Write>(&self, f: &mut fmt::Formatter<W>) -> fmt::Result {
        f.write_str(match self {
            Field::Schedule => "schedule",
            Field::Flags => "flags",
            Field::Kwh => "kWh",
            Field::OffHours => "off-hours kWh",
            Field::Demand => "demand",
            Field::PeakDemand => "peak-hours demand",
            Field::Kvar => "kvar",
            Field::PowerFactor => "power factor",
            Field::LoadSize => "load size",
        })
    }
}
