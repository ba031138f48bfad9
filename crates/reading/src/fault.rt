// Every refusal of the block, with the number, the layer and the place that an answer line reports.
ghost use Rattle.std.specs.Prelude.{◌≡◌};
ghost use Rattle.reading.specs.Refusal.{number_of, layer_of, place_of};

// Where a refusal arises. The discriminant is the layer's number on an answer line.
#[derive(Clone, Copy, Debug, PartialEq, Eq)]
pub enum Layer {
    Line = 1,
    Frame = 2,
    Reading = 3,
    Book = 4,
    Account = 5,
    Store = 6,
}

#[derive(Clone, Copy, Debug, PartialEq, Eq)]
pub enum Fault {
    // The answer buffer is too short.
    Buffer,
    // The line has an odd number of characters, too few or too many.
    LineLength,
    // The character in this column is no digit.
    Digit { column: u16 },
    // The bytes do not sum to a multiple of 256.
    Sum,
    // The kind is not served by the call.
    Kind,
    // The length byte is not the kind's payload length, or not the payload's.
    PayloadLength,
    // The field that begins at this byte of the frame is above its limit.
    Limit { byte: u16 },
    // The off-hours kWh exceed the kWh.
    OffHours,
    // The peak-hours demand exceeds the demand.
    PeakDemand,
    // The book lacks the schedule.
    Schedule,
    // A flag is not offered on the schedule.
    Flag,
    // The site month is closed.
    Closed,
    // The meter stands already.
    Standing,
    // The meter does not stand.
    NoMeter,
    // The site month is not held.
    NotHeld,
    // The record has sixteen readings.
    RecordFull,
    // The store holds its capacity.
    StoreFull,
    // The rows or the image cannot be taken into use.
    Unusable,
}

impl Fault {
    // The refusal's number.
    pub fn number(self) -> u8
        ensures { result ≡ number_of self }
    {
        match self {
            Fault::Buffer => 1,
            Fault::LineLength => 2,
            Fault::Digit { .. } => 3,
            Fault::Sum => 4,
            Fault::Kind => 5,
            Fault::PayloadLength => 6,
            Fault::Limit { .. } => 7,
            Fault::OffHours | Fault::PeakDemand => 8,
            Fault::Schedule => 9,
            Fault::Flag => 10,
            Fault::Closed => 11,
            Fault::Standing => 12,
            Fault::NoMeter | Fault::NotHeld => 13,
            Fault::RecordFull => 14,
            Fault::StoreFull => 15,
            Fault::Unusable => 16,
        }
    }

    // The layer in which the refusal arises.
    pub fn layer(self) -> Layer
        ensures { result ≡ layer_of self }
    {
        match self {
            Fault::Buffer | Fault::LineLength | Fault::Digit { .. } => Layer::Line,
            Fault::Sum | Fault::Kind | Fault::PayloadLength => Layer::Frame,
            Fault::Limit { .. } | Fault::OffHours | Fault::PeakDemand => Layer::Reading,
            Fault::Schedule | Fault::Flag => Layer::Book,
            Fault::Closed | Fault::Standing | Fault::NoMeter | Fault::NotHeld => Layer::Account,
            Fault::RecordFull => Layer::Account,
            Fault::StoreFull | Fault::Unusable => Layer::Store,
        }
    }

    // The place: a column of the line, a byte of the frame, or 0 for the whole.
    pub fn place(self) -> u16
        ensures { result ≡ place_of self }
    {
        match self {
            Fault::Buffer | Fault::LineLength | Fault::Sum | Fault::Unusable => 0,
            Fault::Digit { column } => column,
            Fault::Kind => 1,
            Fault::PayloadLength => 2,
            Fault::Limit { byte } => byte,
            Fault::OffHours => 18,
            Fault::PeakDemand => 26,
            Fault::Schedule => 11,
            Fault::Flag => 13,
            Fault::Closed | Fault::NotHeld | Fault::StoreFull => 3,
            Fault::Standing | Fault::NoMeter | Fault::RecordFull => 9,
        }
    }
}
