// A meter reading as plain data: no limit is known to hold. The schedule and the flags are raw numbers by the rule that lent
// memory is plain.
ghost use Rattle.std.specs.Prelude.{◌≡◌, ◌<◌};
ghost use Rattle.reading.specs.Flags.{bit, primary_delivery, primary_metering, three_phase, multi_family};

#[derive(Clone, Copy, Debug, PartialEq, Eq)]
pub struct Entry {
    pub meter: u16,
    pub schedule: u16,
    pub flags: u8,
    // In percent.
    pub power_factor: u8,
    pub kwh: u32,
    // Of the kWh, those of the off-hours.
    pub off_hours: u32,
    // In tenths of a kW.
    pub demand: u32,
    // In tenths of a kW.
    pub peak_demand: u32,
    pub kvar: u16,
    // The load size in kW.
    pub load: u16,
}

// The flags by the sheets' names. They share the test of a bit: to call it with a flag's name as an argument is no plainer.
impl Entry {
    pub fn primary_delivery(&self) -> bool
        ensures { result ≡ primary_delivery self.now }
    {
        has_bit(self.flags, 0)
    }

    pub fn primary_metering(&self) -> bool
        ensures { result ≡ primary_metering self.now }
    {
        has_bit(self.flags, 1)
    }

    pub fn three_phase(&self) -> bool
        ensures { result ≡ three_phase self.now }
    {
        has_bit(self.flags, 2)
    }

    pub fn multi_family(&self) -> bool
        ensures { result ≡ multi_family self.now }
    {
        has_bit(self.flags, 3)
    }
}

// Whether a bit is set, the lowest being bit 0.
fn has_bit(flags: u8, k: u32) -> bool
    requires { k < 8 }
    ensures { result ≡ bit k flags }
{
    (flags >> k) & 1 == 1
}
