// The faults of the meter and of its services, each layer holding the one below.
ghost use Rattle.std.specs.Prelude.{◌≡◌};
ghost use Rattle.refusals.specs.declared.fault.MeterFault.TheVariants.{Memory};
ghost use Rattle.refusals.specs.declared.fault.ServiceFault.TheVariants.{Meter};

use memory::fault::MemoryFault;
use numbers::log::LogName;

#[derive(Clone, Copy, PartialEq, Eq, Debug)]
pub enum MeterFault {
    Memory(MemoryFault),
    // Block 0 is not in order.
    OutOfOrder,
    // A second is out of range.
    BadSecond,
    // The total of a log is above the limit.
    LogLimit(LogName),
}

#[derive(Clone, Copy, PartialEq, Eq, Debug)]
pub enum ServiceFault {
    Meter(MeterFault),
    // A buffer is too short: its length.
    ShortBuffer(u32),
    // A request is malformed.
    Malformed,
    UnknownService,
    // The key does not suffice.
    Clearance,
    // A table is unknown: its number, as asked for.
    UnknownTable(u16),
    // The table is not for this service.
    NoSuchUse,
    // A count or a part does not fit.
    BadPart,
    // A content is against its rules.
    BadContent,
    // There is nothing to answer yet.
    NotReady,
}

impl From<MemoryFault> for MeterFault {
    ghost from_gives = { λ e r. r ≡ Memory e };

    fn from(e: MemoryFault) -> MeterFault {
        MeterFault::Memory(e)
    }
}

impl From<MeterFault> for ServiceFault {
    ghost from_gives = { λ e r. r ≡ Meter e };

    fn from(e: MeterFault) -> ServiceFault {
        ServiceFault::Meter(e)
    }
}

impl From<MemoryFault> for ServiceFault {
    ghost from_gives = { λ e r. r ≡ Meter (Memory e) };

    fn from(e: MemoryFault) -> ServiceFault {
        ServiceFault::Meter(MeterFault::Memory(e))
    }
}
