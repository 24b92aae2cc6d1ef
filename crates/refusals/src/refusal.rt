// What is told of a fault of any layer: its cause, its place, and by the cause its layer and its answer code.
ghost use Rattle.std.specs.Prelude.{◌≡◌, ℕ};
ghost use Rattle.refusals.specs.declared.cause.Cause.{Cause as CauseOf};
ghost use Rattle.refusals.specs.Causes.{layer_of, code_of};
ghost use Rattle.refusals.specs.Refusals.{memory_cause, meter_cause, service_cause, memory_place, meter_place, service_place};

use crate::cause::{Cause, Layer};
use crate::fault::{MeterFault, ServiceFault};
use memory::fault::MemoryFault;
use numbers::service::AnswerCode;

pub trait Refusal {
    // The one cause and the one place of each fault.
    ghost cause_of: { Self → CauseOf };

    ghost place_of: { Self → ℕ };

    fn cause(&self) -> Cause
        ensures { result ≡ cause_of self.now };

    fn place(&self) -> u32
        ensures { result ≡ place_of self.now };

    fn layer(&self) -> Layer
        ensures { result ≡ layer_of (cause_of self.now) }
    {
        self.cause().layer()
    }

    fn code(&self) -> Option<AnswerCode>
        ensures { result ≡ code_of (cause_of self.now) }
    {
        self.cause().code()
    }
}

impl Refusal for MemoryFault {
    ghost cause_of = { memory_cause };

    ghost place_of = { memory_place };

    fn cause(&self) -> Cause {
        match self {
            MemoryFault::TooSmall(_) => Cause::TooSmall,
            MemoryFault::Corrupt(_) => Cause::Corrupt,
        }
    }

    fn place(&self) -> u32 {
        match self {
            MemoryFault::TooSmall(size) => *size,
            MemoryFault::Corrupt(block) => *block,
        }
    }
}

impl Refusal for MeterFault {
    ghost cause_of = { meter_cause };

    ghost place_of = { meter_place };

    fn cause(&self) -> Cause {
        match self {
            MeterFault::Memory(e) => e.cause(),
            MeterFault::OutOfOrder => Cause::OutOfOrder,
            MeterFault::BadSecond => Cause::BadSecond,
            MeterFault::LogLimit(_) => Cause::LogLimit,
        }
    }

    fn place(&self) -> u32 {
        match self {
            MeterFault::Memory(e) => e.place(),
            MeterFault::LogLimit(log) => u32::from(u8::from(*log)),
            _ => 0,
        }
    }
}

impl Refusal for ServiceFault {
    ghost cause_of = { service_cause };

    ghost place_of = { service_place };

    fn cause(&self) -> Cause {
        match self {
            ServiceFault::Meter(e) => e.cause(),
            ServiceFault::ShortBuffer(_) => Cause::ShortBuffer,
            ServiceFault::Malformed => Cause::Malformed,
            ServiceFault::UnknownService => Cause::UnknownService,
            ServiceFault::Clearance => Cause::Clearance,
            ServiceFault::UnknownTable(_) => Cause::UnknownTable,
            ServiceFault::NoSuchUse => Cause::NoSuchUse,
            ServiceFault::BadPart => Cause::BadPart,
            ServiceFault::BadContent => Cause::BadContent,
            ServiceFault::NotReady => Cause::NotReady,
        }
    }

    fn place(&self) -> u32 {
        match self {
            ServiceFault::Meter(e) => e.place(),
            ServiceFault::ShortBuffer(length) => *length,
            ServiceFault::UnknownTable(number) => u32::from(*number),
            _ => 0,
        }
    }
}
