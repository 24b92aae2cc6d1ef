// The status of an interval record, a byte of two flags.
ghost use Rattle.std.specs.Prelude.{◌≡◌, ◌++◌, Some, codes};
ghost use Rattle.std.specs.Fmt.{decimal};
ghost use Rattle.records.specs.Statuses.{status_byte, IsStatusOf};

use std::error::Error;
use std::fmt;

// What happened since the previous interval record.
#[derive(Clone, Copy, PartialEq, Eq, Debug)]
pub struct Status {
    pub started: bool,
    pub clock_set: bool,
}

impl From<Status> for u8 {
    ghost from_gives = { λ status byte. byte ≡ status_byte status };

    fn from(status: Status) -> u8 {
        u8::from(status.started) + 2 * u8::from(status.clock_set)
    }
}

// A byte in which an unused bit is set. An error type of this crate: it says what it is that has no such byte.
#[derive(Clone, Copy, PartialEq, Eq, Debug)]
pub struct NoStatus(pub u8);

impl fmt::Display for NoStatus {
    ghost output = { λ e. Some (codes "no status has the byte " ++ decimal e.0) };

    fn fmt<W: fmt::Write>(&self, f: &mut fmt::Formatter<W>) -> fmt::Result {
        write!(f, "no status has the byte {}", self.0)
    }
}

impl Error for NoStatus {}

impl TryFrom<u8> for Status {
    type Error = NoStatus;

    ghost try_from_gives = { IsStatusOf };

    #[tactic(auto, using(crate::specs::Readings::status_reads))]
    fn try_from(byte: u8) -> Result<Status, NoStatus> {
        if byte >= 4 {
            return Err(NoStatus(byte));
        }
        Ok(Status {
            started: byte % 2 == 1,
            clock_set: byte / 2 == 1,
        })
    }
}
