// The tables that can be staged.
ghost use Rattle.std.specs.Prelude.{◌≡◌, ◌++◌, Some, codes, ok_or, slice_index_or};
ghost use Rattle.std.specs.Fmt.{decimal};
ghost use Rattle.pending.specs.Tables.{IsNumberOf, table_index, table_of};

use std::error::Error;
use std::fmt;

#[derive(Clone, Copy, PartialEq, Eq, Debug)]
pub enum PendingTable {
    Calendar = 54,
    Outputs = 2053,
    Override = 2095,
}

impl PendingTable {
    // In directory order.
    pub const ALL: [PendingTable; 3] = [
        PendingTable::Calendar,
        PendingTable::Outputs,
        PendingTable::Override,
    ];

    // Its place in directory order, from 0.
    pub fn index(self) -> usize
        ensures value { result ≡ table_index self }
        ensures listed { slice_index_or PendingTable.ALL result self ≡ self }
    {
        // A match, as the numbers of the variants are the tables'.
        match self {
            PendingTable::Calendar => 0,
            PendingTable::Outputs => 1,
            PendingTable::Override => 2,
        }
    }
}

// Its table number, from which it can be found again.
impl From<PendingTable> for u16 {
    ghost from_gives = { IsNumberOf };

    fn from(table: PendingTable) -> u16 {
        table as u16
    }
}

// A number of no table that can be staged. An error type of this crate: it says that it is a table's.
#[derive(Clone, Copy, PartialEq, Eq, Debug)]
pub struct NotStaged(pub u16);

impl fmt::Display for NotStaged {
    ghost output = { λ e. Some (codes "table " ++ decimal e.0 ++ codes " cannot be staged") };

    fn fmt<W: fmt::Write>(&self, f: &mut fmt::Formatter<W>) -> fmt::Result {
        write!(f, "table {} cannot be staged", self.0)
    }
}

impl Error for NotStaged {}

// The table that has a number.
impl TryFrom<u16> for PendingTable {
    type Error = NotStaged;

    ghost try_from_gives = { λ number r. r ≡ ok_or (table_of number) (record { 0 = number }) };

    fn try_from(number: u16) -> Result<PendingTable, NotStaged> {
        match number {
            54 => Ok(PendingTable::Calendar),
            2053 => Ok(PendingTable::Outputs),
            2095 => Ok(PendingTable::Override),
            _ => Err(NotStaged(number)),
        }
    }
}
