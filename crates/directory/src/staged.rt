// Where the tables that can be staged lie: the content in force, and the one that waits.
// One match each, with a contract of its own: one function of a column would be asked for a column at each call.
ghost use Rattle.std.specs.Prelude.{◌≡◌};
ghost use Rattle.directory.specs.Geometry.{staged_length, current_block, pending_block};

use pending::table::PendingTable;

// The bytes of the content in force; the pending table has six more.
pub fn staged_length(table: PendingTable) -> u16
    ensures { result ≡ staged_length table }
{
    match table {
        PendingTable::Calendar => 120,
        PendingTable::Outputs => 60,
        PendingTable::Override => 16,
    }
}

// The block of the content in force.
pub fn current_block(table: PendingTable) -> u32
    ensures { result ≡ current_block table }
{
    match table {
        PendingTable::Calendar => 2,
        PendingTable::Outputs => 3,
        PendingTable::Override => 4,
    }
}

// The block of the pending content.
pub fn pending_block(table: PendingTable) -> u32
    ensures { result ≡ pending_block table }
{
    match table {
        PendingTable::Calendar => 5,
        PendingTable::Outputs => 6,
        PendingTable::Override => 7,
    }
}
