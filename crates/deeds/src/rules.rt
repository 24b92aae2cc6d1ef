// What is a right table of the tariff.
ghost use Rattle.std.specs.Prelude.{◌≡◌, length};
ghost use Rattle.pending.specs.declared.table.PendingTable.TheVariants.{Calendar, Override};
ghost use Rattle.directory.specs.Geometry.{staged_length};
ghost use Rattle.model.specs.Tariffs.{is_tier, all_tiers, is_right};

use numbers::tier::Tier;
use pending::table::PendingTable;

fn is_tier(byte: u8) -> bool
    ensures { result ≡ is_tier byte }
{
    Tier::try_from(byte).is_ok()
}

fn are_tiers(bytes: &[u8]) -> bool
    ensures { result ≡ all_tiers bytes.now }
{
    bytes.iter().all(|byte| is_tier(*byte))
}

// Slices here: the contents come as parts of requests and of blocks, and an array would want a conversion that cannot fail.
// No other bit of byte 0, a weekday, an hour, a minute, and a tier for each hour.
fn is_right_calendar(table: &[u8]) -> bool
    requires { length table.now ≡ staged_length Calendar }
    ensures { result ≡ is_right Calendar table.now }
{
    table[0] < 4 && table[1] < 7 && table[2] < 24 && table[3] < 60 && are_tiers(&table[4..28])
}

// A tier, or 0 for none.
fn is_right_override(table: &[u8]) -> bool
    requires { length table.now ≡ staged_length Override }
    ensures { result ≡ is_right Override table.now }
{
    table[0] <= 4
}

// Whether a whole content is a right one of its table.
pub(crate) fn is_right(table: PendingTable, content: &[u8]) -> bool
    requires { length content.now ≡ staged_length table }
    ensures { result ≡ is_right table content.now }
{
    match table {
        PendingTable::Calendar => is_right_calendar(content),
        PendingTable::Outputs => true,
        PendingTable::Override => is_right_override(content),
    }
}
