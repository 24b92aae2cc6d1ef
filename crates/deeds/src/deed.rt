// What a request is decided to do.
ghost use Rattle.std.specs.Prelude.{◌≡◌};
ghost use Rattle.deeds.specs.Deeds.{deed_of, writes};

use directory::entry::TableEntry;
use pending::table::PendingTable;
use request::part::Part;

#[derive(Clone, Copy)]
pub enum Deed<'a> {
    // A part of a table is read.
    Read {
        table: TableEntry,
        part: Part,
    },
    // Bytes are written from a place of a table on.
    Write {
        table: TableEntry,
        from: u32,
        content: &'a [u8],
    },
    // A table is staged: six trigger bytes, and then its content.
    Stage {
        table: TableEntry,
        pending: PendingTable,
        content: &'a [u8],
    },
    // A procedure is called.
    Call {
        content: &'a [u8],
    },
}

impl Deed<'_> {
    // Whether it is more than a read.
    pub fn is_write(&self) -> bool
        ensures { result ≡ writes (deed_of self.now) }
    {
        !matches!(self, Deed::Read { .. })
    }
}
