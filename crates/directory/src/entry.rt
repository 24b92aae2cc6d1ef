// The directory: the tables in the order of their numbers. The pending twins are not listed.
use numbers::log::LogName;
use pending::table::PendingTable;

// A table that is made from the meter's state when it is read.
#[derive(Clone, Copy)]
pub enum View {
    PendingStatus,
    Response,
    Registers,
    Clock,
}

// Where the bytes of a table come from, or go.
#[derive(Clone, Copy)]
pub enum Source {
    Computed(View),
    // What starts a procedure.
    Initiate,
    // The start of the utility block.
    Utility,
    // The start of the block in force.
    Staged(PendingTable),
    // The trigger bytes, and then the start of the pending block.
    Pending(PendingTable),
    // The head and the slots of a log.
    Log(LogName),
}

// What a table may be used for. Read and write mean full and partial.
#[derive(Clone, Copy)]
pub enum Access {
    Read,
    ReadWrite,
    // Only a full write.
    FullWrite,
    // Reads and a full write: the pending twin of a table.
    Pending,
}

#[derive(Clone, Copy)]
pub struct TableEntry {
    pub number: u16,
    // The most bytes that it has; only the start of a procedure can have fewer.
    pub length: u16,
    // The block at whose start it is, or the first of its blocks.
    pub block: Option<u32>,
    // The block in which a new content waits.
    pub pending: Option<u32>,
    pub access: Access,
    pub source: Source,
}

pub const DIRECTORY: [TableEntry; 12] = [
    TableEntry {
        number: 4,
        length: 31,
        block: None,
        pending: None,
        access: Access::Read,
        source: Source::Computed(View::PendingStatus),
    },
    TableEntry {
        number: 6,
        length: 40,
        block: Some(1),
        pending: None,
        access: Access::ReadWrite,
        source: Source::Utility,
    },
    TableEntry {
        number: 7,
        length: 9,
        block: None,
        pending: None,
        access: Access::FullWrite,
        source: Source::Initiate,
    },
    TableEntry {
        number: 8,
        length: 4,
        block: None,
        pending: None,
        access: Access::Read,
        source: Source::Computed(View::Response),
    },
    TableEntry {
        number: 23,
        length: 20,
        block: None,
        pending: None,
        access: Access::Read,
        source: Source::Computed(View::Registers),
    },
    TableEntry {
        number: 26,
        length: 634,
        block: Some(10),
        pending: None,
        access: Access::Read,
        source: Source::Log(LogName::SelfReads),
    },
    TableEntry {
        number: 52,
        length: 6,
        block: None,
        pending: None,
        access: Access::Read,
        source: Source::Computed(View::Clock),
    },
    TableEntry {
        number: 54,
        length: 120,
        block: Some(2),
        pending: Some(5),
        access: Access::ReadWrite,
        source: Source::Staged(PendingTable::Calendar),
    },
    TableEntry {
        number: 64,
        length: 7402,
        block: Some(12),
        pending: None,
        access: Access::Read,
        source: Source::Log(LogName::LoadProfile),
    },
    TableEntry {
        number: 74,
        length: 1030,
        block: Some(8),
        pending: None,
        access: Access::Read,
        source: Source::Log(LogName::History),
    },
    TableEntry {
        number: 2053,
        length: 60,
        block: Some(3),
        pending: Some(6),
        access: Access::ReadWrite,
        source: Source::Staged(PendingTable::Outputs),
    },
    TableEntry {
        number: 2095,
        length: 16,
        block: Some(4),
        pending: Some(7),
        access: Access::ReadWrite,
        source: Source::Staged(PendingTable::Override),
    },
];
