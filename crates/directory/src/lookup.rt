// Tables by their numbers.
ghost use Rattle.std.specs.Prelude.{◌≡◌, IfSome, IfOk};
ghost use Rattle.std.specs.List.{AllByRecursion};
ghost use Rattle.directory.specs.Tables.{directory, Inside, FoundInside, lookup, listed, twin_of, numbered, find_table};
ghost use Rattle.directory.specs.Lawful.{Lawful};

use crate::entry::{Access, DIRECTORY, Source, TableEntry};
use refusals::fault::ServiceFault;

// What the number and the length of a pending twin have more than its table's.
const TWIN_NUMBER: u16 = 4096;

const TWIN_LENGTH: u16 = 6;

fn find_listed(number: u16) -> Option<TableEntry>
    ensures entry { result ≡ listed number }
    ensures found { IfSome result (FoundInside number) }
{
    tables().iter().find(|row| row.number == number).copied()
}

// The pending twin of a table under its own number; only a staged table has one.
fn twin(number: u16, entry: TableEntry) -> Option<TableEntry>
    requires { Inside entry }
    ensures entry { result ≡ twin_of number entry }
    ensures found { IfSome result (FoundInside number) }
{
    match entry.source {
        Source::Staged(table) => Some(TableEntry {
            number,
            length: entry.length + TWIN_LENGTH,
            block: None,
            pending: entry.pending,
            access: Access::Pending,
            source: Source::Pending(table),
        }),
        _ => None,
    }
}

fn find_numbered(number: u16) -> Option<TableEntry>
    ensures entry { result ≡ numbered number }
    ensures found { IfSome result (FoundInside number) }
{
    if number < TWIN_NUMBER {
        return find_listed(number);
    }
    twin(number, find_listed(number - TWIN_NUMBER)?)
}

// The listed tables, with what stands for all of them.
pub fn tables() -> [TableEntry; 12]
    ensures value { result ≡ directory }
    ensures laws { Lawful result }
{
    DIRECTORY
}

// The table that has a number; a pending twin has one too.
pub fn find(number: u16) -> Result<TableEntry, ServiceFault>
    ensures entry { result ≡ find_table number }
    ensures found { IfOk result (FoundInside number) }
{
    find_numbered(number).ok_or(ServiceFault::UnknownTable(number))
}
