// From the bytes of a request to what it is to do.
ghost use Rattle.std.specs.Prelude.{◌≡◌, IfOk};
ghost use Rattle.request.specs.Asks.{ask_of};
ghost use Rattle.request.specs.Parts.{part_verdict};
ghost use Rattle.directory.specs.Uses.{table_for};
ghost use Rattle.model.specs.Requests.{key_verdict, answerable, write_all, fitted, decided};
ghost use Rattle.deeds.specs.Deeds.{deed_of, decided_as, Safe};

use crate::deed::Deed;
use directory::entry::{Source, TableEntry};
use directory::usage::table_for;
use numbers::service::{Key, Service};
use refusals::fault::ServiceFault;
use request::part::Part;
use request::request::{Request, parse};

// The most bytes of a table that an answer has room for.
const MOST_READ: u16 = 1024;

// A read needs a key, a write the master's.
fn check_key(key: u8, request: &Request) -> Result<(), ServiceFault>
    ensures { result ≡ key_verdict key (ask_of request.now) }
{
    let key = Key::try_from(key).or(Err(ServiceFault::Clearance))?;
    match (request, key) {
        (Request::FullRead { .. } | Request::PartialRead { .. }, _) => Ok(()),
        (_, Key::Master) => Ok(()),
        (_, Key::Reader) => Err(ServiceFault::Clearance),
    }
}

// The deed of a read, if an answer has room for it.
fn read_part<'a>(table: TableEntry, part: Part) -> Result<Deed<'a>, ServiceFault>
    ensures { decided_as result ≡ answerable table part }
{
    if part.count > MOST_READ {
        return Err(ServiceFault::BadPart);
    }
    Ok(Deed::Read { table, part })
}

// The deed of a full write, by where the table's bytes go.
fn write_all(table: TableEntry, content: &[u8]) -> Deed<'_>
    ensures { deed_of result ≡ write_all table.source table content.now }
{
    match table.source {
        Source::Initiate => Deed::Call { content },
        Source::Pending(pending) => Deed::Stage {
            table,
            pending,
            content,
        },
        _ => Deed::Write {
            table,
            from: 0,
            content,
        },
    }
}

// A part for so many new bytes.
fn written_part(from: u32, count: usize, length: u16) -> Result<Part, ServiceFault>
    ensures { result ≡ part_verdict from count length }
{
    if count > length as usize {
        return Err(ServiceFault::BadPart);
    }
    Part::of(from, count as u16, length)
}

// The parts and counts that fit the table.
fn fit<'a>(table: TableEntry, request: Request<'a>) -> Result<Deed<'a>, ServiceFault>
    ensures { decided_as result ≡ fitted table (ask_of request.entry) }
{
    match request {
        Request::FullRead { .. } => read_part(table, Part::whole(table.length)),
        Request::PartialRead { offset, count, .. } => {
            read_part(table, Part::of(offset, count, table.length)?)
        }
        Request::FullWrite { content, .. } => {
            table.check_count(content.len())?;
            Ok(write_all(table, content))
        }
        Request::PartialWrite {
            offset,
            content,
            ..
        } => {
            let part = written_part(offset, content.len(), table.length)?;
            Ok(Deed::Write {
                table,
                from: part.from,
                content,
            })
        }
    }
}

// What the bytes of a request ask to be done with a key, or the first refusal.
#[tactic(auto, using(crate::proofs::Fitting::safe_to_act))]
pub fn decide(key: u8, bytes: &[u8]) -> Result<Deed<'_>, ServiceFault>
    ensures deed { decided_as result ≡ decided key bytes.now }
    ensures safe { IfOk result (λ d. Safe (deed_of d)) }
{
    let request = parse(bytes)?;
    check_key(key, &request)?;
    let table = table_for(request.table(), request.service())?;
    fit(table, request)
}
