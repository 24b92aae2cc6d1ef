// Requests, read from their bytes.
ghost use Rattle.std.specs.Prelude.{◌≡◌, ◌<◌};
ghost use Rattle.request.specs.Sent.{ReadRight};
ghost use Rattle.request.specs.Asks.{ask_of, asked, table_of, service_of, full_read_ask, partial_read_ask, full_write_ask, partial_write_ask, ask_in};

use crate::reader::Reader;
use numbers::service::Service;
use refusals::fault::ServiceFault;

#[derive(Clone, Copy)]
pub enum Request<'a> {
    FullRead {
        table: u16,
    },
    PartialRead {
        table: u16,
        offset: u32,
        count: u16,
    },
    FullWrite {
        table: u16,
        content: &'a [u8],
    },
    PartialWrite {
        table: u16,
        offset: u32,
        content: &'a [u8],
    },
}

impl Request<'_> {
    pub fn table(&self) -> u16
        ensures { result ≡ table_of (ask_of self.now) }
    {
        match self {
            Request::FullRead { table }
            | Request::PartialRead { table, .. }
            | Request::FullWrite { table, .. }
            | Request::PartialWrite { table, .. } => *table,
        }
    }

    pub fn service(&self) -> Service
        ensures { result ≡ service_of (ask_of self.now) }
    {
        match self {
            Request::FullRead { .. } => Service::FullRead,
            Request::PartialRead { .. } => Service::PartialRead,
            Request::FullWrite { .. } => Service::FullWrite,
            Request::PartialWrite { .. } => Service::PartialWrite,
        }
    }
}

// Each asks for a reader behind the service byte: a definition would only rename `≡ 1`.
fn full_read(mut fields: Reader<'_>) -> Result<Request<'_>, ServiceFault>
    requires { fields.at ≡ 1 }
    ensures { asked result ≡ full_read_ask fields.entry.bytes.now }
{
    let table = fields.next16()?;
    fields.end()?;
    Ok(Request::FullRead { table })
}

fn partial_read(mut fields: Reader<'_>) -> Result<Request<'_>, ServiceFault>
    requires { fields.at ≡ 1 }
    ensures { asked result ≡ partial_read_ask fields.entry.bytes.now }
{
    let table = fields.next16()?;
    let offset = fields.next24()?;
    let count = fields.next16()?;
    fields.end()?;
    Ok(Request::PartialRead {
        table,
        offset,
        count,
    })
}

fn full_write(mut fields: Reader<'_>) -> Result<Request<'_>, ServiceFault>
    requires { fields.at ≡ 1 }
    ensures { asked result ≡ full_write_ask fields.entry.bytes.now }
{
    let table = fields.next16()?;
    let count = fields.next16()?;
    let content = fields.content(count)?;
    Ok(Request::FullWrite { table, content })
}

fn partial_write(mut fields: Reader<'_>) -> Result<Request<'_>, ServiceFault>
    requires { fields.at ≡ 1 }
    ensures { asked result ≡ partial_write_ask fields.entry.bytes.now }
{
    let table = fields.next16()?;
    let offset = fields.next24()?;
    let count = fields.next16()?;
    let content = fields.content(count)?;
    Ok(Request::PartialWrite {
        table,
        offset,
        content,
    })
}

// Not in `parse`: tried, but that a request is read right follows from this equation, which no branch has by itself.
fn by_service(bytes: &[u8]) -> Result<Request<'_>, ServiceFault>
    ensures { asked result ≡ ask_in bytes.now }
{
    let service = bytes.first().ok_or(ServiceFault::Malformed)?;
    let fields = Reader::after_service(bytes);
    match Service::try_from(*service) {
        Ok(Service::FullRead) => full_read(fields),
        Ok(Service::PartialRead) => partial_read(fields),
        Ok(Service::FullWrite) => full_write(fields),
        Ok(Service::PartialWrite) => partial_write(fields),
        Err(_) => Err(ServiceFault::UnknownService),
    }
}

// The request that some bytes are, or why they are none.
#[tactic(auto, using(crate::proofs::ReadsRight::reads_right))]
pub fn parse(bytes: &[u8]) -> Result<Request<'_>, ServiceFault>
    ensures equation { asked result ≡ ask_in bytes.now }
    ensures right { ReadRight bytes.now (asked result) }
{
    by_service(bytes)
}
