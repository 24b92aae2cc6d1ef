// What a table may be used for.
ghost use Rattle.std.specs.Prelude.{◌≡◌, IfOk};
ghost use Rattle.directory.specs.Tables.{Inside};
ghost use Rattle.directory.specs.Uses.{allows, table_for, count_verdict};

use crate::entry::{Access, Source, TableEntry};
use crate::lookup::find;
use numbers::service::Service;
use refusals::fault::ServiceFault;

// The fewest bytes that start a procedure.
const LEAST_INITIATE: u16 = 3;

impl Access {
    // Whether a service is one of these uses.
    pub fn allows(self, service: Service) -> bool
        ensures { result ≡ allows self service }
    {
        match self {
            Access::Read => matches!(service, Service::FullRead | Service::PartialRead),
            Access::ReadWrite => true,
            Access::FullWrite => matches!(service, Service::FullWrite),
            Access::Pending => !matches!(service, Service::PartialWrite),
        }
    }
}

impl TableEntry {
    // Whether so many bytes are a whole content of the table.
    pub fn check_count(&self, count: usize) -> Result<(), ServiceFault>
        ensures { result ≡ count_verdict self.now count }
    {
        let least = match self.source {
            Source::Initiate => LEAST_INITIATE,
            _ => self.length,
        };
        if (usize::from(least)..=usize::from(self.length)).contains(&count) {
            Ok(())
        } else {
            Err(ServiceFault::BadPart)
        }
    }
}

// The table that has a number, if the service may use it.
pub fn table_for(number: u16, service: Service) -> Result<TableEntry, ServiceFault>
    ensures entry { result ≡ table_for number service }
    ensures inside { IfOk result Inside }
{
    let entry = find(number)?;
    if !entry.access.allows(service) {
        return Err(ServiceFault::NoSuchUse);
    }
    Ok(entry)
}
