// What there is to be read.
ghost use Rattle.std.specs.Prelude.{◌≡◌, is_some, Option};
ghost use Rattle.model.specs.States.{Response};
ghost use Rattle.model.specs.Requests.{source_verdict, present_verdict};
ghost use Rattle.deeds.specs.Deeds.{deed_of};

use crate::deed::Deed;
use directory::entry::{Source, View};
use head::head::Head;
use refusals::fault::ServiceFault;

fn check_source(source: Source, has_response: bool, head: &Head) -> Result<(), ServiceFault>
    ensures { (response : Option Response) → is_some response ≡ has_response → result ≡ source_verdict source response head.now }
{
    let present = match source {
        Source::Computed(View::Response) => has_response,
        Source::Pending(table) => head.rows[table.index()].is_waiting(),
        _ => true,
    };
    if present {
        Ok(())
    } else {
        Err(ServiceFault::NotReady)
    }
}

// Whether what is to be read is there yet: a staging that waits, a response since start.
pub fn check_present(deed: &Deed, has_response: bool, head: &Head) -> Result<(), ServiceFault>
    ensures { (response : Option Response) → is_some response ≡ has_response → result ≡ present_verdict (deed_of deed.now) response head.now }
{
    match *deed {
        Deed::Read { table, .. } => check_source(table.source, has_response, head),
        _ => Ok(()),
    }
}
