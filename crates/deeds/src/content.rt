// Contents against their rules.
ghost use Rattle.std.specs.Prelude.{◌≡◌, ◌+◌, ◌≤◌, length, take, drop, is_some, if◌then◌else◌, Err};
ghost use Rattle.refusals.specs.declared.fault.ServiceFault.TheVariants.{BadContent};
ghost use Rattle.fields.specs.Patches.{patch};
ghost use Rattle.pending.specs.Triggers.{plan_of};
ghost use Rattle.directory.specs.Geometry.{staged_length};
ghost use Rattle.model.specs.Tables.{current_table};
ghost use Rattle.model.specs.Tariffs.{is_right};
ghost use Rattle.model.specs.Requests.{staged_due, ruled, content_verdict};
ghost use Rattle.deeds.specs.Deeds.{deed_of, Safe};

use crate::deed::Deed;
use crate::rules::is_right;
use access::ReadyRef;
use directory::entry::Source;
use directory::staged::{current_block, staged_length};
use fields::bytes::put_bytes;
use memory::memory::{BlockMemory, CONTENT};
use pending::plan::Plan;
use pending::table::PendingTable;
use pending::trigger::Due;
use refusals::fault::ServiceFault;

// Whether a whole content keeps the rules of its table.
fn check_right(table: PendingTable, content: &[u8]) -> Result<(), ServiceFault>
    requires { length content.now ≡ staged_length table }
    ensures { result ≡ ruled (is_right table content.now) }
{
    if !is_right(table, content) {
        return Err(ServiceFault::BadContent);
    }
    Ok(())
}

// The plan of the six trigger bytes at the front of a staging.
fn plan_in(content: &[u8]) -> Option<Plan>
    requires { 6 ≤ length content.now }
    ensures { result ≡ plan_of (take 6 content.now) }
{
    Plan::try_from(*content.first_chunk()?).ok()
}

// The plan of a staging, and when it takes force if it is staged at this clock.
pub fn plan_due(content: &[u8], clock: u32) -> Option<(Plan, Due)>
    requires { 6 ≤ length content.now }
    ensures { result ≡ staged_due (plan_of (take 6 content.now)) clock }
{
    let plan = plan_in(content)?;
    let due = plan.trigger.due(clock)?;
    Some((plan, due))
}

// Whether the table as a write would leave it is right.
fn check_write<M: BlockMemory>(
    memory: ReadyRef<'_, M>,
    table: PendingTable,
    from: usize,
    content: &[u8],
    work: &mut [u8; CONTENT],
) -> Result<(), ServiceFault>
    requires inside { from + length content.now ≤ staged_length table }
    ensures { result ≡ ruled (is_right table (patch from content.now (current_table table (M.BlockMemory.blocks memory.entry.memory.now)))) }
{
    memory.load(current_block(table), work);
    put_bytes(work, from, content);
    check_right(table, &work[0..staged_length(table) as usize])
}

fn check_staging(table: PendingTable, content: &[u8], clock: u32) -> Result<(), ServiceFault>
    requires { length content.now ≡ staged_length table + 6 }
    ensures { result ≡ (if is_some (staged_due (plan_of (take 6 content.now)) clock) then ruled (is_right table (drop 6 content.now)) else Err BadContent) }
{
    plan_due(content, clock).ok_or(ServiceFault::BadContent)?;
    check_right(table, &content[6..])
}

// The proof needs a file for what is staged, which a public function has not: so there are two. Lemmas named on the public one were tried, and did not close it.
fn check_rules<M: BlockMemory>(
    memory: ReadyRef<'_, M>,
    deed: &Deed,
    clock: u32,
    work: &mut [u8; CONTENT],
) -> Result<(), ServiceFault>
    requires safe { Safe (deed_of deed.now) }
    ensures { result ≡ content_verdict (deed_of deed.now) clock (M.BlockMemory.blocks memory.entry.memory.now) }
{
    match *deed {
        Deed::Read { .. } => Ok(()),
        Deed::Write {
            table,
            from,
            content,
        } => match table.source {
            Source::Staged(staged) => check_write(memory, staged, from as usize, content, work),
            _ => Ok(()),
        },
        Deed::Stage {
            pending,
            content,
            ..
        } => check_staging(pending, content, clock),
        Deed::Call { .. } => Ok(()),
    }
}

// Whether what is to be written or staged keeps the rules of its table.
pub fn check_content<M: BlockMemory>(
    memory: ReadyRef<'_, M>,
    deed: &Deed,
    clock: u32,
    work: &mut [u8; CONTENT],
) -> Result<(), ServiceFault>
    requires safe { Safe (deed_of deed.now) }
    ensures { result ≡ content_verdict (deed_of deed.now) clock (M.BlockMemory.blocks memory.entry.memory.now) }
{
    check_rules(memory, deed, clock, work)
}
