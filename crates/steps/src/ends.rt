// How a call begins and ends: block 0 is read, and written.
ghost use Rattle.std.specs.Prelude.{◌≡◌, ◌≤◌, [], ◌∷◌, OnOk};
ghost use Rattle.access.specs.Ready.{content_of, stored};
ghost use Rattle.head.specs.Heads.{decode_head, encode_head};
ghost use Rattle.model.specs.States.{log_of};
ghost use Rattle.model.specs.Calls.{limit_verdict, log_names};
ghost use Rattle.steps.specs.Work.{Totals};

use access::{ReadyMemory, ReadyRef};
use head::head::{Head, decode, encode};
use memory::memory::{BlockMemory, CONTENT};
use model::log_limit;
use numbers::log::LogName;
use refusals::fault::MeterFault;

// What block 0 says.
pub fn load_head<M: BlockMemory>(memory: ReadyRef<'_, M>) -> Head
    ensures { result ≡ decode_head (content_of (M.BlockMemory.blocks memory.entry.memory.now) 0) }
{
    let mut content = [0u8; CONTENT];
    memory.load(0, &mut content);
    decode(&content)
}

// Block 0 says so from now on.
pub fn store_head<M: BlockMemory>(memory: &mut ReadyMemory<M>, head: &Head)
    ensures blocks { M.BlockMemory.blocks memory.new.memory ≡ stored (M.BlockMemory.blocks memory.old.memory) 0 (encode_head head.now) }
    ensures loan { M.BlockMemory.loan memory.new.memory ≡ M.BlockMemory.loan memory.old.memory }
{
    let mut content = [0u8; CONTENT];
    encode(head, &mut content);
    memory.store(0, &content);
}

// Whether a log has room for what a call can record.
fn check_total(head: &Head, name: LogName) -> Result<(), MeterFault>
    ensures answer { result ≡ limit_verdict (name ∷ []) head.now }
    ensures room { OnOk result ((log_of name head.now).total ≤ 4000000000) }
{
    if head.logs[name.index()].total > log_limit() {
        return Err(MeterFault::LogLimit(name));
    }
    Ok(())
}

// Whether every log has.
pub fn check_totals(head: &Head) -> Result<(), MeterFault>
    ensures answer { result ≡ limit_verdict log_names head.now }
    ensures room { OnOk result (Totals 4000000000 head.now) }
{
    for name in LogName::ALL {
        check_total(head, name)?;
    }
    Ok(())
}
