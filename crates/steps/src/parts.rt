// The table at the start of a block, with room for one block at a time.
ghost use Rattle.std.specs.Prelude.{◌≡◌, ◌<◌, ◌≤◌, length};
ghost use Rattle.access.specs.Ready.{needed, content_of, stored};
ghost use Rattle.fields.specs.Patches.{patch};
ghost use Rattle.fields.specs.Words.{part};

use access::{ReadyMemory, ReadyRef};
use fields::bytes::put_bytes;
use memory::memory::{BlockMemory, CONTENT};

// The bytes of the calendar, the longest of the staged tables, and of the override.
pub(crate) const CALENDAR: usize = 120;

pub(crate) const OVERRIDE: usize = 16;

// The first bytes of a block, as an array.
pub(crate) fn start_of<M: BlockMemory, const N: usize>(
    memory: ReadyRef<'_, M>,
    block: u32,
) -> [u8; N]
    requires below { block < needed }
    requires short { N ≤ 510 }
    ensures { result ≡ part N 0 (content_of (M.BlockMemory.blocks memory.entry.memory.now) block) }
{
    let mut start = [0; N];
    load_start(memory, block, &mut start);
    start
}

// The same, as many as `out` has room for.
pub(crate) fn load_start<M: BlockMemory>(memory: ReadyRef<'_, M>, block: u32, out: &mut [u8])
    requires below { block < needed }
    requires short { length out.old ≤ 510 }
    ensures { out.new ≡ part (length out.old) 0 (content_of (M.BlockMemory.blocks memory.entry.memory.now) block) }
{
    let mut content = [0u8; CONTENT];
    memory.load(block, &mut content);
    out.copy_from_slice(&content[0..out.len()]);
}

// New bytes at the start of a block. What stands behind them stays.
pub(crate) fn store_start<M: BlockMemory>(memory: &mut ReadyMemory<M>, block: u32, new: &[u8])
    requires below { block < needed }
    requires short { length new.now ≤ 510 }
    ensures blocks { M.BlockMemory.blocks memory.new.memory ≡ stored (M.BlockMemory.blocks memory.old.memory) block (patch 0 new.now (content_of (M.BlockMemory.blocks memory.old.memory) block)) }
    ensures loan { M.BlockMemory.loan memory.new.memory ≡ M.BlockMemory.loan memory.old.memory }
{
    let mut content = [0u8; CONTENT];
    memory.load(block, &mut content);
    put_bytes(&mut content, 0, new);
    memory.store(block, &content);
}
