// A memory that is lent is one too.
ghost use Rattle.std.specs.Prelude.{◌≡◌};

use crate::fault::MemoryFault;
use crate::memory::{BlockMemory, CONTENT};

impl<M: BlockMemory> BlockMemory for &mut M {
    ghost blocks = { λ m. M.BlockMemory.blocks m.now };

    ghost whole = { λ m. M.BlockMemory.whole m.now };

    ghost rewrites = { λ before n content after. M.BlockMemory.rewrites before.now n content after.now × (after.ghost_name ≡ before.ghost_name) };

    ghost loan = { λ m. m.ghost_name };

    ghost counted = { λ m n. M.BlockMemory.counted m.now n };

    fn size(&self) -> u32 {
        (**self).size()
    }

    fn lowest_corrupt(&self, below: u32) -> Option<u32> {
        (**self).lowest_corrupt(below)
    }

    fn read(&self, block: u32, content: &mut [u8; CONTENT]) -> Result<(), MemoryFault> {
        (**self).read(block, content)
    }

    fn write(&mut self, block: u32, content: &[u8; CONTENT]) -> Result<(), MemoryFault> {
        (**self).write(block, content)
    }
}
