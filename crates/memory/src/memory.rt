// A memory of blocks, each of 510 bytes or corrupt.
ghost use Rattle.std.specs.Prelude.{⊤, ◌≡◌, ℕ, List, length};
ghost use Rattle.memory.specs.Blocks.{Block, Whole, lowest_corrupt};
ghost use Rattle.memory.specs.Verdicts.{read_verdict, read_content, write_verdict, written};

use crate::fault::MemoryFault;

// The bytes of a block's content.
pub const CONTENT: usize = 510;

pub trait BlockMemory {
    // What the memory means.
    ghost blocks: { Self → List Block };

    // Each implementation shows that every content has 510 bytes.
    ghost whole: { (m : Self) → Whole (blocks m) };

    // What a write of a content to a block does to the implementation's own state, from before to after.
    ghost rewrites: { Self → ℕ → List ℕ → Self → Type 0 };

    // The loan by which the memory is reached, if it is reached by one. A write leaves it: so whoever lent a memory knows what it holds afterwards.
    ghost loan: { Self → ℕ } = { λ _. 0 };

    // What an implementation says of the number of its blocks besides.
    ghost counted: { Self → ℕ → Type 0 } = { λ _ _. ⊤ };

    // The number of blocks.
    fn size(&self) -> u32
        ensures size { result ≡ length (blocks self.now) }
        ensures count { counted self.now result };

    // The lowest corrupt block below a number.
    fn lowest_corrupt(&self, below: u32) -> Option<u32>
        ensures { result ≡ lowest_corrupt below (blocks self.now) };

    // Reads a block's content into a buffer, which a refusal leaves as it was.
    fn read(&self, block: u32, content: &mut [u8; CONTENT]) -> Result<(), MemoryFault>
        ensures answer { result ≡ read_verdict (blocks self.now) block }
        ensures content { content.new ≡ read_content (blocks self.now) block content.old };

    // Makes a block sound with a new content; a refusal leaves every block as it was.
    fn write(&mut self, block: u32, content: &[u8; CONTENT]) -> Result<(), MemoryFault>
        ensures answer { result ≡ write_verdict (blocks self.old) block }
        ensures blocks { blocks self.new ≡ written (blocks self.old) block content.now }
        ensures own { rewrites self.old block content.now self.new }
        ensures loan { loan self.new ≡ loan self.old };
}
