// An image: a memory that lies in runs of bytes, one for each block.
ghost use Rattle.std.specs.Prelude.{◌≡◌, ℕ, ◌*◌, ◌<◌, List, length, cond, nat_lt, slice_index_or, slice_set};
ghost use Rattle.fields.specs.Patches.{patch};
ghost use Rattle.memory.specs.Blocks.{Block, Whole, sound, corrupt, content_or, lowest_corrupt};
ghost use Rattle.memory.specs.Images.{block_count};
ghost use Rattle.memory.specs.Verdicts.{sound_verdict};

use crate::fault::MemoryFault;
use crate::memory::{BlockMemory, CONTENT};
use std::marker::PhantomData;

// How a run of bytes keeps a block.
pub trait Run {
    // The bytes of a run.
    ghost WIDTH: { ℕ };

    const WIDTH: usize;

    // What an image's bytes mean.
    ghost blocks: { List ℕ → List Block };

    // Each implementation shows that every content has 510 bytes.
    ghost whole: { (bytes : List ℕ) → Whole (blocks bytes) };

    // What a write of a content to a block puts in the block's run.
    ghost run: { ℕ → List ℕ → List ℕ };

    // The lowest corrupt block below a number.
    fn lowest_corrupt(bytes: &[u8], below: u32) -> Option<u32>
        ensures { result ≡ lowest_corrupt below (blocks bytes.now) };

    // Copies a block's content out if it is sound.
    fn copy_run(bytes: &[u8], block: u32, content: &mut [u8; CONTENT]) -> Result<(), MemoryFault>
        requires { block < length (blocks bytes.now) }
        ensures answer { result ≡ sound_verdict block (slice_index_or (blocks bytes.now) block corrupt) }
        ensures content { content.new ≡ content_or content.old (slice_index_or (blocks bytes.now) block corrupt) };

    // Makes a block sound with a new content.
    fn replace_run(bytes: &mut [u8], block: u32, content: &[u8; CONTENT])
        requires { block < length (blocks bytes.old) }
        ensures bytes { bytes.new ≡ patch (block * WIDTH) (run block content.now) bytes.old }
        ensures blocks { blocks bytes.new ≡ slice_set (blocks bytes.old) block (sound content.now) };

    // A run has bytes, and there are as many blocks as whole runs, and at most 4,096.
    ghost some: { 0 < WIDTH };

    ghost count: { (bytes : List ℕ) → length (blocks bytes) ≡ block_count WIDTH bytes };
}

#[derive(Drop)]
pub struct Image<'a, K> {
    bytes: &'a mut [u8],
    kind: PhantomData<K>,
}

impl<'a, K> Image<'a, K> {
    // The image that lies in these bytes; they are lent to it, and come back as it leaves them.
    pub fn new(bytes: &'a mut [u8]) -> Image<'a, K>
        ensures bytes { result.bytes.now ≡ bytes.old }
        ensures lent { result.bytes.ghost_name ≡ bytes.entry.ghost_name }
    {
        Image {
            bytes,
            kind: PhantomData,
        }
    }
}

// How many blocks of a width some bytes have; an incomplete last one does not count.
pub(crate) fn block_count(bytes: &[u8], width: usize) -> u32
    requires { 0 < width }
    ensures { result ≡ block_count width bytes.now }
{
    (bytes.len() / width).min(4096) as u32
}

impl<K: Run> BlockMemory for Image<'_, K> {
    ghost blocks = { λ m. K.blocks m.bytes.now };

    ghost whole = { λ m. K.whole m.bytes.now };

    ghost rewrites = { λ before n content after. (after.bytes.now ≡ cond (nat_lt n (block_count K.WIDTH before.bytes.now)) (patch (n * K.WIDTH) (K.run n content) before.bytes.now) before.bytes.now) × (after.bytes.ghost_name ≡ before.bytes.ghost_name) };

    ghost loan = { λ m. m.bytes.ghost_name };

    ghost counted = { λ m n. n ≡ block_count K.WIDTH m.bytes.now };

    fn size(&self) -> u32
        ensures size { result ≡ length (K.blocks self.now.bytes.now) }
        ensures count { result ≡ block_count K.WIDTH self.now.bytes.now }
    {
        block_count(self.bytes, K::WIDTH)
    }

    fn lowest_corrupt(&self, below: u32) -> Option<u32> {
        K::lowest_corrupt(self.bytes, below)
    }

    // The test of the size stands here and in `write`: as a function, with `?`, it left the clauses of `write` open.
    fn read(&self, block: u32, content: &mut [u8; CONTENT]) -> Result<(), MemoryFault> {
        let size = self.size();
        if block >= size {
            return Err(MemoryFault::TooSmall(size));
        }
        K::copy_run(self.bytes, block, content)
    }

    fn write(&mut self, block: u32, content: &[u8; CONTENT]) -> Result<(), MemoryFault> {
        let size = (*self).size();
        if block >= size {
            return Err(MemoryFault::TooSmall(size));
        }
        K::replace_run(self.bytes, block, content);
        Ok(())
    }
}
