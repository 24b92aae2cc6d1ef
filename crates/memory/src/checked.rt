// The checked image: runs of 512 bytes, a block's content and then its checksum, least significant byte first.
ghost use Rattle.std.specs.Prelude.{◌≡◌, ◌*◌, ◌<◌, ◌≤◌, ◌++◌, length, cond, slice_index_or, slice_set};
ghost use Rattle.fields.specs.Words.{le_bytes};
ghost use Rattle.fields.specs.Patches.{patch};
ghost use Rattle.memory.specs.Blocks.{sound, corrupt, content_or, lowest_corrupt};
ghost use Rattle.memory.specs.Checksum.{checksum_of};
ghost use Rattle.memory.specs.Images.{checked_blocks, content_at};
ghost use Rattle.memory.specs.ImageLaws.{checked_whole, checked_count, checked_some};
ghost use Rattle.memory.specs.Verdicts.{sound_verdict};

use crate::checksum::checksum;
use crate::fault::MemoryFault;
use crate::image::{Image, Run, block_count};
use crate::memory::CONTENT;
use fields::bytes::{array_at, chunk_at, put_bytes};
use fields::order::Little;
use fields::words::{get16, put16};

// The bytes of a run.
const RUN: usize = 512;

#[derive(Clone, Copy, Debug, PartialEq, Eq)]
pub struct Checked;

pub type CheckedImage<'a> = Image<'a, Checked>;

// Whether the stored checksum of a block is that of its content, and so the block is sound.
#[tactic(auto, using(crate::proofs::CheckedBlocks::checked))]
fn is_sound(bytes: &[u8], block: u32) -> bool
    requires { block < length (checked_blocks bytes.now) }
    ensures { slice_index_or (checked_blocks bytes.now) block corrupt ≡ cond result (sound (content_at bytes.now block)) corrupt }
{
    let at = block as usize * RUN;
    get16::<Little>(bytes, at + CONTENT) == checksum(block, chunk_at(bytes, at))
}

// The lowest block below a number whose stored checksum is not that of its content. Apart from `lowest_corrupt`, since its proof needs a file.
fn first_corrupt(bytes: &[u8], below: u32) -> Option<u32>
    ensures { result ≡ lowest_corrupt below (checked_blocks bytes.now) }
{
    let end = below.min(block_count(bytes, RUN));
    (0..end).find(
        |n: &u32| -> bool
            requires { n.now < length (checked_blocks bytes.now) }
            ensures { slice_index_or (checked_blocks bytes.entry.now) n.now corrupt ≡ cond result corrupt (sound (content_at bytes.entry.now n.now)) }
        { !is_sound(bytes, *n) },
    )
}

#[tactic(auto, using(crate::proofs::CheckedBlocks::checked))]
impl Run for Checked {
    ghost WIDTH = { 512 };

    const WIDTH: usize = RUN;

    ghost blocks = { checked_blocks };

    ghost whole = { checked_whole };

    ghost run = { λ n content. content ++ le_bytes 2 (checksum_of n content) };

    ghost some = { checked_some };

    ghost count = { checked_count };

    fn lowest_corrupt(bytes: &[u8], below: u32) -> Option<u32> {
        first_corrupt(bytes, below)
    }

    fn copy_run(bytes: &[u8], block: u32, content: &mut [u8; CONTENT]) -> Result<(), MemoryFault> {
        if !is_sound(bytes, block) {
            return Err(MemoryFault::Corrupt(block));
        }
        *content = array_at(bytes, block as usize * RUN);
        Ok(())
    }

    fn replace_run(bytes: &mut [u8], block: u32, content: &[u8; CONTENT]) {
        let start = block as usize * RUN;
        put_bytes(bytes, start, content);
        put16::<Little>(bytes, start + CONTENT, checksum(block, content));
    }
}
