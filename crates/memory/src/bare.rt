// The bare image: runs of 510 bytes, each a block that is never corrupt.
ghost use Rattle.std.specs.Prelude.{◌≡◌, ◌*◌, ◌<◌, length, slice_index_or, slice_set};
ghost use Rattle.fields.specs.Patches.{patch};
ghost use Rattle.memory.specs.Blocks.{sound, corrupt};
ghost use Rattle.memory.specs.Images.{bare_blocks};
ghost use Rattle.memory.specs.ImageLaws.{bare_whole, bare_count, bare_some};

use crate::fault::MemoryFault;
use crate::image::{Image, Run};
use crate::memory::CONTENT;
use fields::bytes::{array_at, put_bytes};

#[derive(Clone, Copy, Debug, PartialEq, Eq)]
pub struct Bare;

pub type BareImage<'a> = Image<'a, Bare>;

#[tactic(auto, using(crate::proofs::BareBlocks::bare))]
impl Run for Bare {
    ghost WIDTH = { 510 };

    const WIDTH: usize = 510;

    ghost blocks = { bare_blocks };

    ghost whole = { bare_whole };

    ghost run = { λ n content. content };

    ghost some = { bare_some };

    ghost count = { bare_count };

    fn lowest_corrupt(_bytes: &[u8], _below: u32) -> Option<u32> {
        None
    }

    fn copy_run(bytes: &[u8], block: u32, content: &mut [u8; CONTENT]) -> Result<(), MemoryFault> {
        *content = array_at(bytes, block as usize * CONTENT);
        Ok(())
    }

    fn replace_run(bytes: &mut [u8], block: u32, content: &[u8; CONTENT]) {
        put_bytes(bytes, block as usize * CONTENT, content);
    }
}
