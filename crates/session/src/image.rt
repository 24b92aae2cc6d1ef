// What is asked of an image of either make that lies in some bytes.
ghost use Rattle.std.specs.Prelude.{◌≡◌, ◌≤◌, length};
ghost use Rattle.script.specs.Commands.{block_asked_of, asked_of};
ghost use Rattle.session.specs.Images.{size_of, content_read};
ghost use Rattle.session.specs.Asking.{poke_answer, poked, answer_on, bytes_after, blocks_answer, BlocksAfter};

use fields::bytes::put_bytes;
use lines::complaint::Complaint;
use memory::bare::BareImage;
use memory::checked::CheckedImage;
use memory::fault::MemoryFault;
use memory::memory::{BlockMemory, CONTENT};
use script::answer::Answer;
use script::command::{BlockCommand, ImageCommand, Make};
use text::digest::digest;

// Picks the image a second time: no closure is generic over the memory, so one function cannot pick it for both.
pub(crate) fn size(make: Make, bytes: &mut [u8]) -> u32
    ensures value { result ≡ size_of make bytes.old }
    ensures same { bytes.new ≡ bytes.old }
{
    match make {
        Make::Bare => BareImage::new(bytes).size(),
        Make::Checked => CheckedImage::new(bytes).size(),
    }
}

// The content of a block.
fn read_block<M: BlockMemory>(memory: &M, n: u32) -> Result<[u8; CONTENT], MemoryFault>
    ensures { result ≡ content_read (M.BlockMemory.blocks memory.now) n }
{
    let mut content = [0; CONTENT];
    memory.read(n, &mut content)?;
    Ok(content)
}

// Answers what is asked of the blocks of a memory.
#[tactic(auto, unfolding(crate::specs::Images::zero_content))]
fn ask<M: BlockMemory>(memory: &mut M, command: &BlockCommand) -> Result<Answer, Complaint>
    ensures answer { result ≡ blocks_answer (M.BlockMemory.blocks memory.old) command.now }
    ensures after { BlocksAfter M.BlockMemory.rewrites memory.old command.now memory.new }
{
    match command {
        BlockCommand::Write(n, given) => {
            if given.len() > CONTENT {
                return Err(Complaint::TooManyBytes);
            }
            let mut content = [0; CONTENT];
            put_bytes(&mut content, 0, given.as_slice());
            Ok(Answer::Write(*n, memory.write(*n, &content)))
        }
        BlockCommand::Unsound(below) => Ok(Answer::Unsound(memory.lowest_corrupt(*below))),
        BlockCommand::Block(n) => Ok(Answer::Block(*n, read_block(memory, *n))),
    }
}

// The same of the image that lies in some bytes.
fn ask_image(make: Make, bytes: &mut [u8], command: &BlockCommand) -> Result<Answer, Complaint>
    ensures answer { result ≡ answer_on make bytes.old (block_asked_of command.now) }
    ensures after { bytes.new ≡ bytes_after make bytes.old (block_asked_of command.now) }
{
    match make {
        Make::Bare => ask(&mut BareImage::new(bytes), command),
        Make::Checked => ask(&mut CheckedImage::new(bytes), command),
    }
}

fn overwrite(bytes: &mut [u8], offset: u32, given: &[u8]) -> Result<Answer, Complaint>
    requires { length bytes.old ≤ 16777216 }
    ensures answer { result ≡ poke_answer bytes.old offset given.now }
    ensures after { bytes.new ≡ poked bytes.old offset given.now }
{
    let offset = offset as usize;
    if bytes.len() < given.len() || bytes.len() - given.len() < offset {
        return Err(Complaint::OutsideImage);
    }
    put_bytes(bytes, offset, given);
    Ok(Answer::Poked(given.len() as u32))
}

// Answers what is asked of the image.
pub(crate) fn answer(
    make: Make,
    bytes: &mut [u8],
    command: &ImageCommand,
) -> Result<Answer, Complaint>
    requires { length bytes.old ≤ 16777216 }
    ensures answer { result ≡ answer_on make bytes.old (asked_of command.now) }
    ensures after { bytes.new ≡ bytes_after make bytes.old (asked_of command.now) }
{
    match command {
        ImageCommand::Poke(offset, given) => overwrite(bytes, *offset, given.as_slice()),
        ImageCommand::Digest => Ok(Answer::Digest(digest(bytes))),
        ImageCommand::Blocks(asked) => ask_image(make, bytes, asked),
    }
}
