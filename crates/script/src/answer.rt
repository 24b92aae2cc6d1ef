// What a command is answered, and the line that says so.
ghost use Rattle.std.specs.Prelude.{◌≡◌, [], ◌∷◌, ◌++◌, OnOk};
ghost use Rattle.script.specs.Answers.{verdict_after, content_after, lowest_after, answer_after};

use calendar::DateTime;
use lines::writing::{write_date, write_numbered};
use memory::fault::MemoryFault;
use memory::memory::CONTENT;
use std::alloc::AllocError;
use text::digest::write_digest;
use text::hex::write_hex;

#[derive(Clone, Copy)]
pub enum Answer {
    // A new image has so many blocks.
    Image(u32),
    // So many bytes were overwritten.
    Poked(u32),
    // What the memory said to a write of a block, and to a read.
    Write(u32, Result<(), MemoryFault>),
    Block(u32, Result<[u8; CONTENT], MemoryFault>),
    // The lowest corrupt block.
    Unsound(Option<u32>),
    Digest(u64),
    Second(Option<u32>),
    // A date-time and its weekday.
    Moment(Option<(DateTime, u8)>),
}

fn write_verdict(
    out: &mut Vec<u8>,
    n: u32,
    verdict: &Result<(), MemoryFault>,
) -> Result<(), AllocError>
    ensures { OnOk result (out.new.items ≡ verdict_after out.old.items n verdict.now) }
{
    match verdict {
        Ok(()) => write_numbered(out, b"write ", n, b": ok"),
        Err(_) => write_numbered(out, b"write ", n, b": refused"),
    }
}

fn write_content(
    out: &mut Vec<u8>,
    n: u32,
    read: &Result<[u8; CONTENT], MemoryFault>,
) -> Result<(), AllocError>
    ensures { OnOk result (out.new.items ≡ content_after out.old.items n read.now) }
{
    match read {
        Ok(content) => {
            write_numbered(out, b"block ", n, b": ")?;
            write_hex(out, content)
        }
        Err(_) => write_numbered(out, b"block ", n, b": refused"),
    }
}

fn write_lowest(out: &mut Vec<u8>, lowest: Option<u32>) -> Result<(), AllocError>
    ensures { OnOk result (out.new.items ≡ lowest_after out.old.items lowest) }
{
    match lowest {
        None => out.extend_from_slice(b"unsound: none"),
        Some(n) => write_numbered(out, b"unsound: ", n, b""),
    }
}

// Appends the text of an answer. Not Display: `write!` to a Vec ends in an io::Error, not an AllocError, and says nothing of the text.
fn write_text(out: &mut Vec<u8>, answer: &Answer) -> Result<(), AllocError>
    ensures { OnOk result (out.new.items ≡ answer_after out.old.items answer.now) }
{
    match answer {
        Answer::Image(size) => write_numbered(out, b"image: ", *size, b" blocks"),
        Answer::Poked(count) => write_numbered(out, b"poked ", *count, b""),
        Answer::Write(n, verdict) => write_verdict(out, *n, verdict),
        Answer::Block(n, read) => write_content(out, *n, read),
        Answer::Unsound(lowest) => write_lowest(out, *lowest),
        Answer::Digest(value) => {
            out.extend_from_slice(b"digest: ")?;
            write_digest(out, *value)
        }
        Answer::Second(None) => out.extend_from_slice(b"second: none"),
        Answer::Second(Some(second)) => write_numbered(out, b"second: ", *second, b""),
        Answer::Moment(None) => out.extend_from_slice(b"moment: none"),
        Answer::Moment(Some((date, weekday))) => {
            out.extend_from_slice(b"moment: ")?;
            write_date(out, *date, *weekday)
        }
    }
}

// Appends the line of an answer.
pub fn write_answer(out: &mut Vec<u8>, answer: &Answer) -> Result<(), AllocError>
    ensures { OnOk result (out.new.items ≡ answer_after out.old.items answer.now ++ 10 ∷ []) }
{
    write_text(out, answer)?;
    out.push(b'\n')?;
    Ok(())
}
