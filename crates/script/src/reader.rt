// A line of a script, read as a command.
ghost use Rattle.std.specs.Prelude.{◌≡◌, vec_items};
ghost use Rattle.lines.specs.Parts.{Meets};
ghost use Rattle.script.specs.Lines.{make_said, keyword_said};
ghost use Rattle.script.specs.Commands.{said_of, some_bytes_said, image_said, poke_said, write_said, second_said, command_said};

use crate::command::{BlockCommand, Command, ImageCommand, Keyword, Make};
use calendar::DateTime;
use lines::complaint::Complaint;
use lines::parts::{byte, bytes, end, last_number, number, word};
use std::alloc::Global;

fn make_of(word: &[u8]) -> Result<Make, Complaint>
    ensures { result ≡ make_said word.now }
{
    match word {
        b"bare" => Ok(Make::Bare),
        b"checked" => Ok(Make::Checked),
        _ => Err(Complaint::UnknownMake),
    }
}

fn keyword_of(word: &[u8]) -> Result<Keyword, Complaint>
    ensures { result ≡ keyword_said word.now }
{
    match word {
        b"image" => Ok(Keyword::Image),
        b"poke" => Ok(Keyword::Poke),
        b"write" => Ok(Keyword::Write),
        b"unsound" => Ok(Keyword::Unsound),
        b"block" => Ok(Keyword::Block),
        b"digest" => Ok(Keyword::Digest),
        b"second" => Ok(Keyword::Second),
        b"moment" => Ok(Keyword::Moment),
        _ => Err(Complaint::UnknownCommand),
    }
}

fn some_bytes(heap: Global, line: &[u8]) -> Result<Vec<u8>, Complaint>
    ensures { Meets vec_items result (some_bytes_said line.now) }
{
    let bytes = bytes(heap, line)?;
    if bytes.is_empty() {
        return Err(Complaint::NoBytes);
    }
    Ok(bytes)
}

fn read_image(line: &[u8]) -> Result<Command, Complaint>
    ensures { Meets said_of result (image_said line.now) }
{
    let (name, rest) = word(line)?;
    let make = make_of(name)?;
    let bytes = last_number(rest, 16_777_216)?;
    Ok(Command::Image(make, bytes))
}

fn read_poke(heap: Global, line: &[u8]) -> Result<Command, Complaint>
    ensures { Meets said_of result (poke_said line.now) }
{
    let (offset, rest) = number(line, u32::MAX)?;
    let bytes = some_bytes(heap, rest)?;
    Ok(Command::On(ImageCommand::Poke(offset, bytes)))
}

fn read_write(heap: Global, line: &[u8]) -> Result<Command, Complaint>
    ensures { Meets said_of result (write_said line.now) }
{
    let (block, rest) = number(line, u32::MAX)?;
    let bytes = bytes(heap, rest)?;
    Ok(Command::On(ImageCommand::Blocks(BlockCommand::Write(block, bytes))))
}

// The parts of a date-time in turn, each by its name: a loop, which was tried, counts their places in an array by hand.
fn read_second(line: &[u8]) -> Result<Command, Complaint>
    ensures { Meets said_of result (second_said line.now) }
{
    let (year, rest) = byte(line)?;
    let (month, rest) = byte(rest)?;
    let (day, rest) = byte(rest)?;
    let (hour, rest) = byte(rest)?;
    let (minute, rest) = byte(rest)?;
    let (second, rest) = byte(rest)?;
    end(rest)?;
    Ok(Command::Second(DateTime {
        year,
        month,
        day,
        hour,
        minute,
        second,
    }))
}

// The command that a line asks for.
pub fn read_command(heap: Global, line: &[u8]) -> Result<Command, Complaint>
    ensures { Meets said_of result (command_said line.now) }
{
    let (name, rest) = word(line)?;
    match keyword_of(name)? {
        Keyword::Image => read_image(rest),
        Keyword::Poke => read_poke(heap, rest),
        Keyword::Write => read_write(heap, rest),
        Keyword::Unsound => {
            let below = last_number(rest, u32::MAX)?;
            Ok(Command::On(ImageCommand::Blocks(BlockCommand::Unsound(below))))
        }
        Keyword::Block => {
            let n = last_number(rest, u32::MAX)?;
            Ok(Command::On(ImageCommand::Blocks(BlockCommand::Block(n))))
        }
        Keyword::Digest => {
            end(rest)?;
            Ok(Command::On(ImageCommand::Digest))
        }
        Keyword::Second => read_second(rest),
        Keyword::Moment => {
            let second = last_number(rest, u32::MAX)?;
            Ok(Command::Moment(second))
        }
    }
}
