// A line of a script, read as any command.
ghost use Rattle.std.specs.Prelude.{◌≡◌};
ghost use Rattle.lines.specs.Parts.{rested, Meets, number_said};
ghost use Rattle.dialog.specs.Commands.{meter_said_of, any_said_of, meter_word_said, serve_said, serve_in_said, meter_said, any_said};

use crate::command::{AnyCommand, MeterCommand, MeterWord};
use lines::complaint::Complaint;
use lines::parts::{byte, bytes, end, last_number, number, word};
use script::reader::read_command;
use std::alloc::Global;

fn meter_word(word: &[u8]) -> Option<MeterWord>
    ensures { result ≡ meter_word_said word.now }
{
    match word {
        b"format" => Some(MeterWord::Format),
        b"start" => Some(MeterWord::Start),
        b"serve" => Some(MeterWord::Serve),
        b"serve-in" => Some(MeterWord::ServeIn),
        b"tick" => Some(MeterWord::Tick),
        b"ticks" => Some(MeterWord::Ticks),
        b"energy" => Some(MeterWord::Energy),
        b"stop" => Some(MeterWord::Stop),
        b"clock" => Some(MeterWord::Clock),
        _ => None,
    }
}

// The length of a buffer. Not one function with `byte` over a type: there the cast could fail, and the line would want one more complaint.
fn length(line: &[u8]) -> Result<(u16, &[u8]), Complaint>
    ensures { rested (λ n. n) result ≡ number_said 4096 line.now }
{
    let (value, rest) = number(line, 4096)?;
    Ok((value as u16, rest))
}

fn read_serve(heap: Global, line: &[u8]) -> Result<MeterCommand, Complaint>
    ensures { Meets meter_said_of result (serve_said line.now) }
{
    let (key, rest) = byte(line)?;
    let request = bytes(heap, rest)?;
    Ok(MeterCommand::Serve { key, request })
}

fn read_serve_in(heap: Global, line: &[u8]) -> Result<MeterCommand, Complaint>
    ensures { Meets meter_said_of result (serve_in_said line.now) }
{
    let (answer, rest) = length(line)?;
    let (scratch, rest) = length(rest)?;
    let (key, rest) = byte(rest)?;
    let request = bytes(heap, rest)?;
    Ok(MeterCommand::ServeIn {
        answer,
        scratch,
        key,
        request,
    })
}

// The command of a first word and the rest of the line.
fn read_meter_command(heap: Global, word: MeterWord, line: &[u8]) -> Result<MeterCommand, Complaint>
    ensures { Meets meter_said_of result (meter_said word line.now) }
{
    match word {
        MeterWord::Format => {
            end(line)?;
            Ok(MeterCommand::Format)
        }
        MeterWord::Start => {
            let second = last_number(line, u32::MAX)?;
            Ok(MeterCommand::Start(second))
        }
        MeterWord::Serve => read_serve(heap, line),
        MeterWord::ServeIn => read_serve_in(heap, line),
        MeterWord::Tick => {
            end(line)?;
            Ok(MeterCommand::Tick)
        }
        MeterWord::Ticks => {
            let count = last_number(line, 100_000_000)?;
            Ok(MeterCommand::Ticks(count))
        }
        MeterWord::Energy => {
            let hours = last_number(line, u32::MAX)?;
            Ok(MeterCommand::Energy(hours))
        }
        MeterWord::Stop => {
            end(line)?;
            Ok(MeterCommand::Stop)
        }
        MeterWord::Clock => {
            end(line)?;
            Ok(MeterCommand::Clock)
        }
    }
}

// The command that a line asks for, whatever its kind.
pub fn read_any_command(heap: Global, line: &[u8]) -> Result<AnyCommand, Complaint>
    ensures { Meets any_said_of result (any_said line.now) }
{
    let (name, rest) = word(line)?;
    match meter_word(name) {
        Some(first) => {
            let command = read_meter_command(heap, first, rest)?;
            Ok(AnyCommand::Meter(command))
        }
        None => {
            let command = read_command(heap, line)?;
            Ok(AnyCommand::Bench(command))
        }
    }
}
