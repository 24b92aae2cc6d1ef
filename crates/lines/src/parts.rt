// The parts of a line: each function takes what is left of it, and gives a part and the rest.
ghost use Rattle.std.specs.Prelude.{◌≡◌, ◌≤◌, IfOk, vec_items};
ghost use Rattle.std.specs.Str.{bytes_eq};
ghost use Rattle.lines.specs.Parts.{rested, Meets, word_said, number_said, end_said, last_number_said, bytes_said};

use crate::complaint::Complaint;
use std::alloc::Global;
use text::hex::read_hex;
use text::number::read_number;
use text::words::next_word;

pub fn word(line: &[u8]) -> Result<(&[u8], &[u8]), Complaint>
    ensures { rested (λ x. x.now) result ≡ word_said line.now }
{
    next_word(line).ok_or(Complaint::MissingWord)
}

pub fn number(line: &[u8], max: u32) -> Result<(u32, &[u8]), Complaint>
    ensures value { rested (λ n. n) result ≡ number_said max line.now }
    ensures bound { IfOk result (λ p. p.0 ≤ max) }
{
    let (digits, rest) = word(line)?;
    Ok((read_number(digits, max)?, rest))
}

pub fn end(line: &[u8]) -> Result<(), Complaint>
    ensures { result ≡ end_said line.now }
{
    match next_word(line) {
        None => Ok(()),
        Some(_) => Err(Complaint::SurplusWord),
    }
}

pub fn last_number(line: &[u8], max: u32) -> Result<u32, Complaint>
    ensures { result ≡ last_number_said max line.now }
{
    let (value, rest) = number(line, max)?;
    end(rest)?;
    Ok(value)
}

// A number of one byte.
pub fn byte(line: &[u8]) -> Result<(u8, &[u8]), Complaint>
    ensures { rested (λ n. n) result ≡ number_said 255 line.now }
{
    let (value, rest) = number(line, 255)?;
    Ok((value as u8, rest))
}

// The bytes that the rest of the line writes in hex digits.
pub fn bytes(heap: Global, line: &[u8]) -> Result<Vec<u8>, Complaint>
    ensures { Meets vec_items result (bytes_said line.now) }
{
    Ok(read_hex(heap, line)?)
}

// Whether a word is a name.
pub fn is_word(word: &[u8], name: &[u8]) -> bool
    ensures { result ≡ bytes_eq word.now name.now }
{
    word == name
}
