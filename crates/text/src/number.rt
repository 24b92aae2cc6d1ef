// Decimal numbers: how a word is read, and how a number is written.
ghost use Rattle.std.specs.Prelude.{◌≡◌, ℕ, ◌^◌, ◌<◌, ◌≤◌, min, ◌++◌, IfOk, if◌then◌else◌, Some, None, OnOk};
ghost use Rattle.text.specs.Numerals.{all_digits, value_of, number_read, decimal_text, NumbersReadBack};

use crate::digits::write_digits;
use std::alloc::AllocError;

// No Display: its words stand once, with those of the complaints that it is part of.
#[derive(Clone, Copy, PartialEq, Eq, Debug)]
pub enum NumberFault {
    NotDecimal,
    TooLarge,
}

// The number that the digits write, or the limit if that is less; None if a byte is no digit.
fn capped_value(word: &[u8], limit: u64) -> Option<u64>
    requires { limit ≤ 2 ^ 32 }
    ensures { result ≡ (if all_digits word.now then Some (min limit (value_of word.now)) else None) }
{
    let mut value = 0;
    for byte in word {
        if !byte.is_ascii_digit() {
            return None;
        }
        value = limit.min(value * 10 + u64::from(*byte - b'0'));
    }
    Some(value)
}

// The number that a word writes in decimal digits, if it is at most `max`.
#[tactic(auto, unfolding(crate::specs::Numerals::number_read))]
pub fn read_number(word: &[u8], max: u32) -> Result<u32, NumberFault>
    ensures value { result ≡ number_read max word.now }
    ensures bound { IfOk result (λ n. n ≤ max) }
{
    if word.is_empty() {
        return Err(NumberFault::NotDecimal);
    }
    match capped_value(word, u64::from(max) + 1) {
        Some(value) if value <= u64::from(max) => Ok(value as u32),
        Some(_) => Err(NumberFault::TooLarge),
        None => Err(NumberFault::NotDecimal),
    }
}

// Appends a number in decimal digits, with zeros in front up to `width` digits. Not `write!`: its error is an io::Error, not an AllocError.
#[tactic(auto, using(crate::proofs::Reading::reads_back))]
pub fn write_padded(out: &mut Vec<u8>, number: u32, width: usize) -> Result<(), AllocError>
    ensures text { OnOk result (out.new.items ≡ out.old.items ++ decimal_text width number) }
    ensures back { NumbersReadBack }
{
    write_digits(out, u64::from(number), 10, width)
}

// Appends a number in decimal digits, with no zero in front: a caller writes no width, which `write_padded` alone would ask for.
pub fn write_number(out: &mut Vec<u8>, number: u32) -> Result<(), AllocError>
    ensures text { OnOk result (out.new.items ≡ out.old.items ++ decimal_text 1 number) }
    ensures back { NumbersReadBack }
{
    write_padded(out, number, 1)
}
