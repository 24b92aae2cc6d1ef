// Bytes as pairs of hex digits.
ghost use Rattle.std.specs.Prelude.{◌≡◌, ◌<◌, ◌++◌, if◌then◌else◌, Some, None, Ok, MatchResult, OnOk, nat_lt};
ghost use Rattle.std.specs.Char.{digit_value};
ghost use Rattle.text.specs.declared.hex.HexFault.TheVariants.{NoMemory};
ghost use Rattle.text.specs.Pairs.{Value, taken, whole, hex_read, Refuses, pair_text, pairs_text, hex_text, BytesReadBack};

use crate::digits::upper_digit;
use crate::words::is_blank;
use std::alloc::{AllocError, AllocFailed, Global};

// No Display: its words stand once, with those of the complaints that it is part of.
#[derive(Clone, Copy, PartialEq, Eq, Debug)]
pub enum HexFault {
    NotHex,
    OddDigits,
    NoMemory,
}

impl<T: Drop> From<AllocFailed<T>> for HexFault {
    ghost from_gives = { λ e r. r ≡ NoMemory };

    fn from(_: AllocFailed<T>) -> HexFault {
        Self::NoMemory
    }
}

// The value of a hex digit, in either case.
fn digit_value(byte: u8) -> Option<u8>
    ensures { result ≡ (if nat_lt (digit_value byte) 16 then Some (digit_value byte) else None) }
{
    char::from(byte).to_digit(16).map(|value| value as u8)
}

// Takes a digit: it opens a pair, or ends the pair that `high` opened.
fn take_digit(read: &mut Vec<u8>, high: Option<u8>, low: u8) -> Result<Option<u8>, HexFault>
    requires { (Value high) × (low < 16) }
    ensures { MatchResult result (λ next. Value next × ((read.new.items, next) ≡ taken read.old.items high low)) (λ e. e ≡ NoMemory) }
{
    match high {
        None => Ok(Some(low)),
        Some(value) => {
            read.push(value * 16 + low)?;
            Ok(None)
        }
    }
}

// The bytes that pairs of digits write, with blanks passed over, and the digit that is left.
fn read_pairs(heap: Global, line: &[u8]) -> Result<(Vec<u8>, Option<u8>), HexFault>
    ensures { MatchResult result (λ p. hex_read line.now ≡ whole p.0.items p.1) (Refuses (hex_read line.now)) }
{
    let mut read = Vec::new(heap);
    let mut high: Option<u8> = None;
    for byte in line {
        if is_blank(*byte) {
            continue;
        }
        let Some(low) = digit_value(*byte) else {
            return Err(HexFault::NotHex);
        };
        high = take_digit(&mut read, high, low)?;
    }
    Ok((read, high))
}

// The bytes that the hex digits of a line write, two to a byte, wherever its blanks stand.
pub fn read_hex(heap: Global, line: &[u8]) -> Result<Vec<u8>, HexFault>
    ensures { MatchResult result (λ v. hex_read line.now ≡ Ok v.items) (Refuses (hex_read line.now)) }
{
    let (read, high) = read_pairs(heap, line)?;
    match high {
        None => Ok(read),
        Some(_) => Err(HexFault::OddDigits),
    }
}

fn write_pair(out: &mut Vec<u8>, byte: u8) -> Result<(), AllocError>
    ensures { OnOk result (out.new.items ≡ out.old.items ++ pair_text byte) }
{
    out.extend_from_slice(&[upper_digit(byte / 16), upper_digit(byte % 16)])
}

// Appends each byte as a pair of digits, with the separator between two pairs.
fn write_pairs(out: &mut Vec<u8>, bytes: &[u8], separator: u8) -> Result<(), AllocError>
    ensures { OnOk result (out.new.items ≡ out.old.items ++ pairs_text separator bytes.now) }
{
    let Some((first, rest)) = bytes.split_first() else {
        return Ok(());
    };
    write_pair(out, *first)?;
    for byte in rest {
        out.push(separator)?;
        write_pair(out, *byte)?;
    }
    Ok(())
}

// Appends each byte as two upper-case hex digits, with a space between two bytes.
#[tactic(auto, using(crate::proofs::Pairing::reads_back))]
pub fn write_hex(out: &mut Vec<u8>, bytes: &[u8]) -> Result<(), AllocError>
    ensures text { OnOk result (out.new.items ≡ out.old.items ++ hex_text bytes.now) }
    ensures back { BytesReadBack }
{
    write_pairs(out, bytes, b' ')
}
