// The digits of a number in a base, as bytes.
ghost use Rattle.std.specs.Prelude.{◌≡◌, ◌<◌, ◌≤◌, ◌++◌, reverse, length, take, drop, vec_len, OnOk};
ghost use Rattle.text.specs.Figures.{lower_digit, upper_digit, digits_text};

use std::alloc::AllocError;

// The digit of a value below 36: a decimal digit or a lower-case letter.
pub(crate) fn lower_digit(value: u8) -> u8
    requires { value < 36 }
    ensures { result ≡ lower_digit value }
{
    if value < 10 {
        b'0' + value
    } else {
        b'a' - 10 + value
    }
}

// The same with an upper-case letter.
pub(crate) fn upper_digit(value: u8) -> u8
    requires { value < 36 }
    ensures { result ≡ upper_digit value }
{
    lower_digit(value).to_ascii_uppercase()
}

// Turns the items from `start` on around. Not in its caller: with the loans of the Vec and of its end in one body, the proof did not close.
fn reverse_from(items: &mut [u8], start: usize)
    requires { start ≤ length items.old }
    ensures { items.new ≡ take start items.old ++ reverse (drop start items.old) }
{
    items[start..].reverse();
}

// Appends the digits of `number`, the highest first, at least `width` of them. Not `write!`: its error is an io::Error, not an AllocError.
pub(crate) fn write_digits(
    out: &mut Vec<u8>,
    number: u64,
    base: u8,
    width: usize,
) -> Result<(), AllocError>
    requires { (2 ≤ base) × (base ≤ 36) }
    ensures { OnOk result (out.new.items ≡ out.old.items ++ digits_text base width number) }
{
    let start = out.len();
    let mut rest = number;
    let mut missing = width;
    // No `for`: how many digits there are is known when the number is spent.
    while rest > 0 || missing > 0 {
        out.push(lower_digit((rest % u64::from(base)) as u8))?;
        rest /= u64::from(base);
        missing = missing.saturating_sub(1);
    }
    reverse_from(out.as_mut_slice(), start);
    Ok(())
}
