// Parts of an answer, appended to a transcript.
ghost use Rattle.std.specs.Prelude.{◌≡◌, OnOk};
ghost use Rattle.lines.specs.Writing.{numbered, marked, date_after};

use calendar::DateTime;
use std::alloc::AllocError;
use text::number::{write_number, write_padded};

// Appends text, a number and text.
pub fn write_numbered(
    out: &mut Vec<u8>,
    front: &[u8],
    number: u32,
    back: &[u8],
) -> Result<(), AllocError>
    ensures { OnOk result (out.new.items ≡ numbered out.old.items front.now number back.now) }
{
    out.extend_from_slice(front)?;
    write_number(out, number)?;
    out.extend_from_slice(back)?;
    Ok(())
}

// Appends a number of at least so many digits, and a mark.
fn write_marked(out: &mut Vec<u8>, number: u32, width: usize, mark: u8) -> Result<(), AllocError>
    ensures { OnOk result (out.new.items ≡ marked out.old.items width number mark) }
{
    write_padded(out, number, width)?;
    out.push(mark)?;
    Ok(())
}

// Appends a date-time and its weekday. Each part has its width and its mark, so that a loop would want a table of them.
pub fn write_date(out: &mut Vec<u8>, date: DateTime, weekday: u8) -> Result<(), AllocError>
    ensures { OnOk result (out.new.items ≡ date_after out.old.items date weekday) }
{
    write_marked(out, 2000 + u32::from(date.year), 4, b'-')?;
    write_marked(out, u32::from(date.month), 2, b'-')?;
    write_marked(out, u32::from(date.day), 2, b' ')?;
    write_marked(out, u32::from(date.hour), 2, b':')?;
    write_marked(out, u32::from(date.minute), 2, b':')?;
    write_marked(out, u32::from(date.second), 2, b' ')?;
    write_number(out, u32::from(weekday))
}
