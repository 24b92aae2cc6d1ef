// Why a line of a script is not carried out.
ghost use Rattle.std.specs.Prelude.{◌≡◌, ℕ, List, [], ◌∷◌, ◌++◌, OnOk};
ghost use Rattle.lines.specs.declared.complaint.Complaint.TheVariants.{Number, Hex, NoMemory};

use std::alloc::AllocError;
use text::hex::HexFault;
use text::number::NumberFault;

#[derive(Clone, Copy, PartialEq, Eq, Debug)]
pub enum Complaint {
    UnknownCommand,
    UnknownMake,
    MissingWord,
    SurplusWord,
    Number(NumberFault),
    Hex(HexFault),
    // At least one byte is wanted.
    NoBytes,
    // More bytes than a block's content has.
    TooManyBytes,
    // There is no image yet.
    NoImage,
    // The bytes do not lie inside the image.
    OutsideImage,
    // The meter is started, or it is not.
    Started,
    NotStarted,
    NoMemory,
}

impl From<NumberFault> for Complaint {
    ghost from_gives = { λ e r. r ≡ Number e };

    fn from(fault: NumberFault) -> Complaint {
        Complaint::Number(fault)
    }
}

impl From<HexFault> for Complaint {
    ghost from_gives = { λ e r. r ≡ Hex e };

    fn from(fault: HexFault) -> Complaint {
        Complaint::Hex(fault)
    }
}

impl From<AllocError> for Complaint {
    ghost from_gives = { λ e r. r ≡ NoMemory };

    fn from(_: AllocError) -> Complaint {
        Complaint::NoMemory
    }
}

impl Complaint {
    // What is printed of it. Not Display: `write!` to a Vec ends in an io::Error, where want of memory is an AllocError here.
    fn words(self) -> &'static str {
        match self {
            Complaint::UnknownCommand => "no such command",
            Complaint::UnknownMake => "an image is bare or checked",
            Complaint::MissingWord => "a word is missing",
            Complaint::SurplusWord => "there is a word too many",
            Complaint::Number(NumberFault::NotDecimal) => "a decimal number is wanted",
            Complaint::Number(NumberFault::TooLarge) => "a number is too large",
            Complaint::Hex(HexFault::NotHex) => "a byte is not written in hex digits",
            Complaint::Hex(HexFault::OddDigits) => "the number of hex digits is odd",
            Complaint::NoBytes => "at least one byte is wanted",
            Complaint::TooManyBytes => "a block has 510 bytes",
            Complaint::NoImage => "there is no image yet",
            Complaint::OutsideImage => "the bytes do not lie inside the image",
            Complaint::Started => "the meter is started",
            Complaint::NotStarted => "the meter is not started",
            Complaint::Hex(HexFault::NoMemory) | Complaint::NoMemory => {
                "there is not enough memory"
            }
        }
    }
}

// Appends the line that says why a line of the script was not carried out. Its words are free.
pub fn write_complaint(out: &mut Vec<u8>, complaint: Complaint) -> Result<(), AllocError>
    ensures { OnOk result ((words : List ℕ) × (out.new.items ≡ out.old.items ++ 63 ∷ 32 ∷ [] ++ words ++ 10 ∷ [])) }
{
    out.extend_from_slice(b"? ")?;
    out.extend_from_slice(complaint.words().as_bytes())?;
    out.push(b'\n')?;
    Ok(())
}
