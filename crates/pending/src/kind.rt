// The kinds of triggers.
ghost use Rattle.std.specs.Prelude.{◌≡◌};
ghost use Rattle.numbers.specs.Numbers.{Numbered};
ghost use Rattle.pending.specs.Kinds.{kind_number, kind_numbered};

use numbers::number::UnknownNumber;

#[derive(Clone, Copy, PartialEq, Eq, Debug)]
pub enum Kind {
    Absolute = 0,
    Relative = 1,
    OnCommand = 2,
}

impl From<Kind> for u8 {
    ghost from_gives = { λ kind number. number ≡ kind_number kind };

    fn from(kind: Kind) -> u8 {
        kind as u8
    }
}

impl TryFrom<u8> for Kind {
    type Error = UnknownNumber;

    ghost try_from_gives = { Numbered kind_number kind_numbered };

    fn try_from(number: u8) -> Result<Kind, UnknownNumber> {
        match number {
            0 => Ok(Kind::Absolute),
            1 => Ok(Kind::Relative),
            2 => Ok(Kind::OnCommand),
            _ => Err(UnknownNumber(u16::from(number))),
        }
    }
}
