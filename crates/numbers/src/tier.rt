// The tiers of the tariff.
ghost use Rattle.std.specs.Prelude.{◌≡◌};
ghost use Rattle.numbers.specs.Names.{tier_number, tier_numbered};
ghost use Rattle.numbers.specs.Numbers.{Numbered};

use crate::number::UnknownNumber;

#[derive(Clone, Copy, PartialEq, Eq, Debug)]
pub enum Tier {
    First = 1,
    Second = 2,
    Third = 3,
    Fourth = 4,
}

impl From<Tier> for u8 {
    ghost from_gives = { λ tier number. number ≡ tier_number tier };

    fn from(tier: Tier) -> u8 {
        tier as u8
    }
}

impl TryFrom<u8> for Tier {
    type Error = UnknownNumber;

    ghost try_from_gives = { Numbered tier_number tier_numbered };

    fn try_from(number: u8) -> Result<Tier, UnknownNumber> {
        match number {
            1 => Ok(Tier::First),
            2 => Ok(Tier::Second),
            3 => Ok(Tier::Third),
            4 => Ok(Tier::Fourth),
            _ => Err(UnknownNumber(u16::from(number))),
        }
    }
}
