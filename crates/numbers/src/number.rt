// What a number is that no name has.
ghost use Rattle.std.specs.Prelude.{◌++◌, Some, codes};
ghost use Rattle.std.specs.Fmt.{decimal};

use std::error::Error;
use std::fmt;

// A number that no name of a kind has. Each `try_from` is written out: it names its own variants, and a macro writes no ghost member, as `try_from_gives`.
#[derive(Clone, Copy, PartialEq, Eq, Debug)]
pub struct UnknownNumber(pub u16);

impl fmt::Display for UnknownNumber {
    ghost output = { λ e. Some (decimal e.0 ++ codes " names nothing") };

    fn fmt<W: fmt::Write>(&self, f: &mut fmt::Formatter<W>) -> fmt::Result {
        write!(f, "{} names nothing", self.0)
    }
}

impl Error for UnknownNumber {}
