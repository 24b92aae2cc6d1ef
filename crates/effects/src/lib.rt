// What the calls of the plain meter alter, and what they leave.
#![tactic(auto)]

ghost use Rattle.std.specs.Prelude.{◌≡◌};
ghost use Rattle.access.specs.Ready.{needed};
ghost use Rattle.effects.specs.Alters.{Alters, WaitingLeft, BehindLeft, AsMany};
ghost use Rattle.effects.specs.Reads.{Reads};
ghost use Rattle.effects.specs.Writes.{Writes};

use access::NEEDED;

// The first block that no call alters.
#[tactic(auto, using(crate::proofs::AlteredBlocks::alters, crate::proofs::LeftBlocks::waiting_left, crate::proofs::LeftBlocks::behind_left, crate::proofs::Numbering::as_many, crate::proofs::Reading::reads, crate::proofs::Writing::writes))]
pub fn first_untouched() -> u32
    ensures value { result ≡ needed }
    ensures alters { Alters }
    ensures waiting { WaitingLeft }
    ensures behind { BehindLeft }
    ensures as_many { AsMany }
    ensures reads { Reads }
    ensures writes { Writes }
{
    NEEDED
}
