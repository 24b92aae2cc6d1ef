// What no answer of a meter depends on, and what every call leaves as it is.
#![tactic(auto)]

ghost use Rattle.std.specs.Prelude.{◌≡◌};
ghost use Rattle.access.specs.Ready.{needed};
ghost use Rattle.unseen.specs.Unseen.{AnswersAlike, KeepsItsOwn, UnseenIsFree};

use access::NEEDED;

// The first block that no call reads or writes.
#[tactic(auto, using(crate::proofs::Serving::answers_alike, crate::proofs::Serving::keeps_its_own, crate::proofs::Free::unseen_is_free))]
pub fn first_unseen() -> u32
    ensures value { result ≡ needed }
    ensures alike { AnswersAlike }
    ensures own { KeepsItsOwn }
    ensures free { UnseenIsFree }
{
    NEEDED
}
