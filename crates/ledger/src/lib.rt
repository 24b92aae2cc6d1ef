// The ledger of a meter's life, and the law of lives. They are definitions, in specs/; here is what stands of them.
#![tactic(auto)]

ghost use Rattle.std.specs.Prelude.{◌≡◌, ◌+◌};
ghost use Rattle.model.specs.Calls.{log_limit};
ghost use Rattle.ledger.specs.Statement.{EveryLife};

use model::log_limit;

// The most that a log may have recorded at any point of a life: no call records more than twelve entries in one log, and none that records
// begins above the limit.
#[tactic(auto, using(crate::proofs::Lives::every_life))]
pub fn total_limit() -> u32
    ensures value { result ≡ log_limit + 12 }
    ensures lives { EveryLife }
{
    log_limit() + 12
}
