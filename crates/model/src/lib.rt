// The plain meter. It is definitions, in specs/, which the contracts of the calls cite; here is what stands of all of them.
#![tactic(auto)]

ghost use Rattle.std.specs.Prelude.{◌≡◌};
ghost use Rattle.model.specs.Calls.{log_limit};
ghost use Rattle.model.specs.Laws.{RefusalsLeave, BuffersLeft};
ghost use Rattle.model.specs.Soundness.{StaysSound};

// The most that a log may have recorded when a call begins.
#[tactic(auto, using(crate::proofs::Refusing::refusals_leave, crate::proofs::Refusing::buffers_left, crate::proofs::ServingSound::stays_sound))]
pub fn log_limit() -> u32
    ensures value { result ≡ log_limit }
    ensures refusals { RefusalsLeave }
    ensures buffers { BuffersLeft }
    ensures sound { StaysSound }
{
    4_000_000_000
}
