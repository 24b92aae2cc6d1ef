// The six bytes at the front of a staging.
ghost use Rattle.std.specs.Prelude.{◌≡◌, ◌∷◌, Some, codes, slice_index};
ghost use Rattle.pending.specs.Kinds.{kind_number};
ghost use Rattle.pending.specs.Triggers.{parts_of, trigger_of, plan_of};
ghost use Rattle.pending.specs.Laws.{IsReadAs, IsWrittenAs};

use crate::kind::Kind;
use crate::trigger::Trigger;
use std::error::Error;
use std::fmt;

// What a staged table waits for, and whether a self-read comes before it takes force.
#[derive(Clone, Copy, PartialEq, Eq, Debug)]
pub struct Plan {
    pub trigger: Trigger,
    pub self_read: bool,
}

// Six bytes that are no plan. An error type of this crate: there is no one number to tell.
#[derive(Clone, Copy, PartialEq, Eq, Debug)]
pub struct NoPlan;

impl fmt::Display for NoPlan {
    ghost output = { λ _. Some (codes "no plan has these bytes") };

    fn fmt<W: fmt::Write>(&self, f: &mut fmt::Formatter<W>) -> fmt::Result {
        f.write_str("no plan has these bytes")
    }
}

impl Error for NoPlan {}

// The trigger of a kind and five bytes.
fn trigger_from(kind: Kind, parts: [u8; 5]) -> Option<Trigger>
    ensures { result ≡ trigger_of (kind_number kind) (slice_index parts 0) (slice_index parts 1) (slice_index parts 2) (slice_index parts 3) (slice_index parts 4) }
{
    let trigger = match (kind, parts) {
        (Kind::Absolute, [year, month, day, hour, minute]) => Trigger::Absolute {
            year,
            month,
            day,
            hour,
            minute,
        },
        (Kind::Relative, [weeks, days, hours, minutes, seconds]) => Trigger::Relative {
            weeks,
            days,
            hours,
            minutes,
            seconds,
        },
        (Kind::OnCommand, [0, 0, 0, 0, 0]) => Trigger::OnCommand,
        _ => return None,
    };
    trigger.is_well_formed().then_some(trigger)
}

// The six bytes with a given first one.
fn bytes_from(first: u8, trigger: Trigger) -> [u8; 6]
    ensures { result ≡ first ∷ parts_of trigger }
{
    match trigger {
        Trigger::Absolute {
            year,
            month,
            day,
            hour,
            minute,
        } => [first, year, month, day, hour, minute],
        Trigger::Relative {
            weeks,
            days,
            hours,
            minutes,
            seconds,
        } => [first, weeks, days, hours, minutes, seconds],
        Trigger::OnCommand => [first, 0, 0, 0, 0, 0],
    }
}

// The plan of six bytes: the kind in bits 0 to 3 and "self-read first" in bit 4 of the first, then five bytes of the kind. None if they are not well formed.
fn plan_from(bytes: [u8; 6]) -> Option<Plan>
    ensures { result ≡ plan_of bytes }
{
    let [first, a, b, c, d, e] = bytes;
    if first >= 32 {
        return None;
    }
    let kind = Kind::try_from(first % 16).ok()?;
    let trigger = trigger_from(kind, [a, b, c, d, e])?;
    Some(Plan {
        trigger,
        self_read: first / 16 == 1,
    })
}

impl TryFrom<[u8; 6]> for Plan {
    type Error = NoPlan;

    ghost try_from_gives = { IsReadAs };

    #[tactic(auto, using(crate::proofs::PlanBytes::plan_laws))]
    fn try_from(bytes: [u8; 6]) -> Result<Plan, NoPlan> {
        plan_from(bytes).ok_or(NoPlan)
    }
}

impl From<Plan> for [u8; 6] {
    ghost from_gives = { IsWrittenAs };

    #[tactic(auto, using(crate::proofs::PlanBytes::plan_laws))]
    fn from(plan: Plan) -> [u8; 6] {
        let first = u8::from(plan.trigger.kind()) + 16 * u8::from(plan.self_read);
        bytes_from(first, plan.trigger)
    }
}
