// The row in which a staged table waits.
ghost use Rattle.std.specs.Prelude.{◌≡◌, MatchBool};
ghost use Rattle.pending.specs.declared.row.Row.TheVariants.{Empty, Waiting};
ghost use Rattle.pending.specs.Rows.{is_waiting, is_due, HasComeDue, row_plan_bytes};
ghost use Rattle.pending.specs.Laws.{RowLaws};

use crate::plan::Plan;
use crate::trigger::Due;

// No `Option` of a staging: a row is an enum of its own by a rule of the project, matched and changed in place.
#[derive(Clone, Copy, PartialEq, Eq, Debug)]
pub enum Row {
    Empty,
    Waiting { plan: Plan, due: Due },
}

impl Row {
    // A staging. What waited before is gone.
    pub fn stage(&mut self, plan: Plan, due: Due)
        ensures row { self.new ≡ Waiting plan due }
        ensures laws { RowLaws }
    {
        *self = Row::Waiting { plan, due };
    }

    // Nothing waits any more: what waited was withdrawn or took force.
    pub fn clear(&mut self)
        ensures { self.new ≡ Empty }
    {
        *self = Row::Empty;
    }

    pub fn is_waiting(&self) -> bool
        ensures { result ≡ is_waiting self.now }
    {
        matches!(self, Row::Waiting { .. })
    }

    // Whether what waits is to take force at this clock.
    pub fn is_due(&self, clock: u32) -> bool
        ensures test { result ≡ is_due self.now clock }
        ensures meaning { MatchBool result (HasComeDue self.now clock) (HasComeDue self.now clock → ⊥) }
    {
        matches!(*self, Row::Waiting { due: Due::At(second), .. } if second <= clock)
    }

    // The six trigger bytes as they were sent, and zeros where nothing waits.
    pub fn trigger_bytes(&self) -> [u8; 6]
        ensures { result ≡ row_plan_bytes self.now }
    {
        match *self {
            Row::Empty => [0; 6],
            Row::Waiting { plan, .. } => plan.into(),
        }
    }
}
