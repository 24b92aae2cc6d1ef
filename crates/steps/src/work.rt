// The state that a call works on.
ghost use Rattle.std.specs.Prelude.{◌≡◌, ◌<◌};
ghost use Rattle.calendar.specs.Calendar.{seconds_in_all};
ghost use Rattle.steps.specs.Work.{State};

use access::ReadyMemory;
use head::head::Head;
use memory::memory::BlockMemory;
use std::marker::Model;

// The memory, what block 0 is to say once the call ends, and the clock, which the calendar has.
// How far the logs may have grown, and grow, stays in clauses (`Totals n`, `Grows n`): each step has its own number.
#[derive(Drop)]
pub struct Work<M: BlockMemory> {
    pub memory: ReadyMemory<M>,
    pub head: Head,
    pub clock: u32,
}

impl<M: BlockMemory> Model for Work<M> {
    ghost Value = { State };

    ghost view = { λ w. record { clock = w.clock; head = w.head; blocks = M.BlockMemory.blocks w.memory.memory; loan = M.BlockMemory.loan w.memory.memory } };

    // It holds before a call too, so that a contract may take the date of the clock before.
    ghost invariant = { λ w. w.clock < seconds_in_all };
}
