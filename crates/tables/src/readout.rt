// What a meter's tables are read out of.
ghost use Rattle.std.specs.Prelude.{◌≡◌, ◌<◌};
ghost use Rattle.calendar.specs.Calendar.{seconds_in_all};
ghost use Rattle.tables.specs.Readouts.{State};
ghost use Rattle.tables.specs.Responses.{response_if};

use crate::response::Response;
use access::ReadyRef;
use head::head::Head;
use memory::memory::BlockMemory;
use std::marker::Model;

// The memory, what block 0 says, the clock, and the last response. The calendar has the clock, and the second of the last activation.
// What is read, from where and into what stays in parameters: it changes from read to read, and `work` is the caller's to use again.
#[derive(Drop)]
pub struct Readout<'a, M: BlockMemory> {
    pub memory: ReadyRef<'a, M>,
    pub head: &'a Head,
    pub clock: u32,
    pub response: Option<Response>,
}

impl<'a, M: BlockMemory> Model for Readout<'a, M> {
    ghost Value = { State };

    ghost view = { λ r. record { clock = r.clock; response = response_if r.response; head = r.head.now; blocks = M.BlockMemory.blocks r.memory.memory.now } };

    ghost invariant = { λ r. (r.clock < seconds_in_all) × (r.head.now.activation.second < seconds_in_all) };
}
