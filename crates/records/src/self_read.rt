// A record of the self-reads: the registers and when they were read.
ghost use Rattle.records.specs.Layouts.{self_read_bytes, self_read_of, SelfReadFits};
ghost use Rattle.records.specs.Lengths.{self_read_narrow, self_read_long};
ghost use Rattle.records.specs.Readings.{self_read_back};
ghost use Rattle.records.specs.Wholes.{self_read_only};

use crate::kind::Record;
use crate::layout::date_in;
use crate::registers::Registers;
use calendar::DateTime;
use fields::bytes::put_bytes;

#[derive(Clone, Copy, PartialEq, Eq, Debug)]
pub struct SelfRead {
    pub at: DateTime,
    pub registers: Registers,
}

impl Record for SelfRead {
    const WIDTH: usize = 26;

    ghost WIDTH = { 26 };

    ghost bytes = { self_read_bytes };

    ghost parsed = { self_read_of };

    ghost fits = { SelfReadFits };

    ghost narrow = { self_read_narrow };

    ghost long = { self_read_long };

    ghost back = { self_read_back };

    ghost only = { self_read_only };

    #[tactic(auto, using(crate::proofs::Fills::in_turn), unfolding(crate::specs::Layouts::self_read_layout))]
    fn write(&self, slot: &mut [u8]) {
        put_bytes(slot, 0, &<[u8; 6]>::from(self.at));
        put_bytes(slot, 6, &<[u8; 20]>::from(self.registers));
    }

    fn read(slot: &[u8]) -> Option<SelfRead> {
        Some(SelfRead {
            at: date_in(slot),
            registers: Registers::read_at(slot, 6),
        })
    }
}
