// The energy registers: the total, and one for each tier.
// No array: each has its name, which says more than an index, so the five are written and read one by one.
ghost use Rattle.std.specs.Prelude.{◌≡◌, ◌+◌, ◌≤◌, length};
ghost use Rattle.records.specs.Layouts.{registers_at, IsWrittenAs};

use fields::order::Little;
use fields::words::{get32, put32};

#[derive(Clone, Copy, PartialEq, Eq, Debug)]
pub struct Registers {
    pub total: u32,
    pub tier1: u32,
    pub tier2: u32,
    pub tier3: u32,
    pub tier4: u32,
}

impl From<Registers> for [u8; 20] {
    ghost from_gives = { IsWrittenAs };

    #[tactic(auto, using(crate::proofs::Fills::in_turn), unfolding(crate::specs::Layouts::five_words))]
    fn from(registers: Registers) -> [u8; 20] {
        let mut bytes = [0u8; 20];
        put32::<Little>(&mut bytes, 0, registers.total);
        put32::<Little>(&mut bytes, 4, registers.tier1);
        put32::<Little>(&mut bytes, 8, registers.tier2);
        put32::<Little>(&mut bytes, 12, registers.tier3);
        put32::<Little>(&mut bytes, 16, registers.tier4);
        bytes
    }
}

impl Registers {
    // The registers in the 20 bytes from a place on.
    pub fn read_at(bytes: &[u8], at: usize) -> Registers
        requires { at + 20 ≤ length bytes.now }
        ensures { result ≡ registers_at at bytes.now }
    {
        Registers {
            total: get32::<Little>(bytes, at),
            tier1: get32::<Little>(bytes, at + 4),
            tier2: get32::<Little>(bytes, at + 8),
            tier3: get32::<Little>(bytes, at + 12),
            tier4: get32::<Little>(bytes, at + 16),
        }
    }
}
