// Block 0 and what it says.
ghost use Rattle.std.specs.Prelude.{◌≡◌, length};
ghost use Rattle.head.specs.Layout.{block_length};
ghost use Rattle.head.specs.Heads.{decode_head, encode_head};
ghost use Rattle.head.specs.Order.{in_order};
ghost use Rattle.head.specs.Laws.{Laws, Frames};

use crate::codec::{piece_at, status_of, three_from, write_as};
use crate::layout;
use crate::order::is_in_order_as;
use logs::head::LogHead;
use pending::row::Row;
use records::registers::Registers;
use records::status::Status;

// The last activation of a staged table: whether there was one, and its second.
// No Option: block 0 may keep a second beside a cleared flag, and is written back byte for byte.
#[derive(Clone, Copy)]
pub struct Activation {
    pub happened: bool,
    pub second: u32,
}

// Rows in directory order; logs: history, self-reads, load profile.
#[derive(Clone, Copy)]
pub struct Head {
    pub rows: [Row; 3],
    pub logs: [LogHead; 3],
    pub activation: Activation,
    pub registers: Registers,
    pub status: Status,
}

// What a content of block 0 says. Any content says something.
#[tactic(auto, using(crate::proofs::HeadLaws::laws), unfolding(crate::specs::Heads::rows_from, crate::specs::Heads::logs_from, crate::specs::Heads::activation_from, crate::specs::Heads::registers_from, crate::specs::Heads::status_from))]
pub fn decode(content: &[u8; layout::BLOCK_LENGTH]) -> Head
    ensures equation { result ≡ decode_head content.now }
    ensures laws { Laws }
{
    Head {
        rows: three_from(content, layout::ROWS),
        logs: three_from(content, layout::LOGS),
        activation: piece_at(content, layout::ACTIVATION),
        registers: piece_at(content, layout::REGISTERS),
        status: status_of(content[layout::STATUS]),
    }
}

// The content of block 0 that says so, in place of what was there.
#[tactic(auto, using(crate::proofs::HeadLaws::laws, crate::proofs::Frames::frames))]
pub fn encode(head: &Head, content: &mut [u8; layout::BLOCK_LENGTH])
    ensures equation { content.new ≡ encode_head head.now }
    ensures laws { Laws }
    ensures frames { Frames }
{
    write_as(layout::NUMBER, head, content);
}

// Whether a content is in order as block 0.
pub fn in_order(content: &[u8; layout::BLOCK_LENGTH]) -> bool
    ensures { result ≡ in_order content.now }
{
    is_in_order_as(layout::NUMBER, content)
}
