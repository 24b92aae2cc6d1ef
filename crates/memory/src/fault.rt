// Why a memory refuses.
#[derive(Debug, Clone, Copy, PartialEq, Eq)]
pub enum MemoryFault {
    // It has too few blocks for what was asked: its size.
    TooSmall(u32),
    // A block is corrupt: its number.
    Corrupt(u32),
}
