// Reads and writes that cannot fail, in a memory that was found ready for a meter.
#![tactic(auto)]

ghost use Rattle.std.specs.Prelude.{⊤, ◌≡◌, ◌<◌, length, Ok, Err, OnOk, MatchResult};
ghost use Rattle.access.specs.Ready.{needed, Ready, content_of, stored, ready_verdict, size_verdict};

use memory::fault::MemoryFault;
use memory::memory::{BlockMemory, CONTENT};
use std::alloc::AllocError;

// How many blocks a meter needs.
pub const NEEDED: u32 = 27;

// Whether the memory has the blocks that a meter needs.
pub fn check_size<M: BlockMemory>(memory: &M) -> Result<(), MemoryFault>
    ensures { result ≡ size_verdict (M.BlockMemory.blocks memory.now) }
{
    let size = memory.size();
    if size < NEEDED {
        return Err(MemoryFault::TooSmall(size));
    }
    Ok(())
}

// Whether the blocks that a meter needs are there and sound.
pub fn check_blocks<M: BlockMemory>(memory: &M) -> Result<(), MemoryFault>
    ensures answer { result ≡ ready_verdict (M.BlockMemory.blocks memory.now) }
    ensures ready { OnOk result (Ready (M.BlockMemory.blocks memory.now)) }
{
    check_size(memory)?;
    match memory.lowest_corrupt(NEEDED) {
        Some(block) => Err(MemoryFault::Corrupt(block)),
        None => Ok(()),
    }
}

// A ready memory that is only read.
pub struct ReadyRef<'a, M: BlockMemory> {
    pub memory: &'a M,
    pub ghost ready: { Ready (M.BlockMemory.blocks memory.now) },
}

// By hand: a derive would ask that the memory itself is Clone and Copy.
impl<M: BlockMemory> Clone for ReadyRef<'_, M> {
    ghost is_clone = { λ a b. b.memory.now ≡ a.memory.now };

    ghost is_infallible = { λ _. ⊤ };

    fn clone(&self) -> Result<Self, AllocError> {
        Ok(*self)
    }
}

impl<M: BlockMemory> Copy for ReadyRef<'_, M> {}

impl<'a, M: BlockMemory> ReadyRef<'a, M> {
    // What a check found ready.
    pub fn new(found: &'a M) -> ReadyRef<'a, M>
        requires { Ready (M.BlockMemory.blocks found.now) }
        ensures { result.memory.now ≡ found.now }
    {
        ReadyRef { memory: found }
    }

    // The content of a block, into a buffer. That it is one of those blocks stays a clause: they are constants of the directory, and a type for them would be opened at each use.
    #[tactic(auto, using(crate::proofs::Readiness::ready_content))]
    pub fn load(self, block: u32, content: &mut [u8; CONTENT])
        requires { block < needed }
        ensures content { content.new ≡ content_of (M.BlockMemory.blocks self.entry.memory.now) block }
    {
        let _ = self.memory.read(block, content);
    }
}

// A memory that was found ready, and is from then on. One that is lent is a memory too, and each function that writes leaves the loan (`loan`): so whoever lent it knows what it holds afterwards.
#[derive(Drop)]
pub struct ReadyMemory<M: BlockMemory> {
    pub memory: M,
    pub ghost ready: { Ready (M.BlockMemory.blocks memory) },
}

impl<M: BlockMemory> ReadyMemory<M> {
    // The memory if it is ready, or else what is wrong and the memory back.
    pub fn check(memory: M) -> Result<ReadyMemory<M>, (MemoryFault, M)>
        ensures { MatchResult result (λ r. (r.memory ≡ memory) × (ready_verdict (M.BlockMemory.blocks memory) ≡ Ok tt)) (λ e. (e.1 ≡ memory) × (ready_verdict (M.BlockMemory.blocks memory) ≡ Err e.0)) }
    {
        match check_blocks(&memory) {
            Ok(()) => Ok(ReadyMemory { memory }),
            Err(fault) => Err((fault, memory)),
        }
    }

    // What a check found ready.
    pub fn new(found: M) -> ReadyMemory<M>
        requires { Ready (M.BlockMemory.blocks found) }
        ensures { result.memory ≡ found }
    {
        ReadyMemory { memory: found }
    }

    // The memory itself, given back whole.
    pub fn into_inner(self) -> M
        ensures memory { result ≡ self.memory }
        ensures ready { Ready (M.BlockMemory.blocks result) }
    {
        let ReadyMemory { memory } = self;
        memory
    }

    // The same memory, only read.
    pub fn as_ref(&self) -> ReadyRef<'_, M>
        ensures { result.memory.now ≡ self.now.memory }
    {
        ReadyRef {
            memory: &self.memory,
        }
    }

    // The content of a block, into a buffer.
    pub fn load(&self, block: u32, content: &mut [u8; CONTENT])
        requires { block < needed }
        ensures content { content.new ≡ content_of (M.BlockMemory.blocks self.now.memory) block }
    {
        self.as_ref().load(block, content);
    }

    // A new content for a block.
    #[tactic(auto, using(crate::proofs::Readiness::storing))]
    pub fn store(&mut self, block: u32, content: &[u8; CONTENT])
        requires { block < needed }
        ensures blocks { M.BlockMemory.blocks self.new.memory ≡ stored (M.BlockMemory.blocks self.old.memory) block content.now }
        ensures loan { M.BlockMemory.loan self.new.memory ≡ M.BlockMemory.loan self.old.memory }
    {
        let _ = self.memory.write(block, content);
    }
}

// A new content for a block of a memory that is lent. It stays ready, and whoever lent it knows what it holds.
pub fn store<M: BlockMemory>(memory: &mut M, block: u32, content: &[u8; CONTENT])
    requires ready { Ready (M.BlockMemory.blocks memory.old) }
    requires below { block < needed }
    ensures blocks { M.BlockMemory.blocks memory.new ≡ stored (M.BlockMemory.blocks memory.old) block content.now }
    ensures ready { Ready (M.BlockMemory.blocks memory.new) }
{
    ReadyMemory::new(memory).store(block, content);
}
