// Energy and the tariff.
ghost use Rattle.std.specs.Prelude.{◌≡◌, ◌↔◌, true, false, IsNone, IfSome};
ghost use Rattle.numbers.specs.Names.{tier_number};
ghost use Rattle.model.specs.Calls.{tier_at, feeding};
ghost use Rattle.model.specs.Tariffs.{is_tier, active_tier, fed};
ghost use Rattle.steps.specs.Work.{working, Grows};

use crate::parts::{CALENDAR, OVERRIDE, start_of};
use access::ReadyRef;
use calendar::split;
use directory::staged::current_block;
use head::head::Head;
use memory::memory::BlockMemory;
use numbers::tier::Tier;
use pending::table::PendingTable;
use records::registers::Registers;

// The tier that a byte names, if it names one.
fn tier_of(byte: u8) -> Option<Tier>
    ensures none { IsNone result ↔ (is_tier byte ≡ false) }
    ensures some { IfSome result (λ tier. (is_tier byte ≡ true) × (tier_number tier ≡ byte)) }
{
    Tier::try_from(byte).ok()
}

// The override's tier if it has one, else the hour's if that is one, else the first.
fn active_tier(overriding: &[u8; OVERRIDE], calendar: &[u8; CALENDAR], clock: u32) -> Tier
    ensures { tier_number result ≡ active_tier overriding.now calendar.now clock }
{
    let (_, rest) = split(clock);
    let hour = calendar[4 + (rest / 3600) as usize];
    match (tier_of(overriding[0]), tier_of(hour)) {
        (Some(tier), _) => tier,
        (None, Some(tier)) => tier,
        (None, None) => Tier::First,
    }
}

// The tier that counts at a clock, by the tables in force.
fn tier_at<M: BlockMemory>(memory: ReadyRef<'_, M>, clock: u32) -> Tier
    ensures { tier_number result ≡ tier_at clock (M.BlockMemory.blocks memory.entry.memory.now) }
{
    let overriding = start_of(memory, current_block(PendingTable::Override));
    let calendar = start_of(memory, current_block(PendingTable::Calendar));
    active_tier(&overriding, &calendar, clock)
}

// Watt-hours for the total and one tier. Registers wrap.
fn add_energy(registers: &mut Registers, tier: Tier, wh: u32)
    ensures { registers.new ≡ fed (tier_number tier) wh registers.old }
{
    registers.total = registers.total.wrapping_add(wh);
    match tier {
        Tier::First => registers.tier1 = registers.tier1.wrapping_add(wh),
        Tier::Second => registers.tier2 = registers.tier2.wrapping_add(wh),
        Tier::Third => registers.tier3 = registers.tier3.wrapping_add(wh),
        Tier::Fourth => registers.tier4 = registers.tier4.wrapping_add(wh),
    }
}

// Watt-hours for the total and the active tier. No method of `Work`: the memory is only read, and the clock may be any.
#[tactic(auto, unfolding(model::specs::Calls::feeding))]
pub fn feed<M: BlockMemory>(memory: ReadyRef<'_, M>, head: &mut Head, clock: u32, wh: u32)
    ensures head { head.new ≡ (feeding clock wh (working head.old (M.BlockMemory.blocks memory.entry.memory.now))).head }
    ensures blocks { M.BlockMemory.blocks memory.entry.memory.now ≡ (feeding clock wh (working head.old (M.BlockMemory.blocks memory.entry.memory.now))).blocks }
    ensures counts { Grows 0 head.old head.new }
{
    add_energy(&mut head.registers, tier_at(memory, clock), wh);
}
