// The tick of the clock, and the start.
ghost use Rattle.std.specs.Prelude.{◌≡◌, ◌<◌, ◌&&◌, ◌||◌, length, ◌==◌, slice_index};
ghost use Rattle.calendar.specs.Calendar.{seconds_in_all, weekday_of};
ghost use Rattle.pending.specs.declared.table.PendingTable.TheVariants.{Calendar};
ghost use Rattle.model.specs.States.{on_head};
ghost use Rattle.model.specs.Tables.{current_table};
ghost use Rattle.model.specs.Calls.{scheduled_read, interval_read, ticked, mark_started, power_up};
ghost use Rattle.model.specs.Tariffs.{is_daily, is_weekly, is_scheduled};
ghost use Rattle.steps.specs.Work.{after, at_clock, Totals, Grows, Did, Still};

use crate::parts::{CALENDAR, start_of};
use crate::work::Work;
use access::ReadyRef;
use calendar::{split, weekday};
use directory::staged::current_block;
use memory::memory::BlockMemory;
use pending::table::PendingTable;
use records::event::Event;
use records::status::Status;

// The seconds between two interval records.
const INTERVAL: u32 = 900;

// Whether the calendar asks for a self-read on a day: on every one, or on this weekday.
fn is_read_day(calendar: &[u8; CALENDAR], day: u32) -> bool
    ensures { result ≡ (is_daily calendar.now || (is_weekly calendar.now && weekday_of day == slice_index calendar.now 1)) }
{
    let flags = calendar[0];
    flags % 2 == 1 || (flags / 2 % 2 == 1 && weekday(day) == calendar[1])
}

// Whether the calendar asks for a self-read at a clock.
#[tactic(auto, unfolding(model::specs::Tariffs::is_scheduled))]
fn is_scheduled(calendar: &[u8; CALENDAR], clock: u32) -> bool
    ensures { result ≡ is_scheduled calendar.now clock }
{
    let (day, rest) = split(clock);
    clock % 60 == 0
        && rest / 60 % 60 == u32::from(calendar[3])
        && rest / 3600 == u32::from(calendar[2])
        && is_read_day(calendar, day)
}

// Whether the calendar in force does. Its block is read at second 0 of a minute only.
#[tactic(auto, unfolding(model::specs::Tariffs::is_scheduled))]
fn is_read_due<M: BlockMemory>(memory: ReadyRef<'_, M>, clock: u32) -> bool
    ensures { result ≡ is_scheduled (current_table Calendar (M.BlockMemory.blocks memory.entry.memory.now)) clock }
{
    if clock % 60 != 0 {
        return false;
    }
    let calendar = start_of(memory, current_block(PendingTable::Calendar));
    is_scheduled(&calendar, clock)
}

impl<M: BlockMemory> Work<M> {
    // The self-read, if the calendar in force asks for one at the clock; whether it does.
    #[tactic(auto, using(crate::proofs::Speaking::self_read_speaks))]
    fn read_if_scheduled(&mut self) -> bool
        requires room { Totals 4220000000 self.old.head }
        ensures did { Did (scheduled_read self.old.clock) self.old result self.new }
        ensures counts { Grows 2 self.old.head self.new.head }
    {
        let due = is_read_due(self.memory.as_ref(), self.clock);
        if due {
            self.take_self_read();
        }
        due
    }

    // The interval record, if an interval ends at the clock; whether one does.
    #[tactic(auto, using(crate::proofs::Speaking::interval_speaks))]
    fn read_interval(&mut self) -> bool
        requires room { Totals 4220000000 self.old.head }
        ensures did { Did (interval_read self.old.clock) self.old result self.new }
        ensures counts { Grows 1 self.old.head self.new.head }
    {
        let ends = self.clock % INTERVAL == 0;
        if ends {
            self.take_interval();
        }
        ends
    }

    // Apart from `tick_to`, which sets the clock before it: its proof needs a file, which a public function has not.
    // What a second brings that the clock has come to: rows that are due take force, then the scheduled self-read by the calendar then in force, then the interval record.
    fn pass_second(&mut self) -> bool
        requires room { Totals 4210000000 self.old.head }
        ensures did { Did (ticked self.old.clock) self.old result self.new }
        ensures counts { Grows 12 self.old.head self.new.head }
        ensures still { Still result self.old.head self.new.head self.old.blocks self.new.blocks }
    {
        let activated = self.change_time();
        let scheduled = self.read_if_scheduled();
        let interval = self.read_interval();
        activated | scheduled | interval
    }

    // The clock comes to a second, with what it brings. Whether anything was recorded.
    pub fn tick_to(&mut self, second: u32) -> bool
        requires clock { second < seconds_in_all }
        requires room { Totals 4210000000 self.old.head }
        ensures did { Did (ticked second) (at_clock second self.old) result self.new }
        ensures counts { Grows 12 self.old.head self.new.head }
        ensures still { Still result self.old.head self.new.head self.old.blocks self.new.blocks }
    {
        self.clock = second;
        self.pass_second()
    }

    // The status says that the meter was started.
    fn mark_started(&mut self)
        ensures after { self.new ≡ after (on_head mark_started) self.old }
        ensures counts { Grows 0 self.old.head self.new.head }
    {
        self.head.status.started = true;
    }

    // A start: the status says so, the event, and the change of time.
    #[tactic(auto, using(crate::proofs::Steady::powered_on))]
    pub fn power_up(&mut self)
        requires room { Totals 4210000000 self.old.head }
        ensures after { self.new ≡ after (power_up self.old.clock) self.old }
        ensures counts { Grows 10 self.old.head self.new.head }
    {
        self.mark_started();
        self.note(Event::PowerUp);
        self.change_time();
    }
}
