// Staged tables take force.
ghost use Rattle.std.specs.Prelude.{◌≡◌};
ghost use Rattle.pending.specs.Tables.{all_tables};
ghost use Rattle.pending.specs.Rows.{is_due, is_waiting};
ghost use Rattle.model.specs.States.{on_head, on_blocks};
ghost use Rattle.model.specs.Steps.{brought_in, row_spent, activated, activated_if, each_activated, time_changed};
ghost use Rattle.steps.specs.Work.{after, Totals, Grows, Did, forced, Computes};

use crate::parts::{CALENDAR, load_start, store_start};
use crate::work::Work;
use directory::staged::{current_block, pending_block, staged_length};
use head::head::Activation;
use memory::memory::BlockMemory;
use pending::plan::Plan;
use pending::row::Row;
use pending::table::PendingTable;
use records::event::Event;

impl<M: BlockMemory> Work<M> {
    // The staged bytes become the table.
    fn bring_in(&mut self, table: PendingTable)
        ensures { self.new ≡ after (on_blocks (brought_in table)) self.old }
    {
        let mut room = [0u8; CALENDAR];
        let bytes = &mut room[0..staged_length(table) as usize];
        load_start(self.memory.as_ref(), pending_block(table), bytes);
        store_start(&mut self.memory, current_block(table), bytes);
    }

    // The row empties, and the clock becomes the second of the last activation.
    fn spend_row(&mut self, table: PendingTable)
        ensures after { self.new ≡ after (on_head (row_spent table self.old.clock)) self.old }
        ensures counts { Grows 0 self.old.head self.new.head }
    {
        self.head.rows[table.index()] = Row::Empty;
        self.head.activation = Activation {
            happened: true,
            second: self.clock,
        };
    }

    // What waits takes force: the self-read if there is to be one, the bytes, the row, and the event.
    fn take_force(&mut self, table: PendingTable, plan: Plan)
        requires room { Totals 4260000000 self.old.head }
        ensures after { self.new ≡ after (forced table self.old.clock plan.self_read) self.old }
        ensures counts { Grows 3 self.old.head self.new.head }
    {
        if plan.self_read {
            self.take_self_read();
        }
        self.bring_in(table);
        self.spend_row(table);
        self.note(Event::PendingActivated(table.into()));
    }

    // The row of a table takes force if one waits; whether one did.
    #[tactic(auto, unfolding(model::specs::Steps::activated), using(crate::proofs::Speaking::noted_speaks))]
    pub fn activate(&mut self, table: PendingTable) -> bool
        requires room { Totals 4250000000 self.old.head }
        ensures did { Did (activated self.old.clock table) self.old result self.new }
        ensures waiting { Did (activated_if is_waiting self.old.clock table) self.old result self.new }
        ensures counts { Grows 3 self.old.head self.new.head }
    {
        match self.head.rows[table.index()] {
            Row::Empty => false,
            Row::Waiting { plan, .. } => {
                self.take_force(table, plan);
                true
            }
        }
    }

    // The rows that a test chooses take force, in directory order; whether any did.
    // A clause for each test that is passed: with one for every test each caller would need an answer.
    fn activate_each<F: Fn(Row) -> bool>(&mut self, chooses: F) -> bool
        requires callable { F.IsAlwaysCallable chooses }
        requires room { Totals 4230000000 self.old.head }
        ensures waiting { Computes (F.post chooses) is_waiting → Did (each_activated is_waiting self.old.clock all_tables) self.old result self.new }
        ensures due { Computes (F.post chooses) (λ row. is_due row self.old.clock) → Did (time_changed self.old.clock) self.old result self.new }
        ensures counts { Grows 9 self.old.head self.new.head }
    {
        let mut any = false;
        for table in PendingTable::ALL {
            if chooses(self.head.rows[table.index()]) {
                any |= self.activate(table);
            }
        }
        any
    }

    // Every row that waits takes force, in directory order.
    pub fn activate_all(&mut self) -> bool
        requires room { Totals 4230000000 self.old.head }
        ensures did { Did (each_activated is_waiting self.old.clock all_tables) self.old result self.new }
        ensures counts { Grows 9 self.old.head self.new.head }
    {
        self.activate_each(|row| row.is_waiting())
    }

    // A change of time: every row that is due takes force, in directory order. Whether anything was recorded.
    pub fn change_time(&mut self) -> bool
        requires room { Totals 4230000000 self.old.head }
        ensures did { Did (time_changed self.old.clock) self.old result self.new }
        ensures counts { Grows 9 self.old.head self.new.head }
    {
        let clock = self.clock;
        self.activate_each(|row| row.is_due(clock))
    }
}
