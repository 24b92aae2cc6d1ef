// Any part of any table.
ghost use Rattle.std.specs.Prelude.{◌≡◌, ◌+◌, ◌≤◌, length};
ghost use Rattle.fields.specs.Words.{part};
ghost use Rattle.fields.specs.Patches.{overlay};
ghost use Rattle.request.specs.Answers.{answer_bytes};
ghost use Rattle.model.specs.Tables.{view_table};
ghost use Rattle.tables.specs.Lengths.{view_length, shown_length};
ghost use Rattle.tables.specs.Readouts.{shown};

use crate::copy::copy_part;
use crate::readout::Readout;
use crate::views::{date_bytes, pending_status, response_bytes};
use directory::entry::{Source, View};
use directory::staged::{current_block, pending_block, staged_length};
use memory::memory::{BlockMemory, CONTENT};
use request::answer::seal;

// Where the utility table stands, and its bytes.
const UTILITY_BLOCK: u32 = 1;

const UTILITY_LENGTH: usize = 40;

impl<M: BlockMemory> Readout<'_, M> {
    // A part of a table that is made from the state.
    fn view_part(&self, view: View, from: usize, out: &mut [u8])
        requires { from + length out.old ≤ view_length view }
        ensures { out.new ≡ part (length out.old) from (view_table view self.now.clock self.now.response self.now.head) }
    {
        match view {
            View::PendingStatus => copy_part(&pending_status(self.head), from, out),
            View::Response => copy_part(&response_bytes(self.response), from, out),
            View::Registers => copy_part(&<[u8; 20]>::from(self.head.registers), from, out),
            View::Clock => copy_part(&date_bytes(self.clock), from, out),
        }
    }

    // The part of a table from a place on that `out` has room for, with `work` for one block.
    #[tactic(auto, unfolding(model::specs::Tables::table_bytes))]
    pub fn read_part(&self, source: Source, from: usize, out: &mut [u8], work: &mut [u8; CONTENT])
        requires inside { from + length out.old ≤ shown_length source }
        ensures bytes { out.new ≡ part (length out.old) from (shown source self.now) }
    {
        match source {
            Source::Computed(view) => self.view_part(view, from, out),
            Source::Initiate => copy_part(&[], from, out),
            Source::Utility => self.block_part(&[], UTILITY_BLOCK, UTILITY_LENGTH, from, out, work),
            Source::Staged(table) => {
                let size = staged_length(table) as usize;
                self.block_part(&[], current_block(table), size, from, out, work);
            }
            Source::Pending(table) => {
                let front = self.head.rows[table.index()].trigger_bytes();
                let size = staged_length(table) as usize;
                self.block_part(&front, pending_block(table), size, from, out, work);
            }
            Source::Log(name) => self.log_part(name, from, out, work),
        }
    }

    // The answer to a read of a part of a table. The bytes are read into their place in it.
    #[tactic(auto, using(crate::proofs::Joins::read_sealed))]
    pub fn answer_part(
        &self,
        source: Source,
        from: usize,
        count: u16,
        answer: &mut [u8],
        work: &mut [u8; CONTENT],
    )
        requires inside { from + count ≤ shown_length source }
        requires few { count ≤ 1024 }
        requires room { 1028 ≤ length answer.old }
        ensures bytes { answer.new ≡ overlay (answer_bytes (part count from (shown source self.now))) answer.old }
    {
        let end = 3 + count as usize;
        self.read_part(source, from, &mut answer[3..end], work);
        seal(answer, count);
    }
}
