// A line of a script, carried out and answered.
ghost use Rattle.std.specs.Prelude.{◌≡◌, OnOk};
ghost use Rattle.session.specs.Sessions.{state_of};
ghost use Rattle.session.specs.Transcripts.{Obeyed, Shown, Responded};

use crate::session::Session;
use lines::complaint::{Complaint, write_complaint};
use script::answer::{Answer, write_answer};
use script::reader::read_command;
use std::alloc::{AllocError, Global};
use text::words::{is_comment, write_echo};

fn write_outcome(out: &mut Vec<u8>, outcome: &Result<Answer, Complaint>) -> Result<(), AllocError>
    ensures { OnOk result (Shown out.old.items outcome.now out.new.items) }
{
    match outcome {
        Ok(answer) => write_answer(out, answer),
        Err(complaint) => write_complaint(out, *complaint),
    }
}

impl Session {
    fn obey(&mut self, heap: Global, line: &[u8]) -> Result<Answer, Complaint>
        ensures { Obeyed (state_of self.old) line.now result (state_of self.new) }
    {
        let command = read_command(heap, line)?;
        self.perform(heap, &command)
    }

    // Appends the echo of a line and its answer; nothing for a line that is blank or a comment.
    pub fn respond(
        &mut self,
        heap: Global,
        line: &[u8],
        out: &mut Vec<u8>,
    ) -> Result<(), AllocError>
        ensures { OnOk result (Responded (state_of self.old) line.now out.old.items out.new.items (state_of self.new)) }
    {
        if is_comment(line) {
            return Ok(());
        }
        write_echo(out, line)?;
        out.push(b'\n')?;
        let outcome = self.obey(heap, line);
        write_outcome(out, &outcome)
    }
}
