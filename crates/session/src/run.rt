// What a session does with a command.
ghost use Rattle.std.specs.Prelude.{◌≡◌, replicate, IfOk, vec_len};
ghost use Rattle.script.specs.Commands.{asked_of, said_of, image, on};
ghost use Rattle.session.specs.Images.{size_of};
ghost use Rattle.session.specs.Asking.{answer_on, bytes_after};
ghost use Rattle.session.specs.Sessions.{image_of, state_of, moment_of, ImageMade, Performed};

use crate::held::HeldImage;
use crate::image::{answer, size};
use crate::session::Session;
use calendar::{DateTime, from_second, weekday_at};
use lines::complaint::Complaint;
use script::answer::Answer;
use script::command::{Command, ImageCommand, Make};
use std::alloc::{AllocError, Global};
use text::number::NumberFault;

// The most bytes that an image may have.
const LIMIT: u32 = 16_777_216;

// The functions of `image` take the bytes, and are no methods: with both loans in one body, of the bytes and of the memory in them, the proof did not close.
impl HeldImage {
    fn size(&mut self) -> u32
        ensures value { result ≡ size_of self.old.make self.old.bytes.items }
        ensures same { image_of self.new ≡ image_of self.old }
    {
        size(self.make, self.bytes.as_mut_slice())
    }

    fn answer(&mut self, command: &ImageCommand) -> Result<Answer, Complaint>
        ensures answer { result ≡ answer_on self.old.make self.old.bytes.items (asked_of command.now) }
        ensures after { image_of self.new ≡ (self.old.make, bytes_after self.old.make self.old.bytes.items (asked_of command.now)) }
    {
        answer(self.make, self.bytes.as_mut_slice(), command)
    }
}

fn new_image(heap: Global, make: Make, count: u32) -> Result<(HeldImage, u32), Complaint>
    ensures { ImageMade make count result }
{
    if count > LIMIT {
        return Err(Complaint::Number(NumberFault::TooLarge));
    }
    let bytes = vec![in heap; 0; count as usize]?;
    let mut held = HeldImage { make, bytes };
    let size = held.size();
    Ok((held, size))
}

fn moment(second: u32) -> Option<(DateTime, u8)>
    ensures { result ≡ moment_of second }
{
    Some((from_second(second)?, weekday_at(second)))
}

impl Session {
    fn make_image(&mut self, heap: Global, make: Make, count: u32) -> Result<Answer, Complaint>
        ensures { Performed (state_of self.old) (image make count) result (state_of self.new) }
    {
        let (held, size) = new_image(heap, make, count)?;
        self.image = Some(held);
        Ok(Answer::Image(size))
    }

    fn ask(&mut self, command: &ImageCommand) -> Result<Answer, Complaint>
        ensures { Performed (state_of self.old) (on (asked_of command.now)) result (state_of self.new) }
    {
        match &mut self.image {
            None => Err(Complaint::NoImage),
            Some(held) => held.answer(command),
        }
    }

    // Carries a command out.
    pub fn perform(&mut self, heap: Global, command: &Command) -> Result<Answer, Complaint>
        ensures { Performed (state_of self.old) (said_of command.now) result (state_of self.new) }
    {
        match command {
            Command::Image(make, count) => self.make_image(heap, *make, *count),
            Command::On(asked) => self.ask(asked),
            Command::Second(date) => Ok(Answer::Second(date.to_second())),
            Command::Moment(second) => Ok(Answer::Moment(moment(*second))),
        }
    }
}
