// What a command on a meter is answered, and the lines that say so.
ghost use Rattle.std.specs.Prelude.{◌≡◌, [], ◌∷◌, ◌++◌, OnOk};
ghost use Rattle.dialog.specs.Answers.{layer_text, refused_after, verdict_after, ticks_after, code_after, served_after, tail_text, scratch_text, told, buffers_after, meter_answer_after, any_answer_after};

use calendar::DateTime;
use lines::writing::{write_date, write_numbered};
use memory::fault::MemoryFault;
use numbers::service::AnswerCode;
use refusals::cause::Layer;
use refusals::fault::{MeterFault, ServiceFault};
use refusals::refusal::Refusal;
use script::answer::{Answer, write_answer};
use std::alloc::AllocError;
use text::hex::write_hex;

// The bytes of a buffer behind what a call may write.
#[derive(Clone, Copy)]
pub enum Tail {
    Kept,
    Changed,
}

// By hand, not by Display: `write!` to a Vec ends in an io::Error, not an AllocError, and its clause says nothing of the exact text.
impl Tail {
    fn text(self) -> &'static [u8]
        ensures { result.now ≡ tail_text self }
    {
        match self {
            Tail::Kept => b"ok",
            Tail::Changed => b"changed",
        }
    }
}

// The bytes of the scratch that a call may write.
#[derive(Clone, Copy)]
pub enum Scratch {
    Zeroed,
    Untouched,
    Other,
}

// By hand, as the text of a tail is.
impl Scratch {
    fn text(self) -> &'static [u8]
        ensures { result.now ≡ scratch_text self }
    {
        match self {
            Scratch::Zeroed => b"zeroed",
            Scratch::Untouched => b"untouched",
            Scratch::Other => b"other",
        }
    }
}

// What became of the buffers of a service.
#[derive(Clone, Copy)]
pub struct Buffers {
    pub answer_tail: Tail,
    pub scratch: Scratch,
    pub scratch_tail: Tail,
}

#[derive(Drop)]
pub enum MeterAnswer {
    Format(Result<(), MemoryFault>),
    Start(Result<(), MeterFault>),
    // The bytes of the answer.
    Serve(Result<Vec<u8>, ServiceFault>),
    ServeIn(Result<Vec<u8>, ServiceFault>, Buffers),
    Tick(Result<(), MeterFault>),
    // So many were accepted, and what the last one was answered.
    Ticks(u32, Result<(), MeterFault>),
    Energy(Result<(), MeterFault>),
    Stop,
    // A second, its date-time and its weekday.
    Clock(u32, DateTime, u8),
}

#[derive(Drop)]
pub enum AnyAnswer {
    // On an image or on dates.
    Bench(Answer),
    Meter(MeterAnswer),
}

// The name of a layer, as bytes too.
// By hand, as the text of a tail is.
fn layer_text(layer: Layer) -> &'static [u8]
    ensures { result.now ≡ layer_text layer }
{
    match layer {
        Layer::Memory => b"memory",
        Layer::Meter => b"meter",
        Layer::Service => b"service",
    }
}

fn write_refused<R: Refusal>(out: &mut Vec<u8>, fault: &R) -> Result<(), AllocError>
    ensures { OnOk result (out.new.items ≡ refused_after out.old.items (R.Refusal.cause_of fault.now) (R.Refusal.place_of fault.now)) }
{
    let cause = fault.cause();
    write_numbered(out, b"refused ", u32::from(u8::from(cause)), b" place ")?;
    write_numbered(out, b"", fault.place(), b" layer ")?;
    out.extend_from_slice(layer_text(cause.layer()))
}

// Appends the name of a call, and what it said.
fn write_verdict<R: Refusal>(
    out: &mut Vec<u8>,
    call: &[u8],
    verdict: &Result<(), R>,
) -> Result<(), AllocError>
    ensures { OnOk result (out.new.items ≡ verdict_after R.Refusal.cause_of R.Refusal.place_of (out.old.items ++ call.now) verdict.now) }
{
    out.extend_from_slice(call)?;
    match verdict {
        Ok(()) => out.extend_from_slice(b"ok"),
        Err(fault) => write_refused(out, fault),
    }
}

fn write_ticks(
    out: &mut Vec<u8>,
    count: u32,
    verdict: &Result<(), MeterFault>,
) -> Result<(), AllocError>
    ensures { OnOk result (out.new.items ≡ ticks_after out.old.items count verdict.now) }
{
    match verdict {
        Ok(()) => write_numbered(out, b"ticks: ", count, b" ok"),
        Err(fault) => {
            write_numbered(out, b"ticks: ", count, b" ok, then ")?;
            write_refused(out, fault)
        }
    }
}

fn write_code(out: &mut Vec<u8>, code: Option<AnswerCode>) -> Result<(), AllocError>
    ensures { OnOk result (out.new.items ≡ code_after out.old.items code) }
{
    match code {
        None => out.extend_from_slice(b" code none"),
        Some(code) => {
            out.extend_from_slice(b" code ")?;
            write_hex(out, &[u8::from(code)])
        }
    }
}

fn write_served(out: &mut Vec<u8>, served: &Result<Vec<u8>, ServiceFault>) -> Result<(), AllocError>
    ensures { OnOk result (out.new.items ≡ served_after out.old.items served.now) }
{
    out.extend_from_slice(b"serve: ")?;
    match served {
        Ok(bytes) => write_hex(out, bytes.as_slice()),
        Err(fault) => {
            write_refused(out, fault)?;
            write_code(out, fault.code())
        }
    }
}

// Appends what is told of, and how it is.
fn write_told(out: &mut Vec<u8>, what: &[u8], how: &[u8]) -> Result<(), AllocError>
    ensures { OnOk result (out.new.items ≡ told out.old.items what.now how.now) }
{
    out.extend_from_slice(what)?;
    out.extend_from_slice(how)
}

#[tactic(auto, unfolding(crate::specs::Answers::answer_tail_after, crate::specs::Answers::scratch_after, crate::specs::Answers::scratch_tail_after))]
fn write_buffers(out: &mut Vec<u8>, buffers: Buffers) -> Result<(), AllocError>
    ensures { OnOk result (out.new.items ≡ buffers_after out.old.items buffers) }
{
    write_told(out, b"buffers: answer-tail ", buffers.answer_tail.text())?;
    write_told(out, b", scratch ", buffers.scratch.text())?;
    write_told(out, b", scratch-tail ", buffers.scratch_tail.text())
}

fn write_served_in(
    out: &mut Vec<u8>,
    served: &Result<Vec<u8>, ServiceFault>,
    buffers: Buffers,
) -> Result<(), AllocError>
    ensures { OnOk result (out.new.items ≡ buffers_after (served_after out.old.items served.now ++ 10 ∷ []) buffers) }
{
    write_served(out, served)?;
    out.push(b'\n')?;
    write_buffers(out, buffers)
}

// Appends the text of an answer.
fn write_meter_answer(out: &mut Vec<u8>, answer: &MeterAnswer) -> Result<(), AllocError>
    ensures { OnOk result (out.new.items ≡ meter_answer_after out.old.items answer.now) }
{
    match answer {
        MeterAnswer::Format(verdict) => write_verdict(out, b"format: ", verdict),
        MeterAnswer::Start(verdict) => write_verdict(out, b"start: ", verdict),
        MeterAnswer::Serve(served) => write_served(out, served),
        MeterAnswer::ServeIn(served, buffers) => write_served_in(out, served, *buffers),
        MeterAnswer::Tick(verdict) => write_verdict(out, b"tick: ", verdict),
        MeterAnswer::Ticks(count, verdict) => write_ticks(out, *count, verdict),
        MeterAnswer::Energy(verdict) => write_verdict(out, b"energy: ", verdict),
        MeterAnswer::Stop => out.extend_from_slice(b"stop: ok"),
        MeterAnswer::Clock(second, date, weekday) => {
            write_numbered(out, b"clock: ", *second, b" ")?;
            write_date(out, *date, *weekday)
        }
    }
}

// Appends the line of an answer, whatever its kind; two lines where the buffers are told.
pub fn write_any_answer(out: &mut Vec<u8>, answer: &AnyAnswer) -> Result<(), AllocError>
    ensures { OnOk result (out.new.items ≡ any_answer_after out.old.items answer.now ++ 10 ∷ []) }
{
    match answer {
        AnyAnswer::Bench(answer) => write_answer(out, answer),
        AnyAnswer::Meter(answer) => {
            write_meter_answer(out, answer)?;
            out.push(b'\n')?;
            Ok(())
        }
    }
}
