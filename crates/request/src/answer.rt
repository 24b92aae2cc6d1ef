// Answers over the front of a buffer, and a scratch that is wiped.
ghost use Rattle.std.specs.Prelude.{◌≡◌, ◌+◌, ◌<◌, ◌≤◌, true, [], ◌∷◌, ◌++◌, length, OnOk, cond, nat_lt, Ok, Err};
ghost use Rattle.fields.specs.Words.{part, be_bytes};
ghost use Rattle.fields.specs.Patches.{overlay};
ghost use Rattle.numbers.specs.Names.{code_number};
ghost use Rattle.refusals.specs.declared.fault.ServiceFault.TheVariants.{ShortBuffer};
ghost use Rattle.request.specs.Asks.{whole};
ghost use Rattle.request.specs.Answers.{check_byte, answer_bytes, refused, zeroed, wiped, WipesAlike, buffer_verdict};

use crate::sums::byte_sum;
use fields::bytes::{put_bytes, put8};
use fields::order::Big;
use fields::words::put16;
use numbers::service::AnswerCode;
use refusals::fault::ServiceFault;
use refusals::refusal::Refusal;

// The least lengths of the buffers.
const ANSWER: usize = 1028;

const SCRATCH: usize = 510;

#[tactic(auto, using(fields::proofs::Overlays::overlay_is_patch))]
fn put_front(bytes: &mut [u8], new: &[u8])
    requires { length new.now ≤ length bytes.old }
    ensures { bytes.new ≡ overlay new.now bytes.old }
{
    put_bytes(bytes, 0, new);
}

// Not in `wipe`, its one caller: it is proved of any count, and the prover would write 510 zeros out.
#[tactic(auto, unfolding(crate::specs::Answers::zeroed, fields::specs::Patches::overlay))]
fn zero_front(bytes: &mut [u8], count: usize)
    requires { count ≤ length bytes.old }
    ensures { bytes.new ≡ zeroed count bytes.old }
{
    bytes[0..count].fill(0);
}

// The check of the bytes that stand in an answer. Its room stays a clause of the three: a struct round the buffer and the count would be made for one call.
#[tactic(auto, using(crate::proofs::Seals::whole_answer, crate::proofs::Seals::length_part))]
fn check_of(answer: &[u8], count: u16) -> u8
    requires { count + 4 ≤ length answer.now }
    ensures check { result ≡ check_byte (part count 3 answer.now) }
    ensures whole { whole 3 count (answer_bytes (part count 3 answer.now)) ≡ true }
{
    0u8.wrapping_sub(byte_sum(&answer[3..3 + count as usize]))
}

// A code and a count before the bytes that stand in an answer, and a check after them.
#[tactic(auto, using(crate::proofs::Seals::enclosed))]
fn enclose(answer: &mut [u8], code: AnswerCode, count: u16, check: u8)
    requires { count + 4 ≤ length answer.old }
    ensures { answer.new ≡ overlay (code_number code ∷ (be_bytes 2 (length (part count 3 answer.old)) ++ (part count 3 answer.old ++ (check ∷ [])))) answer.old }
{
    put8(answer, 0, u8::from(code));
    put16::<Big>(answer, 1, count);
    put8(answer, 3 + count as usize, check);
}

// Makes an answer of the bytes that stand in their place in it.
pub fn seal(answer: &mut [u8], count: u16)
    requires { count + 4 ≤ length answer.old }
    ensures bytes { answer.new ≡ overlay (answer_bytes (part count 3 answer.old)) answer.old }
    ensures whole { whole 3 count (answer_bytes (part count 3 answer.old)) ≡ true }
{
    let check = check_of(answer, count);
    enclose(answer, AnswerCode::Ok, count, check);
}

// A code alone.
pub fn put_code(answer: &mut [u8], code: AnswerCode)
    requires { 0 < length answer.old }
    ensures { answer.new ≡ overlay (code_number code ∷ []) answer.old }
{
    put_front(answer, &[u8::from(code)]);
}

// The code of a refusal, if it has one.
pub fn put_refusal(answer: &mut [u8], fault: ServiceFault)
    requires { 0 < length answer.old }
    ensures { answer.new ≡ refused fault answer.old }
{
    if let Some(code) = fault.code() {
        put_code(answer, code);
    }
}

// Zeros in the first 510 bytes, whatever was written there.
#[tactic(auto, using(crate::proofs::Wipes::wiped_overlay))]
pub fn wipe(scratch: &mut [u8])
    requires { 510 ≤ length scratch.old }
    ensures zeros { scratch.new ≡ wiped scratch.old }
    ensures alike { WipesAlike }
{
    zero_front(scratch, SCRATCH);
}

fn check_room(length: usize, least: usize) -> Result<(), ServiceFault>
    requires { least ≤ 1028 }
    ensures verdict { result ≡ cond (nat_lt length least) (Err (ShortBuffer length)) (Ok tt) }
    ensures room { OnOk result (least ≤ length) }
{
    if length < least {
        return Err(ServiceFault::ShortBuffer(length as u32));
    }
    Ok(())
}

// Whether the buffers are long enough.
pub fn check_buffers(answer: usize, scratch: usize) -> Result<(), ServiceFault>
    ensures answer { result ≡ buffer_verdict answer scratch }
    ensures room { OnOk result ((1028 ≤ answer) × (510 ≤ scratch)) }
{
    check_room(answer, ANSWER)?;
    check_room(scratch, SCRATCH)
}
