// The code of the calls, of which lentoquist has each by its name: refusals first, then the chip under the record's image. They take slices
// of every length and every content. The room calls says what each answers and leaves in every lent byte.

#![tactic(auto)]

ghost use Rattle.std.specs.Prelude.{◌≡◌, List, ℕ, ◌+◌, ◌*◌, ◌%◌, ◌^◌, ◌≤◌, length, None};
ghost use Rattle.std.specs.Result.{result_err};
ghost use Rattle.device.specs.Limits.{record_size};
ghost use Rattle.device.specs.Numbers as numbers;
ghost use Rattle.device.specs.declared.Units.{Units};
ghost use Rattle.calls.specs.Calls as calls;
ghost use Rattle.code_calls.specs.Inner as inner;

use device::{Answer, Reason, Refusal};
use packed::{Packed, record, setup};

// ---- what is asked

// What is asked of the chip. Its frame and its numbers stand beside it: `call` takes each of them by itself, whatever is asked, and lent as one value
// they took more instructions (docs/bench.md).
#[derive(Clone, Copy)]
pub enum Asked {
    Attention,
    Arrival,
    Turns,
}

// ---- the answer as one number

// The number of a refusal, 0 if a call is not refused.
fn refusal_or_0(refusal: Option<Refusal>) -> u16
    ensures { result ≡ numbers.refusal_or_0 refusal }
{
    refusal.map_or(0, |r| u16::from(r))
}

// The number of a reason, 0 if no frame was dropped.
fn reason_or_0(reason: Option<Reason>) -> u8
    ensures { result ≡ numbers.reason_or_0 reason }
{
    reason.map_or(0, |r| u8::from(r))
}

// What the length, the edge and the reason count in an answer: bits 16, 32 and 40.
const LENGTH: u64 = 1 << 16;

const EDGE: u64 = 1 << 32;

const REASON: u64 = 1 << 40;

// A report has 16 bits.
const REPORTS: u32 = 1 << 16;

// Number in bits 0 to 15, length in 16 to 31, edge in 32, reason in 40 to 47.
#[tactic(auto, unfolding(calls::specs::Answer::answer_number))]
fn answer_number(a: Answer) -> u64
    ensures { result ≡ calls.answer_number a }
{
    refusal_or_0(a.refusal) as u64
        + a.length as u64 * LENGTH
        + u64::from(a.edge) * EDGE
        + reason_or_0(a.reason) as u64 * REASON
}

// The answer of a refused call: its number, length 0, no edge, no reason.
fn refuse(r: Refusal) -> u64
    ensures { result ≡ calls.answer_number (calls.refused_answer r) }
{
    answer_number(Answer {
        refusal: Some(r),
        length: 0,
        edge: false,
        reason: None,
    })
}

// How long the lent areas are beside the record, and the longest frame that may arrive.
const HOLDING: usize = 2048;

const OUTGOING: usize = 2048;

const LONGEST: usize = 2048;

// Why a call is refused, if it is not for its record: the rows of the table in their order, by the lengths of what is lent and of the frame.
fn right_lengths(
    memory: usize,
    holding: usize,
    outgoing: usize,
    kept: usize,
    frame: usize,
) -> Result<(), Refusal>
    ensures { result_err result ≡ inner.by_lengths memory holding outgoing kept frame }
{
    if !memory::size_allowed(memory) {
        return Err(Refusal::Memory);
    }
    if kept != record::SIZE {
        return Err(Refusal::Record);
    }
    if holding != HOLDING {
        return Err(Refusal::Holding);
    }
    if outgoing != OUTGOING {
        return Err(Refusal::Outgoing);
    }
    if frame > LONGEST {
        return Err(Refusal::Overlong);
    }
    Ok(())
}

// The answer of a call that is not refused and sends nothing: an edge, or why a frame was dropped.
fn answer_of(edge: bool, reason: Option<Reason>) -> u64
    ensures { result ≡ calls.answer_number (record { refusal = None; length = 0; edge = edge; reason = reason }) }
{
    answer_number(Answer {
        refusal: None,
        length: 0,
        edge,
        reason,
    })
}

// ---- the calls on a record that is an image: the setup is lent as it stands there, the units' numbers go back at the end

// The areas stand beside each other and not in a struct: an inner function takes those alone that it uses.

// The record is a slice and no array: what is lent is a slice, and its length was just asked.

// An attention to the device of the numbers k.
fn attention_on(memory: &mut [u8], kept: &mut [u8], k: Packed) -> u64
    requires { length kept.old ≡ record_size }
    ensures { (h out : List ℕ) → inner.OnImage k inner.attends
        (calls.areas_of memory.old h out kept.old) result memory.new h out kept.new }
{
    let setup = kept.last_chunk_mut::<{ setup::SIZE }>().unwrap();
    let a = code_attention::attend(memory, setup, k);
    let after = a.packed;
    image::store(kept, after);
    answer_of(a.edge, None)
}

// A frame that arrives at the device of the numbers k.
fn arrival_on(
    memory: &mut [u8],
    holding: &mut [u8],
    kept: &mut [u8],
    k: Packed,
    frame: &[u8],
    verdict: u32,
) -> u64
    requires { length kept.old ≡ record_size }
    ensures { (out : List ℕ) → inner.OnImage k (inner.arrives frame.now verdict)
        (calls.areas_of memory.old holding.old out kept.old) result memory.new holding.new out kept.new }
{
    let setup = kept.last_chunk::<{ setup::SIZE }>().unwrap();
    let a = code_chip::arrival(memory, holding, setup, k, frame, verdict);
    let after = a.packed;
    let reason = a.reason;
    image::store(kept, after);
    answer_of(false, reason)
}

// The answer of turns: what the last one told, its length and the edge above it; and as many units as turns.
fn answer_told(told: u32, taken: u16, unit: u64) -> u64
    requires { unit ≤ 2 ^ 48 }
    ensures { result ≡ told * 2 ^ 16 + taken * unit }
{
    told as u64 * LENGTH + taken as u64 * unit
}

// Turns of the device of the numbers k. Each adds `unit` to the answer.
fn turns_on(
    memory: &mut [u8],
    holding: &[u8],
    outgoing: &mut [u8],
    kept: &mut [u8],
    k: Packed,
    report: u16,
    budget: u16,
    unit: u64,
) -> u64
    requires { (length kept.old ≡ record_size) × (unit ≤ 2 ^ 48) }
    ensures { inner.OnImage k (inner.turns report budget unit)
        (calls.areas_of memory.old holding.now outgoing.old kept.old) result memory.new holding.now outgoing.new kept.new }
{
    let setup = kept.last_chunk_mut::<{ setup::SIZE }>().unwrap();
    let t = code_chip::run(memory, holding, outgoing, setup, k, report, budget);
    let after = t.packed;
    image::store(kept, after);
    answer_told(t.told, t.taken, unit)
}

// ---- the calls

// Reset takes the record alone, ignores its content and writes a fresh one.
pub fn reset(kept: &mut [u8]) -> u64
    ensures { calls.Renews (calls.reset_call kept.old) result kept.new }
{
    if kept.len() == record::SIZE {
        image::renew(kept);
        return answer_of(false, None);
    }
    refuse(Refusal::Record)
}

// Every call but reset: refusals first, then what is asked. `line` is what the line side tells, an arrival's verdict or the report of turns;
// `frame` is an arrival's, else empty; `budget` and `unit` are those of turns.
pub fn call(
    memory: &mut [u8],
    holding: &mut [u8],
    outgoing: &mut [u8],
    kept: &mut [u8],
    asked: Asked,
    frame: &[u8],
    line: u32,
    budget: u16,
    unit: u64,
) -> u64
    requires { unit ≤ 2 ^ 48 }
    ensures { calls.Calls (inner.asked_call asked
        (calls.areas_of memory.old holding.old outgoing.old kept.old) frame.now line budget unit)
        result memory.new holding.new outgoing.new kept.new }
{
    let lengths = right_lengths(
        memory.len(),
        holding.len(),
        outgoing.len(),
        kept.len(),
        frame.len(),
    );
    if let Err(r) = lengths {
        return refuse(r);
    }
    let Some(k) = image::decode(kept) else {
        return refuse(Refusal::Foreign);
    };
    match asked {
        Asked::Attention => attention_on(memory, kept, k),
        Asked::Arrival => arrival_on(memory, holding, kept, k, frame, line),
        Asked::Turns => {
            let report = (line % REPORTS) as u16;
            turns_on(memory, holding, outgoing, kept, k, report, budget, unit)
        }
    }
}
