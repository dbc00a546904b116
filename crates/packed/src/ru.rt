// The receive unit as the record has it: its tags, what its word tells of a held frame, and its second word. docs/record.md, bytes 24 to 39.
ghost use Rattle.std.specs.Prelude.{Bool, false, ◌≡◌, ℕ, ◌+◌, ◌%◌, ◌<◌, ◌^◌};
ghost use Rattle.memory.specs.declared.Offset.{Offset};
ghost use Rattle.device.specs.Numbers.{verdict_of};
ghost use Rattle.device.specs.declared.Form.{Form};
ghost use Rattle.device.specs.declared.Frame.{Frame};
ghost use Rattle.device.specs.declared.Storing.{Storing};
ghost use Rattle.phases.specs.Fields.{odd, kind_in, rest_by, filled_in, above_filled, used_in};
ghost use Rattle.phases.specs.Forms.{verdict_in, form_in, form_number};
ghost use Rattle.phases.specs.Phases.{word_of, plain, frame_of, storing_of, frame_number, frame_word, storing_with, storing_word};
ghost use Rattle.phases.specs.declared.Word.{Word};
ghost use Rattle.packed.specs.Packed.{WordIs, held_pausing};

use memory::Offset;

// The unit as numbers. Its tag is no enum: the record keeps it as a number, tags are compared by their order, and RuIs speaks of it beside the words.
#[derive(Clone, Copy)]
pub struct Unit {
    pub tag: u64,
    pub word: u64,
    pub rest: u64,
}

// The tags. From Ready on the unit is Ready, from Held on it holds a frame, from Filling on the frame is begun.
pub const IDLE: u64 = 0;

pub const SUSPENDED: u64 = 1;

pub const NO_RESOURCES: u64 = 2;

pub const READY: u64 = 3;

pub const HELD: u64 = 4;

pub const FILLING: u64 = 5;

pub const CLOSING: u64 = 6;

pub const LACKING: u64 = 7;

// The flags of a held frame: a waiting SUSPEND, short, save bad at arrival; of a begun one S and EL besides, as the descriptor's word had them in
// bits 14 and 15; and whether the last buffer used had EL.
const PAUSING: u64 = crate::FLAGS;

const SHORT: u64 = crate::FLAGS << 1;

const SAVE_BAD: u64 = crate::FLAGS << 2;

const SUSPEND: u64 = crate::FLAGS << 3;

const EL: u64 = crate::FLAGS << 4;

const FULL: u64 = crate::FLAGS << 5;

// What they are below: a held frame's, a begun one's, and those of one that is all stored.
pub const HELD_FLAGS: u64 = 1 << 3;

pub const STORING_FLAGS: u64 = 1 << 5;

pub const CLOSING_FLAGS: u64 = 1 << 6;

// The verdicts, as the record has them.
pub const GOOD: u64 = 0;

pub const CRC: u64 = 1;

pub const MISALIGNED: u64 = 2;

// The number between flags and length: the verdict in two bits, and above it the frame's form.
const VERDICTS: u64 = 1 << 2;

const FORM: u64 = 1 << 2;

// The second word: how many bytes are stored, and above them in how many buffers.
const USED: u64 = 1 << 16;

const USED_COUNTS: u64 = 1 << 8;

pub const FILLED_MOST: u64 = (1 << 24) - 1;

// Of the tags below Held, the odd ones go with an offset, the even ones with nothing.
pub fn has_offset(tag: u64) -> bool
    ensures { result ≡ odd tag }
{
    tag % 2 == 1
}

// ---- what is read of a frame's word

// Whether a SUSPEND waits for the frame's end.
#[tactic(auto, using(crate::proofs::Words::first_in))]
pub fn pausing(n: u64) -> bool
    ensures { result ≡ (word_of n).first }
{
    crate::has::<PAUSING>(n)
}

// Whether the frame is short.
#[tactic(auto, using(crate::proofs::Words::second_in))]
pub fn short(n: u64) -> bool
    ensures { result ≡ (frame_of (word_of n)).short }
{
    crate::has::<SHORT>(n)
}

// Whether bad frames were saved at its arrival.
#[tactic(auto, using(crate::proofs::Words::third_in))]
pub fn save_bad(n: u64) -> bool
    ensures { result ≡ (frame_of (word_of n)).savebad }
{
    crate::has::<SAVE_BAD>(n)
}

// The line side's verdict.
pub fn verdict(n: u64) -> u64
    ensures { result ≡ verdict_in (kind_in n) }
{
    crate::kind_of(n) % VERDICTS
}

// The form that was in force at the frame's arrival.
pub fn form(n: u64) -> u64
    ensures { result ≡ form_in (kind_in n) }
{
    crate::kind_of(n) / FORM
}

// S of the descriptor.
#[tactic(auto, using(crate::proofs::Words::fourth_in))]
pub fn suspend(n: u64) -> bool
    ensures { result ≡ (storing_of (word_of n)).suspend }
{
    crate::has::<SUSPEND>(n)
}

// EL of the descriptor.
#[tactic(auto, using(crate::proofs::Words::fifth_in))]
pub fn el(n: u64) -> bool
    ensures { result ≡ (storing_of (word_of n)).el }
{
    crate::has::<EL>(n)
}

// EL of the last buffer used.
#[tactic(auto, using(crate::proofs::Words::sixth_in))]
pub fn full(n: u64) -> bool
    ensures { result ≡ (word_of n).sixth }
{
    crate::has::<FULL>(n)
}

// ---- a word put together

// A frame as it was judged, before it is known which descriptor it goes to.
pub fn frame(short: bool, save_bad: bool, verdict: u64, form: u64, length: u64) -> u64
    requires { (verdict < 3) × (form < 2 ^ 5) × (length < 2 ^ 16) }
    ensures { (result < 2 ^ 48) × ((f : Form) → form ≡ form_number f
        → result ≡ frame_number (record { length = length; verdict = verdict_of verdict; short = short; savebad = save_bad; form = f })) }
{
    SHORT * u64::from(short)
        + SAVE_BAD * u64::from(save_bad)
        + crate::KIND * (verdict + FORM * form)
        + crate::SIZE * length
}

// It is held before the descriptor that was next.
pub fn held(f: u64, n: u64) -> u64
    requires { f < 2 ^ 48 }
    ensures { (o : Offset) (g : Frame) → f ≡ frame_number g → g.length < 2 ^ 16 → WordIs (plain o.0) n → WordIs (frame_word o g false) result }
{
    f + n % crate::OFFSETS
}

// A held frame's word without its next offset, and with flags set that were not. A sum that reaches that offset is cut, though no unit has such a
// word.
fn flagged(n: u64, flags: u64) -> u64
    requires { flags < 2 ^ 48 }
    ensures { result ≡ (n % 2 ^ 48 + flags) % 2 ^ 48 }
{
    (n % crate::NEXT + flags) % crate::NEXT
}

// A held frame is begun, with S and EL as they stand in bits 14 and 15 of the descriptor's word.
#[tactic(auto, using(crate::proofs::Words::storing_with_lem))]
pub fn begun(n: u64, flags: u16) -> u64
    requires { flags < 2 ^ 2 }
    ensures { (result < 2 ^ 48) × ((o : Offset) (f : Frame) (p : Bool) → WordIs (frame_word o f p) n → WordIs (storing_word (storing_with o f p flags) 0 false) result) }
{
    flagged(n, SUSPEND * flags as u64)
}

// A SUSPEND waits for the end of a held frame.
#[tactic(auto, using(crate::proofs::Pausing::held_pausing_lem))]
pub fn pause(n: u64) -> u64
    ensures { (w : Word) → WordIs w n → WordIs (held_pausing w) result }
{
    n | PAUSING
}

// A frame that is being filled is at its last buffer, which has EL or has not; no offset is next.
pub fn filled_up(n: u64, el: bool) -> u64
    ensures { (result < 2 ^ 48) × ((s : Storing) (next : ℕ) → WordIs (storing_word s next false) n → WordIs (storing_word s 0 el) result) }
{
    flagged(n, FULL * u64::from(el))
}

// A word with the next offset.
#[tactic(auto, using(crate::proofs::Words::storing_next))]
pub fn with_next(n: u64, next: Offset) -> u64
    requires { n < 2 ^ 48 }
    ensures { (s : Storing) (full : Bool) → WordIs (storing_word s 0 full) n → WordIs (storing_word s next.0 full) result }
{
    n + crate::NEXT * next.0 as u64
}

// ---- the second word

// How many bytes are stored.
pub fn filled(rest: u64) -> u64
    ensures { result ≡ filled_in rest }
{
    rest % USED
}

// The buffers used, in a word that is no larger than it may be.
pub fn above_filled(rest: u64) -> u64
    ensures { result ≡ above_filled rest }
{
    rest / USED
}

// The buffers used, in any word.
pub fn used(rest: u64) -> u64
    ensures { result ≡ used_in rest }
{
    rest / USED % USED_COUNTS
}

// Both, put together.
pub fn rest_of(filled: u64, used: u64) -> u64
    requires { (filled < 2 ^ 16) × (used < 2 ^ 8) }
    ensures { result ≡ rest_by filled used }
{
    filled + USED * used
}
