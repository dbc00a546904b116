// The command unit as the record has it: its tags, and what its word tells of a begun command. docs/record.md, bytes 16 to 23.
ghost use Rattle.std.specs.Prelude.{◌≡◌, ◌<◌, ◌^◌};
ghost use Rattle.scb.specs.Words.{one};
ghost use Rattle.device.specs.declared.Begun.{Begun};
ghost use Rattle.phases.specs.Phases.{word_of, begun_of, begun_with, begun_word};
ghost use Rattle.phases.specs.declared.Word.{Word};
ghost use Rattle.packed.specs.Packed.{WordIs, BegunIs, begun_pausing};

use memory::Offset;

// The unit as numbers. Its tag is no enum: the record keeps it as a number, tags are compared by their order, and CuIs speaks of it beside the word.
#[derive(Clone, Copy)]
pub struct Unit {
    pub tag: u64,
    pub word: u64,
}

// The tags. From Waiting on the unit is Active, from Acting on a command is begun.
pub const IDLE: u64 = 0;

pub const SUSPENDED: u64 = 1;

pub const WAITING: u64 = 2;

pub const ACTING: u64 = 3;

pub const SENDING: u64 = 4;

pub const ENDING: u64 = 5;

pub const FAILING: u64 = 6;

// The flags of a begun command, as its command word had them in bits 13 to 15; a waiting SUSPEND; above them stands what a phase has besides.
const INTERRUPT: u64 = crate::FLAGS;

const SUSPEND: u64 = crate::FLAGS << 1;

const EL: u64 = crate::FLAGS << 2;

const PAUSING: u64 = crate::FLAGS << 3;

const BEGUN: u64 = crate::FLAGS << 4;

// What its flags are below; the largest word of a begun command alone, and the largest with the number of a command.
pub const BEGUN_FLAGS: u64 = 1 << 4;

pub const BEGUN_MOST: u64 = BEGUN - 1;

pub const ACTING_MOST: u64 = (crate::KIND << 3) - 1;

// ---- what is read of a begun command

// I, as a number.
#[tactic(auto, using(crate::proofs::Words::interrupt_in))]
pub fn interrupt(n: u64) -> u64
    ensures { (result ≡ one (begun_of (word_of n)).interrupt) × (result < 2) }
{
    n / INTERRUPT % 2
}

// S.
#[tactic(auto, using(crate::proofs::Words::second_in))]
pub fn suspend(n: u64) -> bool
    ensures { result ≡ (begun_of (word_of n)).suspend }
{
    crate::has::<SUSPEND>(n)
}

// EL.
#[tactic(auto, using(crate::proofs::Words::third_in))]
pub fn el(n: u64) -> bool
    ensures { result ≡ (begun_of (word_of n)).el }
{
    crate::has::<EL>(n)
}

// Whether a SUSPEND waits for its end.
#[tactic(auto, using(crate::proofs::Words::fourth_in))]
pub fn pausing(n: u64) -> bool
    ensures { result ≡ (begun_of (word_of n)).pausing }
{
    crate::has::<PAUSING>(n)
}

// The begun command alone.
pub fn begun_of(n: u64) -> u64
    ensures { (result < 2 ^ 20) × BegunIs (begun_of (word_of n)) result }
{
    n % BEGUN
}

// ---- a word put together

// A command that is begun, with I, S, EL as they stand in bits 13 to 15 of its command word.
#[tactic(auto, using(crate::proofs::Words::begun_with_lem))]
pub fn begun(block: Offset, flags: u16) -> u64
    requires { flags < 2 ^ 3 }
    ensures { (result < 2 ^ 20) × BegunIs (begun_with block flags) result }
{
    block.0 as u64 + INTERRUPT * flags as u64
}

// A SUSPEND waits for the end of a begun command.
#[tactic(auto, using(crate::proofs::Pausing::begun_pausing_lem))]
pub fn pause(n: u64) -> u64
    ensures { (w : Word) → WordIs w n → WordIs (begun_pausing w) result }
{
    n | PAUSING
}

// One whose end is next, by its number.
#[tactic(auto, using(crate::proofs::Words::begun_kind))]
pub fn acting(b: u64, number: u64) -> u64
    requires { (b < 2 ^ 20) × (number < 2 ^ 8) }
    ensures { (v : Begun) → BegunIs v b → WordIs (begun_word v number 0 0) result }
{
    b + crate::KIND * number
}

// A Transmit at its descriptors: those used, the bytes in the outgoing area, the next descriptor.
#[tactic(auto, using(crate::proofs::Words::begun_and))]
pub fn sending(b: u64, used: u64, filled: u64, next: Offset) -> u64
    requires { (b < 2 ^ 20) × (used < 2 ^ 8) × (filled < 2 ^ 16) }
    ensures { (v : Begun) → BegunIs v b → WordIs (begun_word v used filled next.0) result }
{
    b + crate::KIND * used + crate::SIZE * filled + crate::NEXT * next.0 as u64
}

// One whose end is next: the bytes in the outgoing area.
#[tactic(auto, using(crate::proofs::Words::begun_size))]
pub fn ending(b: u64, filled: u64) -> u64
    requires { (b < 2 ^ 20) × (filled < 2 ^ 16) }
    ensures { (v : Begun) → BegunIs v b → WordIs (begun_word v 0 filled 0) result }
{
    b + crate::SIZE * filled
}
