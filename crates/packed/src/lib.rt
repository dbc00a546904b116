// The record's layout, for all of the code: the units' state as four numbers, which a call carries from end to end without taking it apart, and what
// the commands set up. It reads a field where one is needed and puts a unit back; specs/Packed.antt says which numbers are a state's,
// specs/SetUp.antt which bytes a setup's. The units' tags and words are in `cu` and `ru`, a frame's form in `form`, a setup's places in `setup`, the
// record's in `record`. As enums the units took 547 instructions a call to read and write back, as numbers 99 (docs/bench.md).

#![tactic(auto)]

pub mod cu;
pub mod form;
pub mod record;
pub mod ru;
pub mod setup;

ghost use Rattle.std.specs.Prelude.{◌≡◌, ◌+◌, ◌/◌, ◌%◌, ◌<◌, ◌^◌};
ghost use Rattle.std.specs.Int.Bits.{bit_and};
ghost use Rattle.scb.specs.Words as words;
ghost use Rattle.scb.specs.declared.Events.{Events};
ghost use Rattle.device.specs.Change as change;
ghost use Rattle.device.specs.declared.Cu.{Cu};
ghost use Rattle.device.specs.declared.Ru.{Ru};
ghost use Rattle.device.specs.declared.Units.{Units};
ghost use Rattle.phases.specs.Fields as fields;
ghost use Rattle.phases.specs.Fields.{odd};
ghost use Rattle.phases.specs.Phases as phases;
ghost use Rattle.packed.specs.Packed as packed;

use memory::{Offset, RealAddress};

// The status: events, marks, the units' tags, the SCB's offset, the base. Then the command unit's word, and the receive unit's two.
#[derive(Clone, Copy)]
pub struct Packed {
    pub status: u64,
    pub cu: u64,
    pub ru: u64,
    pub rest: u64,
}

// ---- the status

// From the lowest bit on: four that are zero, the events, the command unit's tag and a zero, the marks and two zeros, the receive unit's tag, the
// SCB's offset, the base.
const EVENTS: u64 = 1 << 4;

const CU: u64 = 1 << 8;

const MARKS: u64 = 1 << 12;

const RU: u64 = 1 << 16;

const SCB: u64 = 1 << 24;

const BASE: u64 = 1 << 40;

// Among the marks.
const INITIALISED: u64 = 1 << 0;

const RU_LAST: u64 = 1 << 1;

// The events, as they stand in a number of them: the highest is bit 15 of the SCB's status.
pub const CX: u64 = 1 << 3;

pub const FR: u64 = 1 << 2;

pub const CNA: u64 = 1 << 1;

pub const RNR: u64 = 1 << 0;

// How many numbers a field holds.
const EVENT_SETS: u64 = 1 << 4;

const CU_TAGS: u64 = 1 << 3;

const MARK_SETS: u64 = 1 << 2;

const MARK_BITS: u64 = 1 << 8;

const RU_TAGS: u64 = 1 << 8;

const OFFSETS: u64 = 1 << 16;

const BASES: u64 = 1 << 24;

// The SCB's base.
pub fn base(k: Packed) -> RealAddress
    ensures { result.0 ≡ packed.base_in k }
{
    memory::recalled((k.status / BASE) as u32)
}

// The SCB's offset.
pub fn scb(k: Packed) -> Offset
    ensures { result.0 ≡ packed.scb_in k }
{
    Offset((k.status / SCB % OFFSETS) as u16)
}

// The marks: bit 0 initialised, bit 1 RU served last; and above them, in bits 7 to 4, the events.
pub fn marks(k: Packed) -> u64
    ensures { result ≡ packed.marks_in k }
{
    k.status / MARKS % MARK_SETS + EVENTS * (k.status / EVENTS % EVENT_SETS)
}

// The events as a number below 16.
pub fn events(k: Packed) -> u64
    ensures { result ≡ packed.marks_in k / 2 ^ 4 }
{
    k.status / EVENTS % EVENT_SETS
}

// Whether the first attention was.
pub fn initialised(k: Packed) -> bool
    ensures { result ≡ odd (packed.marks_in k) }
{
    has::<INITIALISED>(marks(k))
}

// Whether RU was served at the last working turn.
pub fn ru_last(k: Packed) -> bool
    ensures { result ≡ odd (packed.marks_in k / 2) }
{
    has::<RU_LAST>(marks(k))
}

// The command unit's tag.
pub fn cu_tag(k: Packed) -> u64
    ensures { result ≡ packed.cu_tag_in k }
{
    k.status / CU % CU_TAGS
}

// The receive unit's tag.
pub fn ru_tag(k: Packed) -> u64
    ensures { result ≡ packed.ru_tag_in k }
{
    k.status / RU % RU_TAGS
}

// The command unit: its tag and its word.
pub fn cu_unit(k: Packed) -> cu::Unit
    ensures { result ≡ packed.cu_unit_in k }
{
    cu::Unit {
        tag: cu_tag(k),
        word: k.cu,
    }
}

// The receive unit: its tag and its two words.
pub fn ru_unit(k: Packed) -> ru::Unit
    ensures { result ≡ packed.ru_unit_in k }
{
    ru::Unit {
        tag: ru_tag(k),
        word: k.ru,
        rest: k.rest,
    }
}

// Where a bit and two bits stand that nothing uses: above the command unit's tag and above the marks.
const CU_END: u64 = CU * CU_TAGS;

const MARKS_END: u64 = MARKS * MARK_SETS;

// Whether the bits of a status that nothing uses are zero.
pub fn status_is(s: u64) -> bool
    ensures { result ≡ packed.status_is s }
{
    (s % EVENTS == 0) & (s / CU_END % 2 == 0) & (s / MARKS_END % 4 == 0)
}

// ---- a unit's word

// From the lowest byte on: two of an offset, one of flags, one of kind, two of size, two of the next offset. A begun command is below its kind; the
// units' flags are the modules' to say.
const FLAGS: u64 = 1 << 16;

const KIND: u64 = 1 << 24;

const SIZE: u64 = 1 << 32;

const NEXT: u64 = 1 << 48;

const FLAG_SETS: u64 = 1 << 8;

const KINDS: u64 = 1 << 8;

const SIZES: u64 = 1 << 16;

// The largest word with an offset alone, and with all but the next offset.
pub const OFFSET_MOST: u64 = FLAGS - 1;

pub const SIZED_MOST: u64 = NEXT - 1;

// Whether a flag of a word, or of a byte, is set.
fn has<const FLAG: u64>(n: u64) -> bool
    requires { 0 < FLAG }
    ensures { result ≡ odd (n / FLAG) }
{
    n / FLAG % 2 == 1
}

// The offset of the block or the descriptor that the unit is at.
pub fn at_of(n: u64) -> Offset
    ensures { result.0 ≡ fields.offset_in n }
{
    Offset((n % OFFSETS) as u16)
}

// What a word has above its offset.
pub fn above_offset(n: u64) -> u64
    ensures { result ≡ n / 2 ^ 16 }
{
    n / FLAGS
}

// The byte of flags.
pub fn flags_of(n: u64) -> u64
    ensures { result ≡ fields.flags_in n }
{
    n / FLAGS % FLAG_SETS
}

// The byte of kind: a command's number, how many descriptors a Transmit used, a held frame's verdict and form.
pub fn kind_of(n: u64) -> u64
    ensures { result ≡ fields.kind_in n }
{
    n / KIND % KINDS
}

// The size: the bytes of a Transmit in the outgoing area, or a held frame's length.
pub fn size_of(n: u64) -> u64
    ensures { result ≡ fields.size_in n }
{
    n / SIZE % SIZES
}

// The next offset.
pub fn next_of(n: u64) -> Offset
    ensures { result.0 ≡ fields.next_in n }
{
    Offset((n / NEXT) as u16)
}

// The word of an offset alone.
#[tactic(auto, using(crate::proofs::Words::plain_is))]
pub fn plain(o: Offset) -> u64
    ensures { packed.WordIs (phases.plain o.0) result }
{
    o.0 as u64
}

// ---- a state put together

// The events that stand after others came up, as numbers below 16.
#[tactic(auto, using(crate::proofs::Laws::or_below, crate::proofs::Laws::raise_or))]
pub fn raise(events: u64, raised: u64) -> u64
    requires { (events < 16) × (raised < 16) }
    ensures { (result < 16) × ((e by : Events) → events ≡ words.event_bits e → raised ≡ words.event_bits by → result ≡ words.event_bits (words.raise e by)) }
{
    events | raised
}

// The status of its parts. What would not fit into its field is cut, though no caller has such a number.
fn status_of(scb: u64, marks: u64, cu: u64, ru: u64, base: u64) -> u64
    ensures { result ≡ packed.status_by (scb % 2 ^ 16) (marks % 2 ^ 8) (cu % 2 ^ 3) (ru % 2 ^ 8) (base % 2 ^ 24) }
{
    EVENTS * (marks % MARK_BITS / EVENTS)
        + CU * (cu % CU_TAGS)
        + MARKS * (marks % MARK_BITS % MARK_SETS)
        + RU * (ru % RU_TAGS)
        + SCB * (scb % OFFSETS)
        + BASE * (base % BASES)
}

// The command unit was served: it is what its numbers say, and events came up.
pub fn after_cu(k: Packed, unit: cu::Unit, raised: u64) -> Packed
    ensures { (u : Units) (c : Cu) (by : Events) → packed.PackedIs u k → packed.CuUnitIs c unit → raised ≡ words.event_bits by → packed.PackedIs (packed.cu_served u c by) result }
{
    let marks = marks(k) % RU_LAST + EVENTS * raise(events(k), raised % EVENT_SETS);
    Packed {
        status: status_of(k.status / SCB, marks, unit.tag, ru_tag(k), k.status / BASE),
        cu: unit.word,
        ..k
    }
}

// The receive unit was served: it is what its numbers say, and events came up.
pub fn after_ru(k: Packed, unit: ru::Unit, raised: u64) -> Packed
    ensures { (u : Units) (v : Ru) (by : Events) → packed.PackedIs u k → packed.RuUnitIs v unit → raised ≡ words.event_bits by → packed.PackedIs (packed.ru_served u v by) result }
{
    let marks = marks(k) % RU_LAST + RU_LAST + EVENTS * raise(events(k), raised % EVENT_SETS);
    Packed {
        status: status_of(k.status / SCB, marks, cu_tag(k), unit.tag, k.status / BASE),
        ru: unit.word,
        rest: unit.rest,
        ..k
    }
}

// The receive unit is what its numbers say, and nothing else changed.
pub fn with_ru(k: Packed, unit: ru::Unit) -> Packed
    ensures { (u : Units) (v : Ru) → packed.PackedIs u k → packed.RuUnitIs v unit → packed.PackedIs (change.with_ru u v) result }
{
    Packed {
        status: status_of(
            k.status / SCB,
            marks(k),
            cu_tag(k),
            unit.tag,
            k.status / BASE,
        ),
        ru: unit.word,
        rest: unit.rest,
        ..k
    }
}

// Both units obeyed their control codes: they are what their numbers say, and events came up.
pub fn after_codes(k: Packed, command: cu::Unit, receive: ru::Unit, raised: u64) -> Packed
    requires { raised < 16 }
    ensures { (u : Units) (c : Cu) (v : Ru) (by : Events) → packed.PackedIs u k → packed.CuUnitIs c command → packed.RuUnitIs v receive
        → raised ≡ words.event_bits by → packed.PackedIs (packed.both_with u c v by) result }
{
    let marks = marks(k) % MARK_SETS + EVENTS * raise(events(k), raised);
    Packed {
        status: status_of(
            k.status / SCB,
            marks,
            command.tag,
            receive.tag,
            k.status / BASE,
        ),
        cu: command.word,
        ru: receive.word,
        rest: receive.rest,
    }
}

// Events are cleared: those of a number that stand.
#[tactic(auto, using(crate::proofs::States::clears))]
pub fn without_events(k: Packed, cleared: u64) -> Packed
    ensures { (u : Units) (e : Events) → packed.PackedIs u k → bit_and (words.event_bits u.events) cleared + words.event_bits e ≡ words.event_bits u.events
        → packed.PackedIs (change.with_events u e) result }
{
    let stood = events(k) & cleared;
    Packed {
        status: k.status - EVENTS * stood,
        ..k
    }
}

// Initialised, with the events said and both units Idle; which unit was served last stays.
pub fn initialised_at(k: Packed, base: RealAddress, scb: Offset, events: u64) -> Packed
    requires { events < 16 }
    ensures { (u : Units) (e : Events) → base.0 < 2 ^ 24 → packed.PackedIs u k → events ≡ words.event_bits e
        → packed.PackedIs (change.initialised_at u base scb e) result }
{
    let marks = marks(k) / RU_LAST % 2 * RU_LAST + INITIALISED + EVENTS * events;
    Packed {
        status: status_of(scb.0 as u64, marks, cu::IDLE, ru::IDLE, base.0 as u64),
        cu: 0,
        ru: 0,
        rest: 0,
    }
}
