// The control codes over the units' numbers: where CUC and RUC take a unit, and what an abort writes.
// It takes every memory and all numbers; specs/ says what comes of numbers that are a unit's, in the words of the room control.

#![tactic(auto)]

ghost use Rattle.std.specs.Prelude.{◌≡◌, ◌<◌};
ghost use Rattle.memory.specs.Memory as bytes;
ghost use Rattle.scb.specs.Words as words;
ghost use Rattle.scb.specs.Numbers as numbers;
ghost use Rattle.device.specs.State as states;
ghost use Rattle.device.specs.declared.Cu.{Cu};
ghost use Rattle.device.specs.declared.Ru.{Ru};
ghost use Rattle.device.specs.declared.Units.{Units};
ghost use Rattle.phases.specs.Phases.{cu_tag, ru_tag};
ghost use Rattle.packed.specs.Packed as packs;
ghost use Rattle.control.specs.Control as control;
ghost use Rattle.control.specs.Obey as obeys;
ghost use Rattle.code_control.specs.Obeys.{CuObeys, RuObeys, aborted, first_of};

use memory::{Offset, RealAddress};
use packed::{cu, ru};

// The status of a command block and of a frame descriptor.
const STATUS: u16 = 0;

// The SCB: +4 CBL offset, +6 RFA offset.
const CBL: u16 = 4;

const RFA: u16 = 6;

// START, the control code that takes an offset from the SCB.
const START: u16 = 1;

// What an abort leaves in a begun command's block, and in a begun frame's descriptor.
const ABORTED_BLOCK: u16 = 0x9000;

const ABORTED_DESCRIPTOR: u16 = 0;

// ---- what both units do

// The block or descriptor of what is begun, if anything is, gets its status; nothing else is written.
fn abort(memory: &mut [u8], base: RealAddress, begun: Option<Offset>, status: u16)
    ensures { memory.new ≡ bytes.apply (aborted base begun status) memory.old }
{
    if let Some(block) = begun {
        memory::put_word(memory, memory::place(base, block, STATUS), status);
    }
}

// Where a unit is to begin: START at a field of the SCB, RESUME at the offset that its word has.
fn first_of(
    memory: &[u8],
    base: RealAddress,
    scb: Offset,
    start: bool,
    field: u16,
    word: u64,
) -> Offset
    ensures { result.0 ≡ first_of base scb start field word memory.now }
{
    if start {
        return memory::offset_at(memory, memory::place(base, scb, field));
    }
    packed::at_of(word)
}

// ---- the command unit

// The units are two and not one over a type: a trait would name each unit's tags, makers and definitions once more, and what it would have once is a
// few comparisons.

// The number of its state, as CUS has it: what is past Waiting is Active too.
pub fn cu_number(tag: u64) -> u8
    ensures { (result < 4) × ((c : Cu) → tag ≡ cu_tag c → result ≡ words.cu_number (states.cu_state c)) }
{
    tag.min(scb::ACTIVE as u64) as u8
}

// SUSPEND: at the end of a begun command, else at once; a unit that is not Active stays as it is.
fn cu_suspended(unit: cu::Unit) -> cu::Unit
    ensures { (c : Cu) → packs.CuUnitIs c unit → packs.CuUnitIs (control.cu_suspend c) result }
{
    if unit.tag < cu::WAITING {
        return unit;
    }
    if unit.tag == cu::WAITING {
        return cu::Unit {
            tag: cu::SUSPENDED,
            ..unit
        };
    }
    cu::Unit {
        word: cu::pause(unit.word),
        ..unit
    }
}

// To Active, at the block said; an Active unit goes on as it is.
fn cu_active(first: Offset, unit: cu::Unit) -> cu::Unit
    ensures { (c : Cu) → packs.CuUnitIs c unit → packs.CuUnitIs (control.cu_start first c) result }
{
    if unit.tag < cu::WAITING {
        return cu::Unit {
            tag: cu::WAITING,
            word: packed::plain(first),
        };
    }
    unit
}

// CUC is obeyed: the command unit goes where the table says.
pub fn obey_cuc(
    memory: &mut [u8],
    base: RealAddress,
    scb: Offset,
    unit: cu::Unit,
    command: u16,
) -> cu::Unit
    ensures { (u : Units) → base.0 ≡ u.base.0 → scb.0 ≡ u.scb.0 → packs.CuUnitIs u.cu unit
        → CuObeys (obeys.obey_cuc u command memory.old) memory.old result memory.new }
{
    match scb::cu_goes(command, cu_number(unit.tag)) {
        scb::IDLE => {
            let begun = (cu::WAITING < unit.tag).then_some(packed::at_of(unit.word));
            abort(memory, base, begun, ABORTED_BLOCK);
            cu::Unit {
                tag: cu::IDLE,
                word: 0,
            }
        }
        scb::SUSPENDED => cu_suspended(unit),
        // What is left is Active.
        _ => {
            let start = scb::cu_control(command) == START;
            let first = first_of(memory, base, scb, start, CBL, unit.word);
            cu_active(first, unit)
        }
    }
}

// ---- the receive unit

// The column of its state in the control table: what is past Ready is Ready too.
fn ru_column(tag: u64) -> u8
    ensures { (result < 4) × ((v : Ru) → tag ≡ ru_tag v → result ≡ numbers.ru_column (states.ru_state v)) }
{
    tag.min(scb::READY as u64) as u8
}

// SUSPEND: at the end of a held frame, else at once; a unit that is not Ready stays as it is.
fn ru_suspended(unit: ru::Unit) -> ru::Unit
    ensures { (v : Ru) → packs.RuUnitIs v unit → packs.RuUnitIs (control.ru_suspend v) result }
{
    if unit.tag < ru::READY {
        return unit;
    }
    if unit.tag == ru::READY {
        return ru::Unit {
            tag: ru::SUSPENDED,
            ..unit
        };
    }
    ru::Unit {
        word: ru::pause(unit.word),
        ..unit
    }
}

// To Ready, at the frame descriptor said; a Ready unit goes on as it is.
fn ru_ready(first: Offset, unit: ru::Unit) -> ru::Unit
    ensures { (v : Ru) → packs.RuUnitIs v unit → packs.RuUnitIs (control.ru_start first v) result }
{
    if unit.tag < ru::READY {
        return ru::Unit {
            tag: ru::READY,
            word: packed::plain(first),
            rest: 0,
        };
    }
    unit
}

// RUC is obeyed: the receive unit goes where the table says. It leads to No Resources only what is there already.
pub fn obey_ruc(
    memory: &mut [u8],
    base: RealAddress,
    scb: Offset,
    unit: ru::Unit,
    command: u16,
) -> ru::Unit
    ensures { (u : Units) → base.0 ≡ u.base.0 → scb.0 ≡ u.scb.0 → packs.RuUnitIs u.ru unit
        → RuObeys (obeys.obey_ruc u command memory.old) memory.old result memory.new }
{
    match scb::ru_goes(command, ru_column(unit.tag)) {
        scb::IDLE => {
            let begun = (ru::HELD < unit.tag).then_some(packed::at_of(unit.word));
            abort(memory, base, begun, ABORTED_DESCRIPTOR);
            ru::Unit {
                tag: ru::IDLE,
                word: 0,
                rest: 0,
            }
        }
        scb::SUSPENDED => ru_suspended(unit),
        scb::NO_RESOURCES => unit,
        // What is left is Ready.
        _ => {
            let start = scb::ru_control(command) == START;
            let first = first_of(memory, base, scb, start, RFA, unit.word);
            ru_ready(first, unit)
        }
    }
}
