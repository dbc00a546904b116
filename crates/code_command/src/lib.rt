// The command unit over its numbers: one service, which begins a command, takes a buffer of a Transmit, or ends a command.
// It takes every memory, every unit's numbers, and a setup's bytes; the definitions are those of the crate `command`, in the same order as here.

#![tactic(auto)]

ghost use Rattle.std.specs.Prelude.{◌≡◌, true, false, ◌+◌, ◌≤◌, ◌<◌, ◌^◌};
ghost use Rattle.std.proofs.lemmas.List.Edits.{sets};
ghost use Rattle.memory.specs.Address as address;
ghost use Rattle.device.specs.Limits.{longest_address};
ghost use Rattle.device.specs.declared.Begun.{Begun};
ghost use Rattle.actions.specs.Setup.{Setup};
ghost use Rattle.command.specs.Begin as begins;
ghost use Rattle.command.specs.Buffer as buffers;
ghost use Rattle.phases.specs.Forms.{form_of};
ghost use Rattle.phases.specs.Phases.{word_of, begun_of};
ghost use Rattle.packed.specs.Packed.{BegunIs};
ghost use Rattle.packed.specs.SetUp.{SetIs};
ghost use Rattle.code_command.specs.Serves as serves;
ghost use Rattle.code_command.specs.Inner as inner;

use code_actions::Done;
use copies::{Any, Few};
use memory::{Offset, RealAddress};
use packed::{CNA, CX, cu, form, setup};

// What a service comes to besides the lent bytes: the unit, the events as a number below 16, the length sent. Not one with code_receive's, which has
// no length, and a unit of two words.
#[derive(Clone, Copy)]
pub struct Commanded {
    pub unit: cu::Unit,
    pub raised: u64,
    pub length: u16,
}

// A block is lent as its memory, base and offset beside each other: a struct would be taken apart at every word that is read or written.

// The command block: +0 status, +2 command, +4 link; the commands' own fields from +6 on.
const STATUS: u16 = 0;

const COMMAND: u16 = 2;

const LINK: u16 = 4;

const ARGUMENT: u16 = 6;

const DESTINATION: u16 = 8;

// A command block's status: B while the command is busy; C, and bit 8 besides, of a Transmit that was not sent (ours).
const BUSY: u16 = 0x4000;

const UNSENT: u16 = 0x8100;

// A command word: CMD is its rest by 8, and 4 is a Transmit; from bit 13 on stand I, S, EL.
const COMMANDS: u16 = 8;

const TRANSMIT: u16 = 4;

const CONTROL_BITS: u16 = 1 << 13;

// A type has two bytes.
const TYPE_SIZE: usize = 2;

// The most bytes of a frame. So many descriptors before it make a descriptor the last that a Transmit may use.
const LONGEST: u64 = 2048;

const LAST: u64 = 63;

// The transmit buffer descriptor: +0 EOF and count, +2 next, +4 real address. EOF is the highest bit of +0, and the count its 14 lowest.
const FILLED: u16 = 0;

const NEXT: u16 = 2;

const BUFFER: u16 = 4;

const COUNTS: u16 = 1 << 14;

const EOF: u16 = 1 << 15;

// A service that leaves the unit so, raises so much and sends so much.
fn served(tag: u64, word: u64, raised: u64, length: u16) -> Commanded
    ensures { result ≡ inner.served tag word raised length }
{
    Commanded {
        unit: cu::Unit { tag, word },
        raised,
        length,
    }
}

// One that raises nothing and sends nothing.
fn quiet(tag: u64, word: u64) -> Commanded
    ensures { result ≡ inner.quiet tag word }
{
    served(tag, word, 0, 0)
}

// ---- begin

// What the command word holds to the end: bits 13 to 15 are I, S, EL. No SUSPEND waits yet.
#[tactic(auto, using(crate::proofs::Laws::begun_by_is))]
fn begun_by(block: Offset, word: u16) -> u64
    ensures { (result < 2 ^ 20) × BegunIs (begins.begun_by block word) result }
{
    cu::begun(block, word / CONTROL_BITS)
}

// A Transmit goes on to its first descriptor, or to its end where there is none; so many bytes of the frame are in the outgoing area.
// Whether there is none is asked by the caller: asked here, a Transmit takes an instruction more.
fn to_first(none: bool, filled: u64, b: u64, first: Offset) -> Commanded
    requires { (b < 2 ^ 20) × (filled < 2 ^ 16) }
    ensures { (v : Begun) → BegunIs v b → inner.Quiet (begins.to_first none filled v first) result }
{
    if none {
        return quiet(cu::ENDING, cu::ending(b, filled));
    }
    quiet(cu::SENDING, cu::sending(b, 0, filled, first))
}

// The header of a Transmit goes to the outgoing area: destination and own address, l bytes each, and the type.
fn put_header(
    memory: &[u8],
    outgoing: &mut [u8],
    setup: &[u8; setup::SIZE],
    l: usize,
    base: RealAddress,
    block: Offset,
)
    requires { l ≤ longest_address }
    ensures { (s : Setup) → SetIs s setup.now → outgoing.new ≡ sets outgoing.old 0 (begins.header_by false l base s.own block memory.now) }
{
    copies::copy_out::<Few>(
        memory,
        memory::place(base, block, DESTINATION),
        l,
        outgoing,
        0,
    );
    copies::put_few(outgoing, l, &setup[setup::OWN..setup::OWN + l]);
    copies::copy_out::<Any>(
        memory,
        memory::place(base, block, DESTINATION + l as u16),
        TYPE_SIZE,
        outgoing,
        l + l,
    );
}

// With location 1 the buffers have the header, and the outgoing area stays.
#[tactic(auto, unfolding(command::specs::Begin::header_of))]
fn place_header(
    memory: &[u8],
    outgoing: &mut [u8],
    setup: &[u8; setup::SIZE],
    f: u64,
    base: RealAddress,
    block: Offset,
)
    ensures { (s : Setup) → SetIs s setup.now → outgoing.new ≡ sets outgoing.old 0 (begins.header_of base (form_of f) s.own block memory.now) }
{
    if !form::location(f) {
        put_header(
            memory,
            outgoing,
            setup,
            form::length(f) as usize,
            base,
            block,
        );
    }
}

// A Transmit is begun by the form in force: its +6 is read, and its header placed.
fn begin_transmit(
    memory: &[u8],
    outgoing: &mut [u8],
    setup: &[u8; setup::SIZE],
    base: RealAddress,
    block: Offset,
    b: u64,
) -> Commanded
    requires { b < 2 ^ 20 }
    ensures { inner.Transmits base block b memory.now outgoing.old setup.now result outgoing.new }
{
    let first = memory::offset_at(memory, memory::place(base, block, ARGUMENT));
    let f = setup::form(setup);
    place_header(memory, outgoing, setup, f, base, block);
    to_first(memory::is_none(first), form::unbuffered(f), b, first)
}

// The command of a command word is begun.
fn to_begun(
    memory: &[u8],
    outgoing: &mut [u8],
    setup: &[u8; setup::SIZE],
    base: RealAddress,
    block: Offset,
    word: u16,
) -> Commanded
    ensures { inner.Begins base block word memory.now outgoing.old setup.now result outgoing.new }
{
    let number = word % COMMANDS;
    let b = begun_by(block, word);
    if number == TRANSMIT {
        return begin_transmit(memory, outgoing, setup, base, block, b);
    }
    quiet(cu::ACTING, cu::acting(b, number as u64))
}

// Begin: the command word is read, and the status 4000h written.
#[tactic(auto, using(crate::proofs::Laws::begin_setup), unfolding(command::specs::Begin::begin, scb::specs::Words::joined, scb::specs::Words::event_bits))]
fn begin(
    memory: &mut [u8],
    outgoing: &mut [u8],
    setup: &[u8; setup::SIZE],
    base: RealAddress,
    block: Offset,
) -> Commanded
    ensures { inner.Opens base block memory.old outgoing.old setup.now result memory.new outgoing.new }
{
    let word = memory::word_at(memory, memory::place(base, block, COMMAND));
    let next = to_begun(memory, outgoing, setup, base, block, word);
    memory::put_word(memory, memory::place(base, block, STATUS), BUSY);
    next
}

// ---- buffer

// Where a Transmit goes after a buffer that fitted: to its end at EOF; it fails at FFFFh before EOF, and with no EOF in 64.
fn after_buffer(eof: bool, next: Offset, b: u64, used: u64, filled: u64) -> Commanded
    requires { (b < 2 ^ 20) × (used < 2 ^ 8) × (filled < 2 ^ 16) }
    ensures { (v : Begun) → BegunIs v b → inner.Quiet (buffers.after_buffer true eof (address.is_none next) (buffers.is_last used) v (inner.walk next (used + 1) filled)) result }
{
    if eof {
        return quiet(cu::ENDING, cu::ending(b, filled));
    }
    if memory::is_none(next) {
        return quiet(cu::FAILING, b);
    }
    if LAST <= used {
        return quiet(cu::FAILING, b);
    }
    quiet(cu::SENDING, cu::sending(b, used + 1, filled, next))
}

// A buffer turn of a Transmit: one descriptor, +0 15 EOF, 13-0 count; +2 next offset; +4 real address. Its data goes behind what is there;
// none of a buffer that would pass 2,048 bytes. Memory is only read.
fn buffer(memory: &[u8], outgoing: &mut [u8], base: RealAddress, n: u64) -> Commanded
    ensures { inner.Buffers base n memory.now outgoing.old result outgoing.new }
{
    let o = packed::next_of(n);
    let filled = packed::size_of(n);
    let b = cu::begun_of(n);
    let word = memory::word_at(memory, memory::place(base, o, FILLED));
    let count = (word % COUNTS) as u64;
    if LONGEST < filled + count {
        return quiet(cu::FAILING, b);
    }
    let next = memory::offset_at(memory, memory::place(base, o, NEXT));
    let buffer = memory::real_at(memory, memory::place(base, o, BUFFER));
    copies::copy_out::<Any>(memory, buffer, count as usize, outgoing, filled as usize);
    after_buffer(EOF <= word, next, b, packed::kind_of(n), filled + count)
}

// ---- end

// EL makes the unit Idle, else S or a waiting SUSPEND makes it Suspended; the link is next. I raises CX; leaving Active raises CNA.
fn after_end(b: u64, link: Offset, length: u16) -> Commanded
    ensures { inner.Leaves (begun_of (word_of b)) link length result }
{
    let cx = cu::interrupt(b) * CX;
    if cu::el(b) {
        return served(cu::IDLE, 0, cx + CNA, length);
    }
    if cu::suspend(b) | cu::pausing(b) {
        return served(cu::SUSPENDED, packed::plain(link), cx + CNA, length);
    }
    served(cu::WAITING, packed::plain(link), cx, length)
}

// The end of a command after its action: the status is written, then the link read.
#[tactic(auto, unfolding(command::specs::End::next_after, phases::specs::Phases::word_of))]
fn end(memory: &mut [u8], base: RealAddress, a: Done, b: u64) -> Commanded
    ensures { inner.Ends base a (begun_of (word_of b)) memory.old result memory.new }
{
    let block = packed::at_of(b);
    memory::put_word(memory, memory::place(base, block, STATUS), a.status);
    let link = memory::offset_at(memory, memory::place(base, block, LINK));
    after_end(b, link, a.length)
}

// The action of a command whose end is next: its own, a Transmit's report, or 8100h.
fn done_by(
    memory: &mut [u8],
    setup: &mut [u8; setup::SIZE],
    base: RealAddress,
    unit: cu::Unit,
    report: u16,
) -> Done
    ensures { inner.ActsBy base unit report memory.old setup.old result memory.new setup.new }
{
    let n = unit.word;
    match unit.tag {
        cu::ACTING => code_actions::act(memory, base, setup, packed::kind_of(n), packed::at_of(n)),
        cu::ENDING => code_actions::send(packed::size_of(n) as u16, report),
        // What is left is Failing.
        _ => code_actions::plainly(UNSENT, 0),
    }
}

// ---- a service

// One service of the command unit. Idle and Suspended have no work; the line report counts only at the end of a whole Transmit.
// Every end goes through one call of `end`, which the compiler then writes in place.
pub fn serve(
    memory: &mut [u8],
    outgoing: &mut [u8],
    setup: &mut [u8; setup::SIZE],
    base: RealAddress,
    unit: cu::Unit,
    report: u16,
) -> Commanded
    ensures { serves.Served base unit report memory.old outgoing.old setup.old result memory.new outgoing.new setup.new }
{
    let n = unit.word;
    match unit.tag {
        cu::IDLE | cu::SUSPENDED => quiet(unit.tag, n),
        cu::WAITING => begin(memory, outgoing, setup, base, packed::at_of(n)),
        cu::SENDING => buffer(memory, outgoing, base, n),
        // What is left has its end next: Acting, Ending, Failing.
        _ => {
            let done = done_by(memory, setup, base, unit, report);
            end(memory, base, done, n)
        }
    }
}
