// The receive unit over numbers: one service, which begins a held frame, fills a buffer, or ends the frame. It assumes nothing. receive's specs/
// say what is done, and specs/Receives.antt that the numbers afterwards are those. The room code_arrival has what comes before.

#![tactic(auto)]

ghost use Rattle.std.specs.Prelude.{◌≡◌, ◌-◌, ◌%◌, ◌<◌, ◌≤◌, ◌^◌, min};
ghost use Rattle.memory.specs.Address.{is_none, place};
ghost use Rattle.memory.specs.Memory.{apply};
ghost use Rattle.device.specs.Answers.{counter_of, is_stored};
ghost use Rattle.device.specs.Header as rule;
ghost use Rattle.device.specs.Numbers.{verdict_of};
ghost use Rattle.device.specs.declared.Fate.{Fate};
ghost use Rattle.device.specs.declared.Ru.{Ru};
ghost use Rattle.receive.specs.Part.{first_at};
ghost use Rattle.receive.specs.Begin as begins;
ghost use Rattle.receive.specs.Buffer as buffers;
ghost use Rattle.receive.specs.End as ends;
ghost use Rattle.receive.specs.Service.{service};
ghost use Rattle.packed.specs.Packed.{RuUnitIs};
ghost use Rattle.code_arrival.specs.Arrives.{frame_in};
ghost use Rattle.code_receive.specs.Receives as receives;
ghost use Rattle.code_receive.specs.Receives.{part_by, Quietly, Serves};

use code_arrival::HELD_FROM;
use copies::{Any, Few};
use device::Counter;
use memory::{Offset, RealAddress};
use packed::{FR, RNR, form, ru};

// What a service comes to, besides the lent bytes: the unit, and the events that came up. Not one with code_command's, which has a length besides,
// and a unit of one word.
#[derive(Clone, Copy)]
pub struct Received {
    pub unit: ru::Unit,
    pub raised: u64,
}

// A service that leaves the unit so, and raises so much.
fn served(tag: u64, word: u64, rest: u64, raised: u64) -> Received
    ensures { result ≡ receives.served tag word rest raised }
{
    Received {
        unit: ru::Unit { tag, word, rest },
        raised,
    }
}

// One that raises nothing.
fn quiet(tag: u64, word: u64, rest: u64) -> Received
    ensures { result ≡ receives.quiet tag word rest }
{
    served(tag, word, rest, 0)
}

// The frame descriptor: +0 status, +2 EL and S, +4 link, +6 first buffer descriptor, +8 the header.
const STATUS: u16 = 0;

const CONTROL: u16 = 2;

const LINK: u16 = 4;

const FIRST: u16 = 6;

const HEADER_AT: u16 = 8;

// Bits 14 and 15 of +2 are S and EL.
const CONTROL_BITS: u16 = 1 << 14;

// The receive buffer descriptor: +0 EOF, F and count, +2 next, +4 real address, +8 EL in bit 15 and size in the 14 bits below.
const FILLED: u16 = 0;

const NEXT: u16 = 2;

const BUFFER: u16 = 4;

const SIZE: u16 = 8;

const BUFFER_EL: u16 = 0x8000;

const SIZES: u16 = 1 << 14;

const COUNTS: u64 = 1 << 14;

const EOF: u16 = 0x8000;

const F: u16 = 0x4000;

// Bits of a frame descriptor's status: 15 C, 14 B, 13 OK; 11 CRC, 10 alignment, 9 out of buffers, 7 short.
const COMPLETE: u16 = 0x8000;

const BUSY: u16 = 0x4000;

const OK: u16 = 0x2000;

const CRC_BIT: u16 = 0x0800;

const ALIGNMENT_BIT: u16 = 0x0400;

const LACKING_BIT: u16 = 0x0200;

const SHORT_BIT: u16 = 0x0080;

// At most so many buffers are filled with one frame.
const MOST_BUFFERS: u64 = 64;

// ---- begin

// How many of the frame's first bytes do not go through buffers, by the form that it arrived under.
#[tactic(auto, unfolding(phases::specs::Phases::word_of))]
fn unbuffered(n: u64) -> u64
    ensures { (result ≡ rule.unbuffered (frame_in n).form) × (result ≤ 14) }
{
    form::unbuffered(ru::form(n))
}

// Whether a frame has no data for the buffers.
fn is_bare(n: u64) -> bool
    ensures { result ≡ begins.is_bare (frame_in n) }
{
    !form::has_data(ru::form(n), packed::size_of(n))
}

// No data: the end is next, and the first offset stays the next free one. Data left at FFFFh: out of buffers.
fn to_first(n: u64, control: u16, first: Offset) -> Received
    ensures { Quietly (receives.HeldIn n) (begins.to_first (begins.is_bare (frame_in n)) (is_none first) (receives.begun_in n control) first) result }
{
    let s = ru::begun(n, control / CONTROL_BITS);
    if is_bare(n) {
        return quiet(ru::CLOSING, ru::with_next(s, first), 0);
    }
    if memory::is_none(first) {
        return quiet(ru::LACKING, s, 0);
    }
    let rest = ru::rest_of(unbuffered(n), 0);
    quiet(ru::FILLING, ru::with_next(s, first), rest)
}

// Begin: read +2 and +6, write 4000h. It asks nothing of the holding area.
fn begin(memory: &mut [u8], base: RealAddress, n: u64) -> Received
    ensures { receives.HeldIn n → Serves (receives.begin_in base n memory.old) memory.old result memory.new }
{
    let fd = packed::at_of(n);
    let control = memory::word_at(memory, memory::place(base, fd, CONTROL));
    let first = memory::offset_at(memory, memory::place(base, fd, FIRST));
    memory::put_word(memory, memory::place(base, fd, STATUS), BUSY);
    to_first(n, control, first)
}

// ---- buffer

// How many bytes go into a buffer: its size, or the data left where that is less.
fn count_into(length: u64, filled: u64, size: u64) -> u64
    ensures { result ≡ min size (length - filled) }
{
    size.min(length.saturating_sub(filled))
}

// F, count, and EOF if the data ends there. A count has 14 bits.
fn filled_word(done: bool, n: u64) -> u16
    ensures { result ≡ buffers.filled_word done (n % 2 ^ 14) }
{
    if done {
        return EOF + F + (n % COUNTS) as u16;
    }
    F + (n % COUNTS) as u16
}

// The data ends: all is stored. Data left after EL, at FFFFh or after 64: out of buffers.
fn after_buffer(n: u64, next: Offset, el: bool, used: u64, filled: u64) -> Received
    requires { (used < 2 ^ 8) × (filled < 2 ^ 16) }
    ensures { Quietly (receives.FillingIn n) (receives.after_in n next el used filled) result }
{
    if packed::size_of(n) <= filled {
        let word = ru::with_next(ru::filled_up(n, el), next);
        return quiet(ru::CLOSING, word, 0);
    }
    if el | memory::is_none(next) | (MOST_BUFFERS <= used + 1) {
        return quiet(ru::LACKING, ru::filled_up(n, false), 0);
    }
    let word = ru::with_next(ru::filled_up(n, false), next);
    quiet(ru::FILLING, word, ru::rest_of(filled, used + 1))
}

// A buffer: one descriptor is read whole, its buffer filled at its real address, then F, count and EOF are written.
fn buffer(memory: &mut [u8], holding: &[u8], base: RealAddress, n: u64, rest: u64) -> Received
    ensures { receives.FillingIn n → Serves (receives.buffer_in base n rest holding.now memory.old) memory.old result memory.new }
{
    let o = packed::next_of(n);
    let filled = ru::filled(rest);
    let word = memory::word_at(memory, memory::place(base, o, SIZE));
    let next = memory::offset_at(memory, memory::place(base, o, NEXT));
    let to = memory::real_at(memory, memory::place(base, o, BUFFER));
    let count = count_into(packed::size_of(n), filled, (word % SIZES) as u64);
    copies::copy_in::<Any>(
        memory,
        to,
        holding,
        HELD_FROM + filled as usize,
        count as usize,
    );
    let mark = filled_word(packed::size_of(n) <= filled + count, count);
    memory::put_word(memory, memory::place(base, o, FILLED), mark);
    after_buffer(n, next, BUFFER_EL <= word, ru::used(rest), filled + count)
}

// ---- end

// The status bit for a verdict: 10 alignment excludes 11 CRC.
#[tactic(auto, unfolding(device::specs::Numbers::verdict_of))]
fn verdict_bit(kind: u64) -> u16
    ensures { (result ≡ ends.verdict_bit (verdict_of kind)) × (result ≤ 0x0800) }
{
    match kind {
        ru::GOOD => 0,
        ru::CRC => CRC_BIT,
        _ => ALIGNMENT_BIT,
    }
}

// All error bits that apply.
fn error_bits(lacking: bool, n: u64) -> u16
    ensures { (result ≡ ends.error_bits lacking (frame_in n)) × (result ≤ 0x0A80) }
{
    verdict_bit(ru::verdict(n))
        + LACKING_BIT * u16::from(lacking)
        + SHORT_BIT * u16::from(ru::short(n))
}

// The descriptor's status: C, with all error bits that apply, and OK only with no error bit.
#[tactic(auto, using(crate::proofs::Laws::status_good, crate::proofs::Laws::status_bad))]
fn frame_status(lacking: bool, n: u64) -> u16
    ensures { result ≡ ends.frame_status lacking (frame_in n) }
{
    if !lacking & code_arrival::is_good(n) {
        return COMPLETE + OK;
    }
    COMPLETE + error_bits(lacking, n)
}

// FFFFh at +6 if no data.
fn mark_bare(memory: &mut [u8], base: RealAddress, fd: Offset, bare: bool)
    ensures { memory.new ≡ apply (ends.bare_mark bare (place base fd first_at)) memory.old }
{
    if bare {
        memory::put_word(memory, memory::place(base, fd, FIRST), memory::NONE);
    }
}

// Stored: the header bytes that went to no buffer, status, FFFFh at +6 if no data. Not stored: status 0000h.
fn describe(
    memory: &mut [u8],
    holding: &[u8],
    base: RealAddress,
    stored: bool,
    lacking: bool,
    n: u64,
)
    ensures { receives.Describes base n stored lacking holding.now memory.old memory.new }
{
    let fd = packed::at_of(n);
    if stored {
        copies::copy_in::<Few>(
            memory,
            memory::place(base, fd, HEADER_AT),
            holding,
            HELD_FROM,
            unbuffered(n) as usize,
        );
        memory::put_word(
            memory,
            memory::place(base, fd, STATUS),
            frame_status(lacking, n),
        );
        mark_bare(memory, base, fd, is_bare(n));
        return;
    }
    memory::put_word(memory, memory::place(base, fd, STATUS), 0);
}

// Out of buffers and otherwise good: RSCERRS.
fn lost(lacking: bool, n: u64) -> Option<Counter>
    ensures { result ≡ counter_of (ends.fate_of lacking (frame_in n)) }
{
    if lacking & code_arrival::is_good(n) {
        return Some(Counter::Resources);
    }
    None
}

// The held frame's fate is settled: its descriptor is written, then its counter, if it has one, goes up. The answer is whether the frame is
// stored: out of buffers, it is kept if save-bad was set at arrival.
fn settle(
    memory: &mut [u8],
    holding: &[u8],
    base: RealAddress,
    scb: Offset,
    lacking: bool,
    n: u64,
) -> bool
    ensures { (result ≡ is_stored (ends.fate_of lacking (frame_in n))) × receives.Settles base scb n lacking holding.now memory.old memory.new }
{
    let stored = !lacking | ru::save_bad(n);
    describe(memory, holding, base, stored, lacking, n);
    code_arrival::count(memory, base, scb, lost(lacking, n));
    stored
}

// Exhausted: No Resources, which wins over Suspended. Otherwise +6 of the next frame descriptor (link read now) gets the next free offset;
// S or a waiting SUSPEND suspends. FR came up if the frame is stored, and leaving Ready raises RNR.
fn goes_on(memory: &mut [u8], base: RealAddress, n: u64, exhausted: bool, stored: bool) -> Received
    ensures { (f : Fate) → stored ≡ is_stored f → Serves (receives.proceeds_in exhausted base n f memory.old) memory.old result memory.new }
{
    let fr = FR * u64::from(stored);
    if exhausted {
        return served(ru::NO_RESOURCES, 0, 0, fr + RNR);
    }
    let link = memory::offset_at(memory, memory::place(base, packed::at_of(n), LINK));
    let free = packed::next_of(n);
    memory::put_word(memory, memory::place(base, link, FIRST), free.0);
    if ru::suspend(n) | ru::pausing(n) {
        return served(ru::SUSPENDED, packed::plain(link), 0, fr + RNR);
    }
    served(ru::READY, packed::plain(link), 0, fr)
}

// End: all is stored, or buffers were lacking. That, descriptor EL, or EL on the last buffer used, gives No Resources.
fn end(
    memory: &mut [u8],
    holding: &[u8],
    base: RealAddress,
    scb: Offset,
    lacking: bool,
    n: u64,
) -> Received
    ensures { (unit : Ru) → Serves (receives.end_in lacking (part_by base scb unit holding.now) n memory.old) memory.old result memory.new }
{
    let stored = settle(memory, holding, base, scb, lacking, n);
    goes_on(memory, base, n, lacking | (ru::el(n) | ru::full(n)), stored)
}

// ---- one service

// One service of the receive unit: a begin, a buffer or an end of the held frame. With no frame held there is no work.
pub fn serve(
    memory: &mut [u8],
    holding: &[u8],
    base: RealAddress,
    scb: Offset,
    unit: ru::Unit,
) -> Received
    ensures { (u : Ru) → RuUnitIs u unit → Serves (service (part_by base scb u holding.now) memory.old) memory.old result memory.new }
{
    if unit.tag < ru::HELD {
        return Received { unit, raised: 0 };
    }
    let n = unit.word;
    match unit.tag {
        ru::HELD => begin(memory, base, n),
        ru::FILLING => buffer(memory, holding, base, n, unit.rest),
        // What is left is Closing and Lacking.
        _ => end(memory, holding, base, scb, unit.tag == ru::LACKING, n),
    }
}
