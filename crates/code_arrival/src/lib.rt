// An arriving frame over numbers: how it is judged, whether the unit holds it, which counter goes up, and why it is dropped. An arrival is made of a
// frame that has its header and matched. receive's specs/ say what is done, and specs/Arrives.antt that the numbers afterwards are those.

#![tactic(auto)]

ghost use Rattle.std.specs.Prelude.{◌≡◌, ◌<◌, ◌≤◌, ◌^◌};
ghost use Rattle.memory.specs.Memory.{apply};
ghost use Rattle.device.specs.Answers.{counter_of, counts, is_held, reason_of};
ghost use Rattle.device.specs.Numbers.{verdict_number, verdict_of};
ghost use Rattle.device.specs.State.{is_good};
ghost use Rattle.device.specs.declared.Ru.{Ru};
ghost use Rattle.actions.specs.Setup.{Setup};
ghost use Rattle.receive.specs.Arrival as arrivals;
ghost use Rattle.phases.specs.Phases.{ru_tag, frame_number};
ghost use Rattle.packed.specs.SetUp.{SetIs};
ghost use Rattle.code_arrival.specs.Arrives.{frame_in, ArrivesAt};

use device::{Counter, Reason};
use memory::{Offset, RealAddress};
use packed::{Packed, ru, setup};

// A frame has at most 2,048 bytes; the FCS, four bytes more, no call hands over.
const LONGEST: usize = 2048;

const FCS: u64 = 4;

// Where in the holding area a held frame begins.
pub const HELD_FROM: usize = 0;

// The length of a frame. One that exceeds 2,048 bytes is refused before anything here is asked.
#[tactic(auto, unfolding(receive::specs::Arrival::length_of))]
fn length_of(frame: &[u8]) -> u64
    ensures { (result ≡ arrivals.length_of frame.now) × (result ≤ 2048) }
{
    frame.len().min(LONGEST) as u64
}

// The number of the line side's verdict: 0 good, 1 CRC, any other value misaligned.
#[tactic(auto, unfolding(device::specs::Numbers::verdict_of))]
fn verdict_number(v: u32) -> u64
    ensures { (result ≡ verdict_number (verdict_of v)) × (result < 3) }
{
    v.min(ru::MISALIGNED as u32) as u64
}

// Short, bad and good are judged once, by the settings at arrival. Short: bytes plus 4 below the minimum.
fn judge(setup: &[u8; setup::SIZE], frame: &[u8], verdict: u32) -> u64
    ensures { (result < 2 ^ 48) × ((s : Setup) → SetIs s setup.now → result ≡ frame_number (arrivals.judged s.settings frame.now verdict)) }
{
    let length = length_of(frame);
    let short = length + FCS < setup::minimum(setup);
    ru::frame(
        short,
        setup::saves_bad(setup),
        verdict_number(verdict),
        setup::form(setup),
        length,
    )
}

// Neither short nor with a bad verdict.
#[tactic(auto, using(crate::proofs::Laws::good_is), unfolding(phases::specs::Phases::word_of))]
pub fn is_good(f: u64) -> bool
    ensures { result ≡ is_good (frame_in f) }
{
    !ru::short(f) & (ru::verdict(f) == ru::GOOD)
}

// Short: no counter whatever the verdict. Misaligned verdict: ALNERRS. CRC verdict: CRCERRS.
fn counter_of(f: u64) -> Option<Counter>
    ensures { result ≡ arrivals.counter_for (frame_in f) }
{
    if ru::short(f) {
        return None;
    }
    match ru::verdict(f) {
        ru::GOOD => None,
        ru::CRC => Some(Counter::Crc),
        _ => Some(Counter::Alignment),
    }
}

// A frame already held: OVRNERRS. A good frame in No Resources: RSCERRS. A bad one in Ready or No Resources: as it was judged.
fn counter_for(tag: u64, f: u64) -> Option<Counter>
    ensures { (u : Ru) → tag ≡ ru_tag u → result ≡ counter_of (arrivals.fate_in u (frame_in f)) }
{
    if ru::READY < tag {
        return Some(Counter::Overruns);
    }
    if is_good(f) {
        if tag == ru::NO_RESOURCES {
            return Some(Counter::Resources);
        }
        return None;
    }
    if ru::SUSPENDED < tag {
        return counter_of(f);
    }
    None
}

// In Ready a good frame is held, a bad one with save-bad set.
fn is_held(tag: u64, f: u64) -> bool
    ensures { (u : Ru) → tag ≡ ru_tag u → result ≡ is_held (arrivals.fate_in u (frame_in f)) }
{
    (tag == ru::READY) & (is_good(f) | ru::save_bad(f))
}

// Why a frame is dropped: it is not if it is held, or lost and counted since one is held or since there are no resources; then it is bad, or the
// unit is Idle or Suspended.
fn reason_for(tag: u64, f: u64) -> Option<Reason>
    ensures { (u : Ru) → tag ≡ ru_tag u → result ≡ reason_of (arrivals.fate_in u (frame_in f)) }
{
    if is_held(tag, f) {
        return None;
    }
    if ru::READY < tag {
        return None;
    }
    if ru::SUSPENDED < tag {
        if is_good(f) {
            return None;
        }
        return Some(Reason::Bad);
    }
    if tag == ru::IDLE {
        return Some(Reason::UnitIdle);
    }
    Some(Reason::UnitSuspended)
}

// The counter is read from the SCB, increased modulo 65,536, written back. No counter: nothing is written.
#[tactic(auto, unfolding(device::specs::Answers::counts))]
pub fn count(memory: &mut [u8], base: RealAddress, scb: Offset, counter: Option<Counter>)
    ensures { memory.new ≡ apply (counts counter base scb memory.old) memory.old }
{
    if let Some(c) = counter {
        memory::count_up(memory, memory::place(base, scb, c.place()));
    }
}

// What an arrival comes to, besides the lent bytes: the numbers afterwards, and why the frame was dropped, if it was.
#[derive(Clone, Copy)]
pub struct Arrived {
    pub packed: Packed,
    pub reason: Option<Reason>,
}

// A frame that matched arrives. Only a held frame enters the holding area, and the unit holds it before the descriptor that was next.
pub fn arrive(
    memory: &mut [u8],
    holding: &mut [u8],
    setup: &[u8; setup::SIZE],
    k: Packed,
    frame: &[u8],
    verdict: u32,
) -> Arrived
    ensures { ArrivesAt k setup.now frame.now verdict memory.old holding.old result memory.new holding.new }
{
    let f = judge(setup, frame, verdict);
    let tag = packed::ru_tag(k);
    let reason = reason_for(tag, f);
    count(memory, packed::base(k), packed::scb(k), counter_for(tag, f));
    if is_held(tag, f) {
        memory::put_run(holding, HELD_FROM, frame);
        let unit = ru::Unit {
            tag: ru::HELD,
            word: ru::held(f, k.ru),
            rest: 0,
        };
        return Arrived {
            packed: packed::with_ru(k, unit),
            reason,
        };
    }
    Arrived { packed: k, reason }
}
