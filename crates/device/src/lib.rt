// The device's state and what a call answers, as the types that the definitions speak of. The code that C runs carries a state as the numbers
// of the room packed; specs/ has what is known of a state, the changes that the rules make to it and the paper's numbers. Nothing is kept modulo
// N, since N may differ from call to call.

#![tactic(auto)]

ghost use Rattle.std.specs.Prelude.{◌≡◌};
ghost use Rattle.device.specs.Numbers as numbers;

use memory::{Offset, RealAddress};
use scb::Events;

// ---- the command unit

// What a begun command does at its end. Transmit is not among them: it has phases of its own.
#[derive(Clone, Copy)]
pub enum Action {
    Nop,
    IaSetup,
    Configure,
    McSetup,
    Tdr,
    Dump,
    Diagnose,
}

// A begun command: its block, what its command word said, and whether a SUSPEND waits for its end.
#[derive(Clone, Copy)]
pub struct Begun {
    pub block: Offset,
    pub el: bool,
    pub suspend: bool,
    pub interrupt: bool,
    pub pausing: bool,
}

// A walk along buffer descriptors: the next one, how many were used, and how many bytes of the frame are done.
#[derive(Clone, Copy)]
pub struct Walk {
    pub next: Offset,
    pub used: u8,
    pub filled: u16,
}

// The command unit: Idle; Suspended before a block; Active at a block that is not begun; a begun command whose end is next; a
// Transmit at its descriptors; a Transmit whose end is next, with so many bytes in the outgoing area; one that will not be sent.
#[derive(Clone, Copy)]
pub enum Cu {
    Idle,
    Suspended(Offset),
    Waiting(Offset),
    Acting(Begun, Action),
    Sending(Begun, Walk),
    Ending(Begun, u16),
    Failing(Begun),
}

// ---- the receive unit

// The line side's verdict on an arriving frame.
#[derive(Clone, Copy)]
pub enum Verdict {
    Good,
    Crc,
    Misaligned,
}

// The form of a frame's header: the address length, and whether the address location is 1, by which the header goes through buffers as data does.
#[derive(Clone, Copy)]
pub struct Form {
    pub length: u8,
    pub location: bool,
}

// A held frame, as it was judged at its arrival, with the form that was in force then.
#[derive(Clone, Copy)]
pub struct Frame {
    pub length: u16,
    pub verdict: Verdict,
    pub short: bool,
    pub savebad: bool,
    pub form: Form,
}

// A held frame whose storing is begun: its descriptor, what that said, and whether a SUSPEND waits for its end.
#[derive(Clone, Copy)]
pub struct Storing {
    pub fd: Offset,
    pub el: bool,
    pub suspend: bool,
    pub pausing: bool,
    pub frame: Frame,
}

// The receive unit: Idle; No Resources; Suspended or Ready before a frame descriptor; with a frame held and perhaps a SUSPEND
// waiting; storing into buffers; all stored, with the next free offset and whether the last buffer used had EL; out of buffers.
#[derive(Clone, Copy)]
pub enum Ru {
    Idle,
    NoResources,
    Suspended(Offset),
    Ready(Offset),
    Held(Offset, Frame, bool),
    Filling(Storing, Walk),
    Closing(Storing, Offset, bool),
    Lacking(Storing),
}

// ---- the device

// What Configure sets, as far as it acts.
#[derive(Clone, Copy)]
pub struct Settings {
    pub savebad: bool,
    pub promiscuous: bool,
    pub nobroadcast: bool,
    pub minimum: u8,
    pub form: Form,
}

// All of the state but the own address and the filter. `rulast`: the receive unit was served at the last working turn.
#[derive(Clone, Copy)]
pub struct Units {
    pub initialised: bool,
    pub base: RealAddress,
    pub scb: Offset,
    pub events: Events,
    pub rulast: bool,
    pub settings: Settings,
    pub cu: Cu,
    pub ru: Ru,
}

// The state. `filter` is 64 bits: bit k is set exactly if the last MC-Setup since reset brought an address that falls
// on it.
#[derive(Clone, Copy)]
pub struct Device {
    pub units: Units,
    pub own: [u8; 6],
    pub filter: u64,
}

// ---- what a call answers

// Why a call is refused: a case for each row of the table of refusals.
#[derive(Clone, Copy)]
pub enum Refusal {
    Memory,
    Record,
    Holding,
    Outgoing,
    Overlong,
    Foreign,
}

// Why an arriving frame was dropped, in the order of the rules. One that is held, or lost and counted by OVRNERRS or RSCERRS, was not dropped.
#[derive(Clone, Copy)]
pub enum Reason {
    TooFew,
    NoMatch,
    UnitIdle,
    UnitSuspended,
    Bad,
}

// An answer: why the call is refused, if so, the length sent, whether an interrupt edge is reported, and why an arriving frame was dropped, if so.
#[derive(Clone, Copy)]
pub struct Answer {
    pub refusal: Option<Refusal>,
    pub length: u16,
    pub edge: bool,
    pub reason: Option<Reason>,
}

// The SCB's error counters.
#[derive(Clone, Copy)]
pub enum Counter {
    Crc,
    Alignment,
    Resources,
    Overruns,
}

// What a call makes of a frame: first the fates of an arriving one, in the order of the rules, then those of a held one.
#[derive(Clone, Copy)]
pub enum Fate {
    TooFew,
    NoMatch,
    UnitIdle,
    UnitSuspended,
    Overrun,
    Bad(Option<Counter>),
    Held(Option<Counter>),
    NoResources,
    Stored,
    StoredCounted,
    Counted,
    Aborted,
    Reset,
}

// ---- the paper's numbers

// A refusal's number in an answer, and a reason's.
impl From<Refusal> for u16 {
    ghost from_gives = { λ r n. n ≡ numbers.refusal_number r };

    // As the table of refusals has it.
    fn from(r: Refusal) -> u16 {
        match r {
            Refusal::Memory => 1,
            Refusal::Record => 21,
            Refusal::Holding => 22,
            Refusal::Outgoing => 23,
            Refusal::Overlong => 3,
            Refusal::Foreign => 4,
        }
    }
}

impl From<Reason> for u8 {
    ghost from_gives = { λ r n. n ≡ numbers.reason_number r };

    // From 1 on, in the order of the rules.
    fn from(r: Reason) -> u8 {
        match r {
            Reason::TooFew => 1,
            Reason::NoMatch => 2,
            Reason::UnitIdle => 3,
            Reason::UnitSuspended => 4,
            Reason::Bad => 5,
        }
    }
}

// Where a counter stands in the SCB.
const CRCERRS: u16 = 8;

const ALNERRS: u16 = 10;

const RSCERRS: u16 = 12;

const OVRNERRS: u16 = 14;

impl Counter {
    // Its place in the SCB.
    pub fn place(self) -> u16
        ensures { result ≡ numbers.counter_place self }
    {
        match self {
            Counter::Crc => CRCERRS,
            Counter::Alignment => ALNERRS,
            Counter::Resources => RSCERRS,
            Counter::Overruns => OVRNERRS,
        }
    }
}
