// The chip over numbers: a turn, turns in a row, and an arrival. The state goes in and comes out as four numbers, and what the commands set up
// is lent beside it. The crate chip has the definitions that every promise here cites.

#![tactic(auto)]

ghost use Rattle.std.specs.Prelude.{◌≡◌};
ghost use Rattle.scb.specs.Words as words;
ghost use Rattle.scb.specs.declared.Events.{Events};
ghost use Rattle.device.specs.declared.Units.{Units};
ghost use Rattle.packed.specs.Packed as packs;
ghost use Rattle.code_chip.specs.Does as does;

use code_arrival::Arrived;
use device::Reason;
use packed::{Packed, cu, form, ru, setup};

// What a turn comes to, besides the lent bytes; `told` is the length that it sent, with TOLD_EDGE above it if it reports an edge: one number, since
// it goes into the answer as it stands and through a run in a register. A turn that sends a frame, reports an edge or has no work ends a run.
#[derive(Clone, Copy)]
pub struct Turned {
    pub packed: Packed,
    pub told: u32,
    pub stops: bool,
}

// What turns in a row come to: what the last one told, and how many were taken.
#[derive(Clone, Copy)]
pub struct Turns {
    pub packed: Packed,
    pub told: u32,
    pub taken: u16,
}

// The edge above a turn's length, which has 16 bits; in an answer it stands elsewhere.
const TOLD_EDGE: u32 = 1 << 16;

// ---- a turn

// The end of a working turn: the status is written if an event was raised. That is whenever it is due, since no unit changes its state at a turn
// that raises none (`chip`, proofs/Status).
fn conclude(memory: &mut [u8], k: Packed, raised: u64, length: u16) -> Turned
    ensures { (u : Units) (by : Events) → packs.PackedIs u k → raised ≡ words.event_bits by → does.Concludes u by k length memory.old result memory.new }
{
    if raised != 0 {
        code_attention::write_status(memory, k);
        return Turned {
            packed: k,
            told: length as u32 + TOLD_EDGE,
            stops: true,
        };
    }
    Turned {
        packed: k,
        told: length as u32,
        stops: length != 0,
    }
}

// The command unit is served.
fn command_turn(
    memory: &mut [u8],
    outgoing: &mut [u8],
    setup: &mut [u8; setup::SIZE],
    k: Packed,
    report: u16,
) -> Turned
    ensures { does.CommandTurns k report memory.old outgoing.old setup.old
        result memory.new outgoing.new setup.new }
{
    let c = code_command::serve(
        memory,
        outgoing,
        setup,
        packed::base(k),
        packed::cu_unit(k),
        report,
    );
    let after = packed::after_cu(k, c.unit, c.raised);
    conclude(memory, after, c.raised, c.length)
}

// The receive unit is served.
fn receive_turn(memory: &mut [u8], holding: &[u8], k: Packed) -> Turned
    ensures { does.ReceiveTurns k memory.old holding.now result memory.new }
{
    let s = code_receive::serve(
        memory,
        holding,
        packed::base(k),
        packed::scb(k),
        packed::ru_unit(k),
    );
    let after = packed::after_ru(k, s.unit, s.raised);
    conclude(memory, after, s.raised, 0)
}

// Whether the command unit is served: it has work while Active, and of two units with work the one not served at the last working turn is.
fn commands(k: Packed) -> bool
    ensures { (u : Units) → packs.PackedIs u k → result ≡ does.commands u }
{
    if packed::cu_tag(k) < cu::WAITING {
        return false;
    }
    if packed::ru_tag(k) < ru::HELD {
        return true;
    }
    packed::ru_last(k)
}

// The areas stand beside each other, as in code_calls: with one value for all of them a turn takes more instructions.

// A turn: RU has work while a frame is held, CU while Active; if both have, the one not served at the last working turn is served.
pub fn turn(
    memory: &mut [u8],
    holding: &[u8],
    outgoing: &mut [u8],
    setup: &mut [u8; setup::SIZE],
    k: Packed,
    report: u16,
) -> Turned
    ensures { does.TurnTakes k report memory.old holding.now outgoing.old setup.old
        result memory.new outgoing.new setup.new }
{
    if commands(k) {
        return command_turn(memory, outgoing, setup, k, report);
    }
    if ru::HELD <= packed::ru_tag(k) {
        return receive_turn(memory, holding, k);
    }
    Turned {
        packed: k,
        told: 0,
        stops: true,
    }
}

// ---- turns in a row

// Turns with the same line report, until `budget` are taken or one ends the run.
pub fn run(
    memory: &mut [u8],
    holding: &[u8],
    outgoing: &mut [u8],
    setup: &mut [u8; setup::SIZE],
    k: Packed,
    report: u16,
    budget: u16,
) -> Turns
    ensures { does.RunTakes k report budget memory.old holding.now outgoing.old setup.old
        result memory.new outgoing.new setup.new }
{
    let mut state = k;
    for taken in 0..budget {
        let t = turn(memory, holding, outgoing, setup, state, report);
        if t.stops {
            return Turns {
                packed: t.packed,
                told: t.told,
                taken: taken + 1,
            };
        }
        state = t.packed;
    }
    Turns {
        packed: state,
        told: 0,
        taken: budget,
    }
}

// ---- arrival

// A frame arrives with the line side's verdict. One shorter than the header is dropped, and so is one that is not for us.
pub fn arrival(
    memory: &mut [u8],
    holding: &mut [u8],
    setup: &[u8; setup::SIZE],
    k: Packed,
    frame: &[u8],
    verdict: u32,
) -> Arrived
    ensures { does.ArrivalTakes k frame.now verdict memory.old holding.old setup.now
        result memory.new holding.new }
{
    let f = setup::form(setup);
    if !form::has_header(f, frame.len() as u64) {
        return Arrived {
            packed: k,
            reason: Some(Reason::TooFew),
        };
    }
    if code_filter::matches(setup, &frame[..form::length(f) as usize]) {
        return code_arrival::arrive(memory, holding, setup, k, frame, verdict);
    }
    Arrived {
        packed: k,
        reason: Some(Reason::NoMatch),
    }
}
