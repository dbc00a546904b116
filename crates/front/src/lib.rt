// The thin front: attention and arrival on one device record that is lent and changed in place; the third, turn, is in the room `turning`.
// Each hands the record by value to the core, which is the call that C makes, and stores the record that it gives. Reset goes by value alone.
// The front is to be functions over a device record in place, above a core by value: the form is laid down, so each call has its own.

#![tactic(auto)]

ghost use Rattle.calls.specs.Calls as calls;
ghost use Rattle.board.specs.Front as front;

use board::{Areas, Record, Returned};

// ---- the core: the calls of C, on a record by value

// Reset takes the record alone.
pub fn reset(mut d: Record) -> Returned
    ensures { calls.Renews (calls.reset_call d.bytes) result.answer result.kept.bytes }
{
    let answer = lentoquist::lq_reset(&mut d.bytes);
    Returned { kept: d, answer }
}

// A channel attention to the device of a record.
fn attention_on(mut d: Record, areas: &mut Areas<'_>) -> Returned
    ensures { front.Attends d areas.old result.kept result.answer areas.new }
{
    let answer = lentoquist::lq_attention(
        areas.memory,
        areas.holding,
        areas.outgoing,
        &mut d.bytes,
    );
    Returned { kept: d, answer }
}

// A frame's arrival at the device of a record.
fn arrival_on(mut d: Record, areas: &mut Areas<'_>, frame: &[u8], verdict: u32) -> Returned
    ensures { front.Receives frame.now verdict d areas.old result.kept result.answer areas.new }
{
    let answer = lentoquist::lq_arrival(
        areas.memory,
        areas.holding,
        areas.outgoing,
        &mut d.bytes,
        frame,
        verdict,
    );
    Returned { kept: d, answer }
}

// ---- the record in place

// A channel attention.
pub fn attend(d: &mut Record, areas: &mut Areas<'_>) -> u64
    ensures { front.Attends d.old areas.old d.new result areas.new }
{
    let attended = attention_on(*d, areas);
    *d = attended.kept;
    attended.answer
}

// A frame arrives with the line side's verdict.
pub fn receive(d: &mut Record, areas: &mut Areas<'_>, frame: &[u8], verdict: u32) -> u64
    ensures { front.Receives frame.now verdict d.old areas.old d.new result areas.new }
{
    let arrived = arrival_on(*d, areas, frame, verdict);
    *d = arrived.kept;
    arrived.answer
}
