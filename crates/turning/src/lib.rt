// The thin front, as in the room `front`: turn, on one device record that is lent and changed in place, with its core; and a run of turns,
// which goes by value. The front is to be functions over a device record in place, above a core by value: the form is laid down, so each
// call has its own.

#![tactic(auto)]

ghost use Rattle.calls.specs.Calls as calls;
ghost use Rattle.board.specs.Front as front;

use board::{Areas, Record, Returned};

// ---- the core: the calls of C, on a record by value

// A turn of the device of a record.
fn turn_on(mut d: Record, areas: &mut Areas<'_>, report: u16) -> Returned
    ensures { front.Turns report d areas.old result.kept result.answer areas.new }
{
    let answer = lentoquist::lq_turn(
        areas.memory,
        areas.holding,
        areas.outgoing,
        &mut d.bytes,
        report,
    );
    Returned { kept: d, answer }
}

// A run of turns, each with the same line report. It goes by value alone, as reset does.
pub fn run(mut d: Record, areas: &mut Areas<'_>, report: u16, budget: u16) -> Returned
    ensures { front.Runs report budget d areas.old result.kept result.answer areas.new }
{
    let answer = lentoquist::lq_run(
        areas.memory,
        areas.holding,
        areas.outgoing,
        &mut d.bytes,
        report,
        budget,
    );
    Returned { kept: d, answer }
}

// ---- the record in place

// A turn, with the line report.
pub fn turn(d: &mut Record, areas: &mut Areas<'_>, report: u16) -> u64
    ensures { front.Turns report d.old areas.old d.new result areas.new }
{
    let turned = turn_on(*d, areas, report);
    *d = turned.kept;
    turned.answer
}
