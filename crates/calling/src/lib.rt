// A line that is right is obeyed: a call that it makes is made on the board, as often as the line says, and each answer is put on the page;
// all else is the scene's. The scene's record is lent where it stands, with the first N bytes of memory and both areas whole. It takes every
// line, every board and slices of every length.

#![tactic(auto)]

ghost use Rattle.board.specs.Board.{call_of, exported_of, Leaves};
ghost use Rattle.board.specs.Front.{Fronts, areas_with, Fronted};
ghost use Rattle.scene.specs.Scene.{Plays, called, calls_of, obeyed};

use board::{Areas, Asked, Board, Record};
use scene::Scene;
use wording::Line;

// The call that is asked for, through the front; reset and run go by value, and what they give is stored.
#[tactic(auto, unfolding(board::specs::Board::call_of, board::specs::Board::exported_of))]
fn through(asked: Asked, kept: &mut Record, areas: &mut Areas<'_>, frame: &[u8]) -> u64
    ensures { Fronts (exported_of (call_of asked frame.now)) kept.old areas.old kept.new result areas.new }
{
    match asked {
        Asked::Reset => {
            let renewed = front::reset(*kept);
            *kept = renewed.kept;
            renewed.answer
        }
        Asked::Attention => front::attend(kept, areas),
        Asked::Arrival { verdict } => front::receive(kept, areas, frame, verdict),
        Asked::Turn { report } => turning::turn(kept, areas, report),
        Asked::Run { report, budget } => {
            let ran = turning::run(*kept, areas, report, budget);
            *kept = ran.kept;
            ran.answer
        }
    }
}

// The call, on a part of memory: a part goes into the areas by way of a function, or what stands behind it is lost to the proof.
fn lent(
    asked: Asked,
    kept: &mut Record,
    memory: &mut [u8],
    holding: &mut [u8],
    outgoing: &mut [u8],
    frame: &[u8],
) -> u64
    ensures { Fronted (exported_of (call_of asked frame.now) (areas_with kept.old memory.old holding.old outgoing.old))
        kept.new result memory.new holding.new outgoing.new }
{
    let mut areas = Areas {
        memory,
        holding,
        outgoing,
    };
    through(asked, kept, &mut areas, frame)
}

// A call on the board, of whose memory the first N bytes are lent, or all of a shorter one.
fn on_board(asked: Asked, board: &mut Board, areas: &mut Areas<'_>, frame: &[u8]) -> u64
    ensures { Leaves (call_of asked frame.now) board.old areas.old board.new result areas.new }
{
    let n = board.size.min(areas.memory.len());
    lent(
        asked,
        &mut board.kept,
        &mut areas.memory[..n],
        areas.holding,
        areas.outgoing,
        frame,
    )
}

// A call, and its answer is printed; own: the bytes that the line brought.
fn call(scene: &mut Scene<'_>, asked: Asked, own: &[u8])
    ensures { Plays (called (call_of asked own.now)) scene.old scene.new }
{
    let answer = on_board(asked, &mut scene.board, &mut scene.areas, own);
    scene.page.put_answer(answer);
}

// So many calls, each the same.
fn calls(scene: &mut Scene<'_>, asked: Asked, times: u16, own: &[u8])
    ensures { Plays (calls_of times (call_of asked own.now)) scene.old scene.new }
{
    for i in 0..times {
        call(scene, asked, own);
    }
}

// A line that is right is obeyed, if it has a verb; own: the bytes or the text that it brought.
pub fn obey(scene: &mut Scene<'_>, line: Line, own: &[u8])
    ensures { Plays (obeyed line.verb line own.now) scene.old scene.new }
{
    let Some(verb) = line.verb else {
        return;
    };
    match scene::asked(verb, line) {
        Some(asked) => calls(scene, asked, scene::times(verb, line), own),
        None => scene.host(verb, line, own),
    }
}
