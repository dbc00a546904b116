// A run of the replay program: characters are read, and at each line's end what was read is obeyed. docs/replay.md has the forms. A session
// is changed in place, so a run in stretches is a run of the whole. It takes every session, slices of every length, and a stretch in which
// at most one line ends.

#![tactic(auto)]

ghost use Rattle.std.specs.Prelude.{◌≤◌, take};
ghost use Rattle.scene.specs.Scene.{Plays, obeyed};
ghost use Rattle.session.specs.Held.{Runs};
ghost use Rattle.session.specs.Run as run;
ghost use Rattle.printing.specs.Run.{newlines, emptied_in};

use scene::Scene;
use session::Held;
use wording::Line;

// A line is obeyed, with as many bytes as it has brought of those that are there.
fn obey(scene: &mut Scene<'_>, line: Line, bytes: &[u8])
    ensures { Plays (obeyed line.verb line (take line.filled bytes.now)) scene.old scene.new }
{
    let n = (line.filled as usize).min(bytes.len());
    calling::obey(scene, line, &bytes[..n]);
}

// A line that has been read to its end: it is obeyed, or its fault is printed.
fn judge(held: &mut Held<'_>)
    ensures { Runs run.judged_in held.old held.new }
{
    if let Some(fault) = held.session.reader.fault {
        held.stop(fault);
        return;
    }
    // The bytes are lent by themselves: what is taken of them where the scene is lent too has no rule in the proof.
    let bytes = &mut *held.bytes;
    obey(&mut held.scene, held.session.reader.line, bytes);
    held.session.line = held.session.line.wrapping_add(1);
    held.session.reader = lines::start();
}

// A character: after bad input nothing more is read or done.
fn feed(held: &mut Held<'_>, c: u8)
    ensures { Runs (λ st. run.fed st c) held.old held.new }
{
    if held.session.stopped {
        return;
    }
    if c == b'\n' {
        held.session.reader = lines::end(held.bytes, held.session.reader);
        judge(held);
        return;
    }
    held.session.reader = lines::read(held.bytes, held.session.reader, c);
}

// A stretch of input.
fn run(held: &mut Held<'_>, input: &[u8])
    ensures { Runs (λ st. run.ran st input.now) held.old held.new }
{
    for c in input {
        feed(held, *c);
    }
}

// A stretch of input is run, and what it prints stands in the slice for texts, from its beginning on. There is room for what any one line
// prints: `one_line_fits` in the room `printing`, where this is a step of `in_stretches`.
pub fn run_stretch(held: &mut Held<'_>, input: &[u8])
    requires { newlines input.now ≤ 1 }
    ensures { Runs (λ st. run.ran (emptied_in st) input.now) held.old held.new }
{
    held.scene.page.at = 0;
    run(held, input);
}
