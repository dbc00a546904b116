// A session of the replay program: the scene, the bytes of the line that is being read, and its reader; and how it begins and stops. What a run
// is, character by character, is said here, and needs no code of the calls; the room `running` runs it. Every function takes every session.

#![tactic(auto)]

ghost use Rattle.session.specs.Held.{Begins, Runs};
ghost use Rattle.session.specs.Run as run;

use board::Areas;
use lines::Reader;
use scene::Scene;
use texts::Page;
use wording::Fault;

// The number of the line that is being read; its reader; whether the session has stopped, as it does at a line that is wrong.
#[derive(Clone, Copy)]
pub struct Session {
    pub line: u64,
    pub reader: Reader,
    pub stopped: bool,
}

// A session with what it is lent: the scene, and the bytes that the line brings. The bytes are lent whole, beside their count in the reader's line: a
// part of them could not grow as the line brings more.
#[derive(Drop)]
pub struct Held<'a> {
    pub scene: Scene<'a>,
    pub bytes: &'a mut [u8],
    pub session: Session,
}

// Line 1 of a run, before its first character.
pub fn start<'a>(areas: Areas<'a>, bytes: &'a mut [u8], out: &'a mut [u8]) -> Held<'a>
    ensures { Begins areas.entry bytes.entry out.entry result }
{
    Held {
        scene: Scene {
            board: board::start(),
            areas,
            page: Page { out, at: 0 },
        },
        bytes,
        session: Session {
            line: 1,
            reader: lines::start(),
            stopped: false,
        },
    }
}

impl Held<'_> {
    // The session stops, and is else as it was: nothing more is read or done.
    pub fn halt(&mut self)
        ensures { Runs run.halted_in self.old self.new }
    {
        self.session.stopped = true;
    }

    // A wrong line: its fault is printed, and the session stops.
    pub fn stop(&mut self, fault: Fault)
        ensures { Runs (run.stopped_in fault) self.old self.new }
    {
        faults::put_fault(&mut self.scene.page, self.session.line, fault);
        self.halt();
    }
}
