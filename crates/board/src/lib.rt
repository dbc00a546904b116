// The board of the replay program: one device record that is held for the whole run, and N. What a call on it leaves is said here, by the
// exported calls' definitions, and needs none of their code; the room `calling` makes the calls. Every function takes every board.

#![tactic(auto)]

ghost use Rattle.std.specs.Prelude.{◌≡◌};
ghost use Rattle.board.specs.Board as board;

// The device record has 256 bytes, of which one has the events. N at the start.
const RECORD: usize = 256;

const EVENTS: usize = 5;

const START: usize = 1 << 16;

// The device record.
#[derive(Clone, Copy)]
pub struct Record {
    pub bytes: [u8; RECORD],
}

// The areas that a call is lent beside the record.
#[derive(Drop)]
pub struct Areas<'a> {
    pub memory: &'a mut [u8],
    pub holding: &'a mut [u8],
    pub outgoing: &'a mut [u8],
}

// What a call on a record by value gives: the record, and the answer as one number.
#[derive(Clone, Copy)]
pub struct Returned {
    pub kept: Record,
    pub answer: u64,
}

// The device record; N.
#[derive(Clone, Copy)]
pub struct Board {
    pub kept: Record,
    pub size: usize,
}

// The call that is asked for, with its numbers; an arrival's frame goes beside it.
#[derive(Clone, Copy)]
pub enum Asked {
    Reset,
    Attention,
    Arrival { verdict: u32 },
    Turn { report: u16 },
    Run { report: u16, budget: u16 },
}

// ---- the board

// All areas start as zeros, the record too; N is 65,536.
pub fn start() -> Board
    ensures { result ≡ board.start }
{
    Board {
        kept: Record { bytes: [0; RECORD] },
        size: START,
    }
}

// The interrupt is high while byte 5 of the record, which has the events, is not 0.
pub fn interrupt(b: Board) -> bool
    ensures { result ≡ board.is_high b }
{
    b.kept.bytes[EVENTS] != 0
}
