// Replays a list of calls and host writes, from the file that its argument names or from standard input, and prints each answer.
// docs/replay.md has the forms. What is done with the input is `running`'s; here it is run stretch by stretch, and what each prints is written
// out. Its exit status is 0: if anything went wrong, and only then, the error stream has a line.

#![tactic(auto)]

ghost use Rattle.std.specs.Prelude.{◌≡◌, length};
ghost use Rattle.printing.specs.Line.{program_room};

use board::Areas;
use session::Held;
use std::env::{Env, FillError};
use std::io::{Read, Write};
use std::{fs, io};
use stretches::{Streams, Stretches};

// A piece of input, line by line.
fn run_lines<O: Write, E: Write>(streams: &mut Streams<O, E>, held: &mut Held<'_>, piece: &[u8]) {
    for stretch in Stretches(piece) {
        running::run_stretch(held, stretch);
        streams.write_out(held);
    }
}

// How many bytes are read at a time.
const PIECE: usize = 4096;

// All of the input, piece by piece. The loop has a number of turns that no run uses up, so that it ends. The last line needs no newline: behind the
// end of the input is one. Where it cannot be read there is none: a line that is not there whole is not obeyed.
fn run_pieces<R: Read, O: Write, E: Write>(
    streams: &mut Streams<O, E>,
    list: &mut R,
    held: &mut Held<'_>,
) -> io::Result<()> {
    let mut input = [0; PIECE];
    for _ in 0..u64::MAX {
        let piece = stretches::read_piece(list, &mut input)?;
        run_lines(streams, held, piece.unwrap_or(b"\n"));
        if piece.is_none() || held.session.stopped {
            break;
        }
    }
    Ok(())
}

// Room for what one line prints, by the longest answer, of 30 characters: 65,535 of them are the most.
const ROOM: usize = 30 << 16;

// The page of a session, with nothing on it.
fn room() -> [u8; ROOM]
    ensures { program_room ≡ length result }
{
    [0; ROOM]
}

// How many bytes memory has, and each area for a frame, and how many a line may bring.
const MEMORY: usize = 1 << 16;

const FRAME: usize = 2048;

const BYTES: usize = 1 << 16;

// A session of its own for a list.
fn run_list<R: Read, O: Write, E: Write>(streams: &mut Streams<O, E>, list: &mut R) {
    let mut memory = [0; MEMORY];
    let mut holding = [0; FRAME];
    let mut outgoing = [0; FRAME];
    let mut bytes = [0; BYTES];
    let mut out = room();
    let areas = Areas {
        memory: &mut memory,
        holding: &mut holding,
        outgoing: &mut outgoing,
    };
    let mut held = session::start(areas, &mut bytes, &mut out);
    if let Err(error) = run_pieces(streams, list, &mut held) {
        streams.fail("the list", error);
    }
}

// The longest name of a file, and the system's numbers for one that is longer, and for one that is no text: the error stream has its words for them.
const LONGEST_NAME: usize = 4096;

const ENAMETOOLONG: i32 = 36;

const EILSEQ: i32 = 84;

// The name of the list, where the program is given one.
fn list_name<'a>(rt: &impl Env, name: &'a mut [u8]) -> io::Result<Option<&'a str>> {
    match rt.arg(1, name) {
        Ok(length) => str::from_utf8(&name[..length])
            .map(Some)
            .map_err(|_| io::Error::from_raw_os_error(EILSEQ)),
        Err(FillError::NotPresent) => Ok(None),
        Err(FillError::TooLong) => Err(io::Error::from_raw_os_error(ENAMETOOLONG)),
    }
}

// The list is what the argument names, or standard input.
fn main(rt: HostRuntime) {
    let mut streams = Streams {
        alloc: rt.alloc(),
        output: rt.stdout(),
        errors: rt.stderr(),
    };
    let mut name = [0u8; LONGEST_NAME];
    match list_name(&rt, &mut name) {
        Ok(None) => run_list(&mut streams, &mut rt.stdin()),
        Ok(Some(path)) => match fs::open(&rt, path) {
            Ok(mut list) => run_list(&mut streams, &mut list),
            Err(error) => streams.fail(path, error),
        },
        Err(error) => streams.fail("the file's name", error),
    }
}
