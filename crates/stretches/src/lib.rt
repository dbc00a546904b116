// What the replay program reads and writes, and where it cuts: the input comes in pieces, a stretch ends where a line does, and what a session
// has put is written out, answers to standard output and a fault to the error stream. Nothing is run here. What goes wrong with either is told
// on the error stream, and ends the run.

#![tactic(auto)]

ghost use Rattle.std.specs.Prelude.{◌⊎◌, ◌≡◌, ◌<◌, ◌≤◌, true, false, length, OnOk, IfOk, IsNone};
ghost use Rattle.std.specs.Iterator.{item_count};
ghost use Rattle.std.specs.Io.KnownBytes.{Appends, Consumes, IsAtEnd};
ghost use Rattle.session.specs.Held.{Runs, session_in, state_in};
ghost use Rattle.session.specs.Run.{halted_in};
ghost use Rattle.printing.specs.Run.{written};
ghost use Rattle.printing.specs.Streams.{stream_of};
ghost use Rattle.stretches.specs.Streams.{stream_said};
ghost use Rattle.stretches.specs.Stretches.{CutsStretch, piece_bytes};

use session::Held;
use std::alloc::Global;
use std::io;
use std::io::{Read, Write};

// The stretches of a piece of input, in order: each ends behind a newline, or at the end of the piece. So at most one line ends in each.
// The library's cuts, with what a stretch is as its law.
#[derive(Drop)]
pub struct Stretches<'a>(pub &'a [u8]);

impl<'a> Iterator for Stretches<'a> {
    type Item = &'a [u8];

    ghost next_gives = { CutsStretch };

    ghost remaining = { item_count (λ s. s.0.now) };

    // The next stretch; none behind the last.
    fn next(&mut self) -> Option<&'a [u8]> {
        let stretch = self.0.split_inclusive(|c| *c == b'\n').next()?;
        self.0 = &self.0[stretch.len()..];
        Some(stretch)
    }
}

// The next piece of input, or nothing at its end. An error is answered: who calls it tells it and ends the run.
pub fn read_piece<'a, R: Read>(list: &mut R, input: &'a mut [u8]) -> io::Result<Option<&'a [u8]>>
    ensures bytes { IfOk result (λ p. Consumes (R.remaining list.old) (R.remaining list.new) (piece_bytes p)) }
    ensures end { IfOk result (λ p. 0 < length input.old → IsNone p → IsAtEnd (R.remaining list.new)) }
    ensures length { IfOk result (λ p. length (piece_bytes p) ≤ length input.old) }
{
    match list.read(input)? {
        0 => Ok(None),
        length => Ok(Some(&input[..length])),
    }
}

// Standard output, the error stream.
#[derive(Clone, Copy)]
enum Stream {
    Output,
    Errors,
}

// The stream that has what a session has put. At most one line ends in a stretch, so where the session has stopped that is the fault alone:
// `the_streams_have` in the room `printing`.
fn stream_for(held: &Held<'_>) -> Stream
    ensures { stream_said result ≡ stream_of (session_in held.now) }
{
    if held.session.stopped {
        return Stream::Errors;
    }
    Stream::Output
}

// What a session has put.
fn text_of<'a>(held: &'a Held<'_>) -> &'a [u8]
    ensures { result.now ≡ written (state_in held.now) }
{
    let out = &*held.scene.page.out;
    let n = held.scene.page.at.min(out.len());
    &out[..n]
}

// Standard output and the error stream, and where the words of an error are made. The list is no part of it: one that cannot be opened is told here.
#[derive(Drop)]
pub struct Streams<O, E> {
    pub alloc: Global,
    pub output: O,
    pub errors: E,
}

impl<O: Write, E: Write> Streams<O, E> {
    // What goes wrong is told on the error stream: what failed, a colon and the system's words for it. No method gives those alone: an error prints
    // its number behind them, and is cut there.
    pub fn fail(&mut self, what: &str, error: io::Error)
        ensures { self.new.output ≡ self.old.output }
    {
        let _ = match error.to_string(self.alloc) {
            Ok(words) => match words.as_str().split_once(" (os error ") {
                Some((known, _)) => writeln!(self.errors, "{what}: {known}"),
                None => writeln!(self.errors, "{what}: {words}"),
            },
            Err(_) => writeln!(self.errors, "{what}: {error}"),
        };
    }

    // A text on one of the two.
    fn write_to(&mut self, stream: Stream, text: &[u8]) -> io::Result<()>
        ensures on_errors { stream ≡ Stream.Errors → OnOk result (Appends (E.contents self.old.errors) (E.contents self.new.errors) text.now) }
        ensures not_on_output { stream ≡ Stream.Errors → self.new.output ≡ self.old.output }
        ensures on_output { stream ≡ Stream.Output → OnOk result (Appends (O.contents self.old.output) (O.contents self.new.output) text.now) }
        ensures not_on_errors { stream ≡ Stream.Output → self.new.errors ≡ self.old.errors }
    {
        match stream {
            Stream::Output => self.output.write_all(text),
            Stream::Errors => self.errors.write_all(text),
        }
    }

    // What a session has put is written out: while it goes on, to standard output alone; where it has stopped, nothing goes there. Where writing
    // fails the session stops, and is else as it was.
    pub fn write_out(&mut self, held: &mut Held<'_>)
        ensures session { Runs (λ st. st) held.old held.new ⊎ Runs halted_in held.old held.new }
        ensures answers { held.new.session.stopped ≡ false → (self.new.errors ≡ self.old.errors)
            × Appends (O.contents self.old.output) (O.contents self.new.output) (written (state_in held.old)) }
        ensures fault { held.old.session.stopped ≡ true → self.new.output ≡ self.old.output }
    {
        let stream = stream_for(held);
        if let Err(error) = self.write_to(stream, text_of(held)) {
            self.fail("standard output", error);
            held.halt();
        }
    }
}
