// What a line wants: which word stands next by its verb, what is missing where it ends, and whether what it names lies within its area.
// docs/replay.md has the forms. It takes every line.

#![tactic(auto)]

ghost use Rattle.std.specs.Prelude.{◌≡◌};
ghost use Rattle.wording.specs.Lines as lines;

use wording::{Fault, Line, Verb, Want, Wrong};

// By how many words a line has.
fn want_by(taken: u32, first: Want, second: Want, third: Want, then: Want) -> Want
    ensures { result ≡ lines.want_by taken first second third then }
{
    match taken {
        0 => first,
        1 => second,
        2 => third,
        _ => then,
    }
}

// What the next word of a line must be.
pub fn wanted(verb: Option<Verb>, taken: u32) -> Want
    ensures { result ≡ lines.wanted verb taken }
{
    match verb {
        None => Want::First,
        Some(Verb::Size) => want_by(taken, Want::Size, Want::End, Want::End, Want::End),
        Some(Verb::Reset | Verb::Attention | Verb::Interrupt | Verb::Record) => Want::End,
        Some(Verb::Arrival) => want_by(taken, Want::Number, Want::Bytes, Want::Bytes, Want::Bytes),
        Some(Verb::Turn | Verb::Run) => {
            want_by(taken, Want::Short, Want::Short, Want::End, Want::End)
        }
        Some(Verb::Bytes) => want_by(taken, Want::Area, Want::Place, Want::Bytes, Want::Bytes),
        Some(Verb::Words) => want_by(taken, Want::Area, Want::Place, Want::Value, Want::Value),
        Some(Verb::Show | Verb::Look) => {
            want_by(taken, Want::Area, Want::Place, Want::Number, Want::End)
        }
        Some(Verb::Say) => Want::Text,
    }
}

// How many words a line must have behind its verb.
fn least(verb: Verb) -> u32
    ensures { result ≡ lines.least verb }
{
    match verb {
        Verb::Size | Verb::Arrival | Verb::Run => 1,
        Verb::Bytes | Verb::Words => 2,
        Verb::Show | Verb::Look => 3,
        Verb::Reset | Verb::Attention | Verb::Turn | Verb::Interrupt | Verb::Record | Verb::Say =>
            0,
    }
}

// What is missing from a line.
fn missing(want: Want) -> Wrong
    ensures { result ≡ lines.missing want }
{
    match want {
        Want::Area => Wrong::Area,
        Want::First
        | Want::Size
        | Want::Short
        | Want::Number
        | Want::Place
        | Want::Bytes
        | Want::Value
        | Want::Text
        | Want::End => Wrong::Number,
    }
}

// Whether n bytes from a place on lie below the end.
fn has_room(end: u64, place: u64, n: u64) -> bool
    ensures { result ≡ lines.has_room end place n }
{
    place <= end && n <= end - place
}

// Whether what a line writes or shows lies in its area, which ends there.
fn fits(verb: Verb, line: Line, end: u64) -> bool
    ensures { result ≡ lines.fits verb line end }
{
    match verb {
        Verb::Bytes | Verb::Words => has_room(end, line.first, line.filled as u64),
        Verb::Show => has_room(end, line.first, line.second),
        Verb::Look => has_room(end, line.first, line.second.min(wording::MANY) * 2),
        Verb::Size
        | Verb::Reset
        | Verb::Attention
        | Verb::Arrival
        | Verb::Turn
        | Verb::Run
        | Verb::Interrupt
        | Verb::Record
        | Verb::Say => true,
    }
}

// What is wrong with a line that has ended, if something is.
#[tactic(auto, unfolding(wording::specs::Lines::judged_by))]
pub fn judged(line: Line, behind: u32) -> Option<Fault>
    ensures { result ≡ lines.judged line behind }
{
    let verb = line.verb?;
    if line.taken < least(verb) {
        let want = wanted(line.verb, line.taken);
        return Some(wording::fault_at(missing(want), behind));
    }
    if fits(verb, line, wording::size_of(line.area)) {
        return None;
    }
    Some(wording::fault_at(Wrong::Room, line.placed))
}
