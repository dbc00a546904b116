// A word that has been read is taken by its line, as what the line wants there, or it is what is wrong. docs/replay.md has the forms. The bytes
// that it brings go to a slice; what would pass its end goes nowhere. It takes every slice, every word and every line.

#![tactic(auto)]

ghost use Rattle.std.specs.Prelude.{◌≡◌};
ghost use Rattle.wording.specs.Take as take;

use wording::{Area, Fault, Line, Piece, Verb, Want, Word, Wrong};

// The line with one word more.
fn advanced(line: Line) -> Result<Line, Fault>
    ensures { result ≡ take.advanced line }
{
    Ok(Line {
        taken: wording::counted(line.taken, 1),
        ..line
    })
}

// The line with one word more, and n bytes.
fn brought(line: Line, n: u64) -> Result<Line, Fault>
    ensures { result ≡ take.brought line n }
{
    advanced(Line {
        filled: wording::counted(line.filled, n),
        ..line
    })
}

// What was expected instead of the word that begins in a column.
fn refused(wrong: Wrong, column: u32) -> Result<Line, Fault>
    ensures { result ≡ take.refused wrong column }
{
    Err(wording::fault_at(wrong, column))
}

// A number in its slot: the first word's in the first, a later one's in the second.
#[tactic(auto, unfolding(wording::specs::Take::with_number))]
fn with_number(line: Line, n: u64) -> Line
    ensures { result ≡ take.with_number line n }
{
    if line.taken == 0 {
        return Line { first: n, ..line };
    }
    Line { second: n, ..line }
}

// A line's first word, which names its verb.
#[tactic(auto, unfolding(wording::specs::Take::take_verb))]
fn take_verb(line: Line, verb: Option<Verb>, start: u32) -> Result<Line, Fault>
    ensures { result ≡ take.take_verb verb line start }
{
    let named = verb.ok_or(wording::fault_at(Wrong::First, start))?;
    Ok(Line {
        verb: Some(named),
        ..line
    })
}

// A number below a bound; what is said of one that is not.
#[tactic(auto, unfolding(wording::specs::Take::take_number))]
fn take_number(
    line: Line,
    found: Option<u64>,
    start: u32,
    bound: u64,
    beyond: Wrong,
) -> Result<Line, Fault>
    ensures { result ≡ take.take_number found line start bound beyond }
{
    let n = found.ok_or(wording::fault_at(Wrong::Number, start))?;
    if n < bound {
        return advanced(with_number(line, n));
    }
    refused(beyond, start)
}

// The area that a word names.
#[tactic(auto, unfolding(wording::specs::Take::take_area))]
fn take_area(line: Line, named: Option<Area>, start: u32) -> Result<Line, Fault>
    ensures { result ≡ take.take_area named line start }
{
    let area = named.ok_or(wording::fault_at(Wrong::Area, start))?;
    advanced(Line { area, ..line })
}

// A place below the area's size.
#[tactic(auto, unfolding(wording::specs::Take::take_place))]
fn take_place(line: Line, found: Option<u64>, start: u32, size: u64) -> Result<Line, Fault>
    ensures { result ≡ take.take_place found line start size }
{
    let n = found.ok_or(wording::fault_at(Wrong::Number, start))?;
    if n < size {
        return advanced(Line {
            first: n,
            placed: start,
            ..line
        });
    }
    refused(Wrong::Place, start)
}

// Bytes that were stored digit by digit, or one byte so often.
#[tactic(auto, unfolding(wording::specs::Take::take_bytes))]
fn take_bytes(bytes: &mut [u8], line: Line, p: Option<Piece>, start: u32) -> Result<Line, Fault>
    ensures { take.Takes (take.take_bytes p line start bytes.old) result bytes.new }
{
    match p {
        Some(Piece::High(stored)) => brought(line, stored as u64),
        Some(Piece::Times(times, byte)) => {
            wording::fill(bytes, line.filled as usize, times as usize, byte);
            brought(line, times)
        }
        Some(Piece::Low(_, _) | Piece::TimesHigh(_) | Piece::TimesLow(_, _)) | None => {
            refused(Wrong::Bytes, start)
        }
    }
}

// A word of 16 bits goes to a place, low byte first.
#[tactic(auto, unfolding(wording::specs::Take::put_value))]
fn put_value(bytes: &mut [u8], i: u32, n: u64)
    ensures { bytes.new ≡ take.put_value i n bytes.old }
{
    let [low, high] = ((n % wording::SHORT) as u16).to_le_bytes();
    wording::put(bytes, i as usize, low);
    wording::put(bytes, i as usize + 1, high);
}

// A word of 16 bits, which is stored.
#[tactic(auto, unfolding(wording::specs::Take::take_value))]
fn take_value(bytes: &mut [u8], line: Line, found: Option<u64>, start: u32) -> Result<Line, Fault>
    ensures { take.Takes (take.take_value found line start bytes.old) result bytes.new }
{
    let n = found.ok_or(wording::fault_at(Wrong::Number, start))?;
    if n < wording::SHORT {
        put_value(bytes, line.filled, n);
        return brought(line, 2);
    }
    refused(Wrong::Short, start)
}

// A word that must be what is wanted.
#[tactic(auto, unfolding(wording::specs::Take::take_word))]
pub fn take(bytes: &mut [u8], line: Line, w: Word, want: Want) -> Result<Line, Fault>
    ensures { take.Takes (take.take_word want line w bytes.old) result bytes.new }
{
    let found = wording::number_of(w.digits);
    match want {
        Want::First => take_verb(line, wording::verb_of(w.letters), w.start),
        Want::Size => take_number(line, found, w.start, wording::SHORT + 1, Wrong::Size),
        Want::Short => take_number(line, found, w.start, wording::SHORT, Wrong::Short),
        Want::Number => take_number(line, found, w.start, wording::MANY, Wrong::Number),
        Want::Area => take_area(line, wording::area_of(w.letters), w.start),
        Want::Place => take_place(line, found, w.start, wording::size_of(line.area)),
        Want::Bytes => take_bytes(bytes, line, w.piece, w.start),
        Want::Value => take_value(bytes, line, found, w.start),
        Want::Text | Want::End => refused(Wrong::End, w.start),
    }
}
