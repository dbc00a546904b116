// Reads a list of calls, character by character, and says what each line asks for. docs/replay.md has the forms.
// A line is read by an automaton, so a stretch of input behind a stretch is read as both at once. The bytes that a line brings, or its text, go
// to a slice that is lent beside it; what would pass its end goes nowhere. It takes every slice and every reader.

#![tactic(auto)]

ghost use Rattle.std.specs.Prelude.{◌≡◌};
ghost use Rattle.lines.specs.Reader as reader;

use wording::{Fault, Line, Want, Word, Wrong};

// Where in a line a character stands; in a word, the word that is being read.
#[derive(Clone, Copy)]
pub enum Part {
    Between,
    Word(Word),
    Text,
    Comment,
}

// The reader: where it stands, the column of the next character, the column behind the last word, the line, and what is wrong with it, if
// something is. By value, so that each step is one expression, as in specs/Reader; the bytes change in place, since a line may bring 65,536.
#[derive(Clone, Copy)]
pub struct Reader {
    pub part: Part,
    pub column: u32,
    pub behind: u32,
    pub line: Line,
    pub fault: Option<Fault>,
}

// ---- the reader

// Before the first character of a line.
#[tactic(auto, unfolding(crate::specs::Reader::start))]
pub fn start() -> Reader
    ensures { result ≡ reader.start }
{
    Reader {
        part: Part::Between,
        column: 1,
        behind: 1,
        line: wording::no_line(),
        fault: None,
    }
}

// Whether a reader has found nothing wrong.
#[tactic(auto, unfolding(crate::specs::Reader::is_right))]
pub fn is_right(r: Reader) -> bool
    ensures { result ≡ reader.is_right r }
{
    r.fault.is_none()
}

// The reader behind a character that says nothing more.
#[tactic(auto, unfolding(crate::specs::Reader::past))]
fn past(r: Reader, part: Part) -> Reader
    ensures { result ≡ reader.past r part }
{
    Reader {
        part,
        column: wording::further(r.column),
        ..r
    }
}

// The reader behind a word, with what the word made of its line, or with what is wrong.
#[tactic(auto, unfolding(crate::specs::Reader::with_taken))]
fn with_taken(r: Reader, taken: Result<Line, Fault>) -> Reader
    ensures { result ≡ reader.with_taken r taken }
{
    match taken {
        Ok(line) => Reader {
            behind: r.column,
            line,
            fault: None,
            ..r
        },
        Err(fault) => Reader {
            behind: r.column,
            fault: Some(fault),
            ..r
        },
    }
}

// The word that was read is taken.
#[tactic(auto, unfolding(crate::specs::Reader::end_word))]
fn end_word(bytes: &mut [u8], r: Reader, word: Word) -> Reader
    ensures { reader.Reads (reader.end_word r word bytes.old) result bytes.new }
{
    let want = wants::wanted(r.line.verb, r.line.taken);
    with_taken(r, taking::take(bytes, r.line, word, want))
}

// A word begins, where one may stand.
#[tactic(auto, unfolding(crate::specs::Reader::begin_word))]
fn begin_word(r: Reader, c: u8) -> Reader
    ensures { result ≡ reader.begin_word r c }
{
    let word = wording::more_word(wording::word_at(r.column), c);
    past(r, Part::Word(word))
}

// A character of a line's text.
#[tactic(auto, unfolding(crate::specs::Reader::more_text, crate::specs::Reader::with_line))]
fn more_text(bytes: &mut [u8], r: Reader, c: u8) -> Reader
    ensures { reader.Reads (reader.more_text r c bytes.old) result bytes.new }
{
    wording::put(bytes, r.line.filled as usize, c);
    let line = Line {
        filled: wording::counted(r.line.filled, 1),
        ..r.line
    };
    past(Reader { line, ..r }, Part::Text)
}

// A character that is neither blank nor the start of a comment, with no word before it.
#[tactic(auto, unfolding(crate::specs::Reader::first_of, crate::specs::Reader::with_fault))]
fn first_of(bytes: &mut [u8], r: Reader, c: u8, want: Want) -> Reader
    ensures { reader.Reads (reader.first_of want r c bytes.old) result bytes.new }
{
    match want {
        Want::Text => more_text(bytes, r, c),
        Want::End => Reader {
            fault: Some(wording::fault_at(Wrong::End, r.column)),
            ..r
        },
        Want::First
        | Want::Size
        | Want::Short
        | Want::Number
        | Want::Area
        | Want::Place
        | Want::Bytes
        | Want::Value => begin_word(r, c),
    }
}

// A character outside of words.
#[tactic(auto, unfolding(crate::specs::Reader::between))]
fn between(bytes: &mut [u8], r: Reader, c: u8) -> Reader
    ensures { reader.Reads (reader.between r c bytes.old) result bytes.new }
{
    if wording::is_blank(c) {
        return past(r, Part::Between);
    }
    if c == b'#' {
        return past(r, Part::Comment);
    }
    first_of(bytes, r, c, wants::wanted(r.line.verb, r.line.taken))
}

// A further character of a word.
#[tactic(auto, unfolding(crate::specs::Reader::further_of))]
fn further_of(bytes: &mut [u8], r: Reader, word: Word, c: u8) -> Reader
    ensures { reader.Reads (reader.further_of r word c bytes.old) result bytes.new }
{
    wording::store(bytes, word.piece, r.line.filled, c);
    past(r, Part::Word(wording::more_word(word, c)))
}

// The word that was read is taken, and the reader goes past what ended it.
#[tactic(auto, unfolding(crate::specs::Reader::past_word))]
fn past_word(bytes: &mut [u8], r: Reader, word: Word, part: Part) -> Reader
    ensures { reader.Reads (reader.past_word r word part bytes.old) result bytes.new }
{
    past(end_word(bytes, r, word), part)
}

// A character behind a word's first.
#[tactic(auto, unfolding(crate::specs::Reader::in_word))]
fn in_word(bytes: &mut [u8], r: Reader, word: Word, c: u8) -> Reader
    ensures { reader.Reads (reader.in_word r word c bytes.old) result bytes.new }
{
    if wording::is_blank(c) {
        return past_word(bytes, r, word, Part::Between);
    }
    if c == b'#' {
        return past_word(bytes, r, word, Part::Comment);
    }
    further_of(bytes, r, word, c)
}

// A character of a text.
#[tactic(auto, unfolding(crate::specs::Reader::in_text))]
fn in_text(bytes: &mut [u8], r: Reader, c: u8) -> Reader
    ensures { reader.Reads (reader.in_text r c bytes.old) result bytes.new }
{
    if c == b'#' {
        return past(r, Part::Comment);
    }
    more_text(bytes, r, c)
}

// A character, by where it stands.
#[tactic(auto, unfolding(crate::specs::Reader::read_in))]
fn read_in(bytes: &mut [u8], r: Reader, c: u8, part: Part) -> Reader
    ensures { reader.Reads (reader.read_in part r c bytes.old) result bytes.new }
{
    match part {
        Part::Between => between(bytes, r, c),
        Part::Word(word) => in_word(bytes, r, word, c),
        Part::Text => in_text(bytes, r, c),
        Part::Comment => past(r, Part::Comment),
    }
}

// A character that ends no line. Once something is wrong nothing more is read, so the first wrong thing is told.
#[tactic(auto, unfolding(crate::specs::Reader::read))]
pub fn read(bytes: &mut [u8], r: Reader, c: u8) -> Reader
    ensures { reader.Reads (reader.read r c bytes.old) result bytes.new }
{
    if is_right(r) {
        return read_in(bytes, r, c, r.part);
    }
    r
}

// The last word, if the line ends with one, is taken.
#[tactic(auto, unfolding(crate::specs::Reader::last_word))]
fn last_word(bytes: &mut [u8], r: Reader, part: Part) -> Reader
    ensures { reader.Reads (reader.last_word part r bytes.old) result bytes.new }
{
    match part {
        Part::Word(word) => end_word(bytes, r, word),
        Part::Between | Part::Text | Part::Comment => r,
    }
}

// The line is judged, if its words are right.
#[tactic(auto, unfolding(crate::specs::Reader::judge, crate::specs::Reader::with_fault))]
fn judge(r: Reader) -> Reader
    ensures { result ≡ reader.judge r }
{
    if is_right(r) {
        let fault = wants::judged(r.line, r.behind);
        return Reader { fault, ..r };
    }
    r
}

// The line has ended: its last word is taken, and the line judged.
#[tactic(auto, unfolding(crate::specs::Reader::end))]
pub fn end(bytes: &mut [u8], r: Reader) -> Reader
    ensures { reader.Reads (reader.end r bytes.old) result bytes.new }
{
    if is_right(r) {
        return judge(last_word(bytes, r, r.part));
    }
    r
}
