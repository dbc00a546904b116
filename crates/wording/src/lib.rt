// The words of a list of calls: how a word is read, character by character, as a name, a number or a piece of bytes; and, in specs/, what a
// line's words must be and what each makes of its line. docs/replay.md has the forms. The bytes that a line brings go to a slice that is lent
// beside it; what would pass its end goes nowhere. It takes every slice, every word and every line.

#![tactic(auto)]

ghost use Rattle.std.specs.Prelude.{◌≡◌, ◌≤◌, set, replicate};
ghost use Rattle.std.proofs.lemmas.List.Edits.{sets};
ghost use Rattle.wording.specs.Chars as chars;
ghost use Rattle.wording.specs.Names as names;
ghost use Rattle.wording.specs.Spelling as words;
ghost use Rattle.wording.specs.Lines as lines;

// What a line does, by its first word.
#[derive(Clone, Copy)]
pub enum Verb {
    Size,
    Reset,
    Attention,
    Arrival,
    Turn,
    Run,
    Bytes,
    Words,
    Show,
    Look,
    Interrupt,
    Record,
    Say,
}

// The three areas that a line may name.
#[derive(Clone, Copy)]
pub enum Area {
    Memory,
    Holding,
    Outgoing,
}

// What was expected where a line went wrong.
#[derive(Clone, Copy)]
pub enum Wrong {
    First,
    Number,
    Size,
    Short,
    Area,
    Place,
    Bytes,
    Room,
    End,
}

// What the next word must be.
#[derive(Clone, Copy)]
pub enum Want {
    First,
    Size,
    Short,
    Number,
    Area,
    Place,
    Bytes,
    Value,
    Text,
    End,
}

// The digits of a word, read both ways. `any`: there are some; `decimal`, `hex`: the number that they are, as long as all of them are decimal, hex
// digits; `closed`: the number that hex digits are which have an h behind them.
#[derive(Clone, Copy)]
pub struct Digits {
    pub any: bool,
    pub decimal: Option<u64>,
    pub hex: Option<u64>,
    pub closed: Option<u64>,
}

// A piece of bytes, by what stands next, with the bytes of it that are stored, or how often a byte is repeated: a byte's first digit; its second,
// behind the first; after COUNTx the first digit; the second; nothing more, with the byte that is repeated.
#[derive(Clone, Copy)]
pub enum Piece {
    High(u32),
    Low(u32, u8),
    TimesHigh(u64),
    TimesLow(u64, u8),
    Times(u64, u8),
}

// The word that is being read: the column of its first character, its letters as one number, its digits, its piece, if it is one.
// One number and no slice: a word's letters go on from stretch to stretch, in fixed memory.
#[derive(Clone, Copy)]
pub struct Word {
    pub start: u32,
    pub letters: u64,
    pub digits: Digits,
    pub piece: Option<Piece>,
}

// What a line brought so far: its verb, if it has one, how many further words, the area, two numbers, the bytes stored, the column of the place.
// A line is read word by word, so it has what came so far.
#[derive(Clone, Copy)]
pub struct Line {
    pub verb: Option<Verb>,
    pub taken: u32,
    pub area: Area,
    pub first: u64,
    pub second: u64,
    pub filled: u32,
    pub placed: u32,
}

// What is wrong, and the column.
#[derive(Clone, Copy)]
pub struct Fault {
    pub wrong: Wrong,
    pub column: u32,
}

// Numbers are told apart up to this one; it stands for all above.
pub const MANY: u64 = 0x1_0000_0000;

// Counts, reports and words are below this one; a size may be it.
pub const SHORT: u64 = 1 << 16;

// Bytes and words of a line are counted up to this one.
const MOST: u64 = 65537;

// Columns are counted up to this one.
const FAR: u32 = 0x7FFF_FFFF;

// ---- characters

// A space or a tab.
pub fn is_blank(c: u8) -> bool
    ensures { result ≡ chars.blank c }
{
    c == b' ' || c == b'\t'
}

// What `digit` answers of a character that is no digit: as large as any base, so the test for the base's digits is the test for this.
const NO_DIGIT: u8 = 16;

// The value of a hex digit in either case; 16 for every other character.
#[tactic(auto, unfolding(crate::specs::Chars::digit))]
fn digit(c: u8) -> u8
    ensures { result ≡ chars.digit c }
{
    match c {
        b'0'..=b'9' => c - b'0',
        b'A'..=b'F' => c - b'A' + 10,
        b'a'..=b'f' => c - b'a' + 10,
        _ => NO_DIGIT,
    }
}

// The next column.
pub fn further(column: u32) -> u32
    ensures { result ≡ chars.further column }
{
    column.saturating_add(1).min(FAR)
}

// So many and n more, and not beyond MOST.
pub fn counted(sofar: u32, n: u64) -> u32
    ensures { result ≡ chars.counted sofar n }
{
    (sofar as u64).saturating_add(n).min(MOST) as u32
}

// ---- a word's letters

// A word that has other characters than small letters, or too many. It has no room for a letter, so the test for room keeps it.
const NO_WORD: u64 = 0x1000_0000_0000_0000;

// Letters up to here have room for one more.
const ROOM: u64 = 0x80_0000_0000_0000;

// Each letter has five bits.
const LETTERS: u64 = 1 << 5;

// A further letter.
#[tactic(auto, unfolding(crate::specs::Names::more_letters))]
fn more_letters(letters: u64, c: u8) -> u64
    ensures { result ≡ names.more_letters letters c }
{
    match c {
        b'a'..=b'z' if letters < ROOM => letters * LETTERS + (c - b'a' + 1) as u64,
        _ => NO_WORD,
    }
}

// The number of a word, from its letters.
macro_rules! spelled {
    ($n:expr;) => { $n };
    ($n:expr; $letter:literal $($rest:literal)*) => { spelled!($n * LETTERS + ($letter - b'a' + 1) as u64; $($rest)*) };
}

const SIZE: u64 = spelled!(0; b's' b'i' b'z' b'e');

const RESET: u64 = spelled!(0; b'r' b'e' b's' b'e' b't');

const ATTENTION: u64 = spelled!(0; b'a' b't' b't' b'e' b'n' b't' b'i' b'o' b'n');

const ARRIVAL: u64 = spelled!(0; b'a' b'r' b'r' b'i' b'v' b'a' b'l');

const TURN: u64 = spelled!(0; b't' b'u' b'r' b'n');

const RUN: u64 = spelled!(0; b'r' b'u' b'n');

const BYTES: u64 = spelled!(0; b'b' b'y' b't' b'e' b's');

const WORDS: u64 = spelled!(0; b'w' b'o' b'r' b'd' b's');

const SHOW: u64 = spelled!(0; b's' b'h' b'o' b'w');

const LOOK: u64 = spelled!(0; b'l' b'o' b'o' b'k');

const INTERRUPT: u64 = spelled!(0; b'i' b'n' b't' b'e' b'r' b'r' b'u' b'p' b't');

const RECORD: u64 = spelled!(0; b'r' b'e' b'c' b'o' b'r' b'd');

const SAY: u64 = spelled!(0; b's' b'a' b'y');

const MEMORY: u64 = spelled!(0; b'm' b'e' b'm' b'o' b'r' b'y');

const HOLDING: u64 = spelled!(0; b'h' b'o' b'l' b'd' b'i' b'n' b'g');

const OUTGOING: u64 = spelled!(0; b'o' b'u' b't' b'g' b'o' b'i' b'n' b'g');

// The verb that a first word names, if it names one.
#[tactic(auto, unfolding(crate::specs::Names::verb_of))]
pub fn verb_of(letters: u64) -> Option<Verb>
    ensures { result ≡ names.verb_of letters }
{
    match letters {
        SIZE => Some(Verb::Size),
        RESET => Some(Verb::Reset),
        ATTENTION => Some(Verb::Attention),
        ARRIVAL => Some(Verb::Arrival),
        TURN => Some(Verb::Turn),
        RUN => Some(Verb::Run),
        BYTES => Some(Verb::Bytes),
        WORDS => Some(Verb::Words),
        SHOW => Some(Verb::Show),
        LOOK => Some(Verb::Look),
        INTERRUPT => Some(Verb::Interrupt),
        RECORD => Some(Verb::Record),
        SAY => Some(Verb::Say),
        _ => None,
    }
}

// The area that a word names, if it names one.
#[tactic(auto, unfolding(crate::specs::Names::area_of))]
pub fn area_of(letters: u64) -> Option<Area>
    ensures { result ≡ names.area_of letters }
{
    match letters {
        MEMORY => Some(Area::Memory),
        HOLDING => Some(Area::Holding),
        OUTGOING => Some(Area::Outgoing),
        _ => None,
    }
}

const MEMORY_SIZE: u64 = 1 << 16;

const FRAME_SIZE: u64 = 2048;

// How many bytes an area has.
pub fn size_of(area: Area) -> u64
    ensures { result ≡ names.size_of area }
{
    match area {
        Area::Memory => MEMORY_SIZE,
        Area::Holding | Area::Outgoing => FRAME_SIZE,
    }
}

// ---- a word's digits

// Before a word's first character.
fn no_digits() -> Digits
    ensures { result ≡ words.no_digits }
{
    Digits {
        any: false,
        decimal: Some(0),
        hex: Some(0),
        closed: None,
    }
}

// A number with the digit d of a base behind it, and not beyond MANY, as long as all are digits of the base.
fn more_of(base: u8, n: Option<u64>, d: u8) -> Option<u64>
    requires { base ≤ 16 }
    ensures { result ≡ words.more_of base n d }
{
    let before = n?;
    if d < base {
        return Some((before.min(MANY) * base as u64 + d as u64).min(MANY));
    }
    None
}

// A further character of a number.
#[tactic(auto, unfolding(crate::specs::Spelling::more_digits))]
fn more_digits(n: Digits, c: u8) -> Digits
    ensures { result ≡ words.more_digits n c }
{
    let d = digit(c);
    Digits {
        any: true,
        decimal: more_of(10, n.decimal, d),
        hex: more_of(16, n.hex, d),
        closed: n.hex.filter(|_| n.any && c == b'h'),
    }
}

// The number that a whole word is, if it is one, and not too large to be one.
#[tactic(auto, unfolding(crate::specs::Spelling::number_of))]
pub fn number_of(n: Digits) -> Option<u64>
    ensures { result ≡ words.number_of n }
{
    n.closed
        .or(n.decimal.filter(|_| n.any))
        .filter(|n| *n < MANY)
}

// ---- a piece of bytes

// The byte of two digits.
fn joined(high: u8, low: u8) -> u8
    ensures { result ≡ words.joined high low }
{
    (high % 16) * 16 + low % 16
}

// What is no digit: the x of COUNTx, behind digits that are a COUNT. n: the digits before it.
#[tactic(auto, unfolding(crate::specs::Spelling::after_count))]
fn after_count(n: Digits, c: u8) -> Option<Piece>
    ensures { result ≡ words.after_count n c }
{
    n.decimal
        .filter(|_| n.any && c == b'x')
        .map(Piece::TimesHigh)
}

// A further character of a piece that is no digit.
fn with_other(p: Piece, n: Digits, c: u8) -> Option<Piece>
    ensures { result ≡ words.with_other p n c }
{
    match p {
        Piece::High(_) | Piece::Low(_, _) => after_count(n, c),
        Piece::TimesHigh(_) | Piece::TimesLow(_, _) | Piece::Times(_, _) => None,
    }
}

// A further digit of a piece.
fn with_digit(p: Piece, d: u8) -> Option<Piece>
    ensures { result ≡ words.with_digit p d }
{
    match p {
        Piece::High(stored) => Some(Piece::Low(stored, d)),
        Piece::Low(stored, _) => Some(Piece::High(counted(stored, 1))),
        Piece::TimesHigh(times) => Some(Piece::TimesLow(times, d)),
        Piece::TimesLow(times, high) => Some(Piece::Times(times, joined(high, d))),
        Piece::Times(_, _) => None,
    }
}

// A further character of what is a piece so far, if it is one. n: the word's digits before it.
#[tactic(auto, unfolding(crate::specs::Spelling::more_piece))]
fn more_piece(p: Option<Piece>, n: Digits, c: u8) -> Option<Piece>
    ensures { result ≡ words.more_piece p n c }
{
    let sofar = p?;
    let d = digit(c);
    if d < NO_DIGIT {
        return with_digit(sofar, d);
    }
    with_other(sofar, n, c)
}

// The byte goes to place i, if there is such a place.
pub fn put(bytes: &mut [u8], i: usize, b: u8)
    ensures { bytes.new ≡ set bytes.old i b }
{
    if i < bytes.len() {
        bytes[i] = b;
    }
}

// The byte goes to n places from i on, as far as there are such.
pub fn fill(bytes: &mut [u8], i: usize, n: usize, b: u8)
    ensures { bytes.new ≡ sets bytes.old i (replicate n b) }
{
    let end = i.saturating_add(n).min(bytes.len());
    if i < end {
        bytes[i..end].fill(b);
    }
}

// A digit of a piece that begins at place `at`: the second of a byte stores it.
fn store_digit(bytes: &mut [u8], p: Piece, at: u32, d: u8)
    ensures { bytes.new ≡ words.store_digit p at d bytes.old }
{
    match p {
        Piece::Low(stored, high) => put(bytes, at as usize + stored as usize, joined(high, d)),
        Piece::High(_) | Piece::TimesHigh(_) | Piece::TimesLow(_, _) | Piece::Times(_, _) => {}
    }
}

// What a further character of a piece stores, if it is one; the piece begins at place `at`.
#[tactic(auto, unfolding(crate::specs::Spelling::store))]
pub fn store(bytes: &mut [u8], p: Option<Piece>, at: u32, c: u8)
    ensures { bytes.new ≡ words.store p at c bytes.old }
{
    let d = digit(c);
    match p {
        Some(sofar) if d < NO_DIGIT => store_digit(bytes, sofar, at, d),
        _ => {}
    }
}

// ---- a word

// A word that begins in a column.
pub fn word_at(column: u32) -> Word
    ensures { result ≡ words.word_at column }
{
    Word {
        start: column,
        letters: 0,
        digits: no_digits(),
        piece: Some(Piece::High(0)),
    }
}

// A further character of the word.
#[tactic(auto, unfolding(crate::specs::Spelling::more_word))]
pub fn more_word(w: Word, c: u8) -> Word
    ensures { result ≡ words.more_word w c }
{
    Word {
        start: w.start,
        letters: more_letters(w.letters, c),
        digits: more_digits(w.digits, c),
        piece: more_piece(w.piece, w.digits, c),
    }
}

// ---- a line

// Before a line's first word.
pub fn no_line() -> Line
    ensures { result ≡ lines.no_line }
{
    Line {
        verb: None,
        taken: 0,
        area: Area::Memory,
        first: 0,
        second: 0,
        filled: 0,
        placed: 0,
    }
}

// What is wrong, and in which column.
pub fn fault_at(wrong: Wrong, column: u32) -> Fault
    ensures { result ≡ lines.fault_at wrong column }
{
    Fault { wrong, column }
}
