// What the replay program prints (docs/replay.md), as text: numbers, answers and stretches of memory, put one behind the other on a page. Nothing
// goes through Display: every byte is proved, into fixed memory.

#![tactic(auto)]

ghost use Rattle.std.specs.Prelude.{◌≡◌, [], ◌∷◌, ◌++◌, ◌+◌, ◌%◌, get_or};
ghost use Rattle.texts.specs.Codes.{codes};
ghost use Rattle.texts.specs.Page.{Prints};
ghost use Rattle.texts.specs.Texts as texts;
ghost use Rattle.texts.specs.Items as items;

// The slice that texts are put into, and where the next one goes. What would pass the slice's end goes nowhere, and the place stays at the end.
#[derive(Drop)]
pub struct Page<'a> {
    pub out: &'a mut [u8],
    pub at: usize,
}

// What the parts of a line of memory are: bytes, or words, low byte first.
#[derive(Clone, Copy)]
pub enum Item {
    Byte,
    Word,
}

// ---- answers

// The numbers of the reasons: an answer of C's is one number, and its reason one in it.
const TOO_FEW: u64 = 1;

const NO_MATCH: u64 = 2;

const IDLE: u64 = 3;

const SUSPENDED: u64 = 4;

const BAD: u64 = 5;

// Why a frame was dropped, by the reason's number, in a word behind others; nothing if it was not.
#[tactic(auto, unfolding(crate::specs::Texts::reason_text))]
fn reason_word(reason: u64) -> &'static [u8]
    ensures { result.now ≡ texts.reason_text reason }
{
    match reason {
        TOO_FEW => b" too-few",
        NO_MATCH => b" no-match",
        IDLE => b" idle",
        SUSPENDED => b" suspended",
        BAD => b" bad",
        _ => b"",
    }
}

// What the length, the edge, the reason and the turns count in an answer; the 16 bits that a number has there, and the 8 of a reason.
const LENGTH: u64 = 1 << 16;

const EDGE: u64 = 1 << 32;

const REASON: u64 = 1 << 40;

const TURN: u64 = 1 << 48;

const NUMBERS: u64 = 1 << 16;

const REASONS: u64 = 1 << 8;

// ---- items

// The bytes that a line shows, at most; the places that its four digits tell apart.
const LINE: usize = 16;

const PLACES: usize = 1 << 16;

impl Item {
    // How many a line has, at most.
    fn per_line(self) -> usize
        ensures { result ≡ items.per_line self }
    {
        match self {
            Item::Byte => LINE,
            Item::Word => LINE / 2,
        }
    }
}

// The last hex digit of n.
fn hex_digit(n: u8) -> u8
    ensures { result ≡ texts.hex_digit (n % 16) }
{
    match n % 16 {
        d if d < 10 => b'0' + d,
        d => b'A' + (d - 10),
    }
}

// The byte i places behind a place; 0 beyond the area's end.
fn byte_behind(area: &[u8], place: usize, i: usize) -> u8
    ensures { result ≡ get_or area.now (place + i) 0 }
{
    area.get(place.saturating_add(i)).copied().unwrap_or(0)
}

impl Page<'_> {
    // ---- bytes and texts

    // A text.
    pub fn put_text(&mut self, text: &[u8])
        ensures { Prints text.now self.old self.new }
    {
        memory::put_run(self.out, self.at, text);
        self.at += memory::room(self.out.len(), self.at, text.len());
    }

    // A byte. Not as a text of one byte: that goes through a loop.
    pub fn put_byte(&mut self, b: u8)
        ensures { Prints (b ∷ []) self.old self.new }
    {
        if self.at < self.out.len() {
            self.out[self.at] = b;
            self.at += 1;
        }
    }

    // ---- numbers

    // Two hex digits. Written in place, as all that a line is made of is: `put_stretch` says why.
    #[inline(always)]
    pub fn put_hex2(&mut self, b: u8)
        ensures { Prints (texts.hex 2 b) self.old self.new }
    {
        self.put_byte(hex_digit(b / 16));
        self.put_byte(hex_digit(b));
    }

    // Four hex digits.
    #[inline(always)]
    pub fn put_hex4(&mut self, w: u16)
        ensures { Prints (texts.hex 4 w) self.old self.new }
    {
        let [high, low] = w.to_be_bytes();
        self.put_hex2(high);
        self.put_hex2(low);
    }

    // Decimal digits, no zero in front. It calls itself at most 19 times.
    pub fn put_decimal(&mut self, n: u64)
        ensures { Prints (texts.decimal n) self.old self.new }
    {
        if n >= 10 {
            self.put_decimal(n / 10);
        }
        self.put_byte(b'0' + (n % 10) as u8);
    }

    // ---- answers

    // A number behind others, unless it is 0.
    fn put_further(&mut self, n: u64)
        ensures { Prints (texts.further_text n) self.old self.new }
    {
        if n != 0 {
            self.put_byte(b' ');
            self.put_decimal(n);
        }
    }

    // The line of an answer, which is one number: refusal, length sent, edge, reason and the turns of a run stand in it from bits 0, 16, 32, 40
    // and 48 on. The word stands behind the numbers.
    pub fn put_answer(&mut self, answer: u64)
        ensures { Prints (texts.answer_text answer) self.old self.new }
    {
        self.put_decimal(answer % NUMBERS);
        self.put_byte(b' ');
        self.put_decimal(answer / LENGTH % NUMBERS);
        self.put_byte(b' ');
        self.put_decimal(answer / EDGE % 2);
        self.put_further(answer / TURN % NUMBERS);
        self.put_text(reason_word(answer / REASON % REASONS));
        self.put_byte(b'\n');
    }

    // The line that shows the interrupt.
    pub fn put_interrupt(&mut self, high: bool)
        ensures { Prints (texts.interrupt_text high) self.old self.new }
    {
        self.put_text(if high {
            b"interrupt high\n"
        } else {
            b"interrupt low\n"
        });
    }

    // ---- stretches

    // The item i of those from a place on, a blank before it.
    #[inline(always)]
    fn put_item(&mut self, item: Item, area: &[u8], place: usize, i: u8)
        ensures { Prints (items.item_text item area.now place i) self.old self.new }
    {
        self.put_byte(b' ');
        match item {
            Item::Byte => self.put_hex2(byte_behind(area, place, i as usize)),
            Item::Word => {
                let low = byte_behind(area, place, 2 * i as usize);
                let high = byte_behind(area, place, 2 * i as usize + 1);
                self.put_hex4(u16::from_le_bytes([low, high]));
            }
        }
    }

    // The place of a line, as four hex digits, and a colon.
    #[inline(always)]
    fn put_place(&mut self, place: usize)
        ensures { Prints (texts.hex 4 place ++ codes ":") self.old self.new }
    {
        self.put_hex4((place % PLACES) as u16);
        self.put_byte(b':');
    }

    // A line of n items, from a place on.
    #[inline(always)]
    pub fn put_line(&mut self, item: Item, area: &[u8], place: usize, n: u8)
        ensures { Prints (items.line item area.now place n) self.old self.new }
    {
        self.put_place(place);
        for i in 0..n {
            self.put_item(item, area, place, i);
        }
        self.put_byte(b'\n');
    }

    // The lines of a stretch of items. On a page of its own over the same slice, whose place the compiler keeps in a register, since all that a line
    // is made of is written in place: that of a page behind a reference it reads from memory, and writes there, at each character.
    pub fn put_stretch(&mut self, item: Item, area: &[u8], place: u32, count: u32)
        ensures { Prints (items.stretch item area.now place count) self.old self.new }
    {
        let mut page = Page {
            out: &mut *self.out,
            at: self.at,
        };
        let n = count as usize;
        let most = item.per_line();
        for k in 0..n.div_ceil(most) {
            let here = most.min(n - most * k);
            page.put_line(item, area, place as usize + LINE * k, here as u8);
        }
        self.at = page.at;
    }
}
