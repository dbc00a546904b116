// What one line does: which call it makes and how often, what the host writes, what is shown and said; and the texts that it prints are put
// on a page. docs/replay.md has the forms. The calls themselves are made in the room `calling`. It takes every line, every board and slices
// of every length.

#![tactic(auto)]

ghost use Rattle.std.specs.Prelude.{◌≡◌};
ghost use Rattle.texts.specs.Page.{Prints};
ghost use Rattle.scene.specs.Scene.{Plays, Writes};
ghost use Rattle.scene.specs.Scene as scene;

use board::{Areas, Asked, Board};
use texts::{Item, Page};
use wording::{Area, Line, Verb};

// The board, the areas that its calls are lent, and the page.
#[derive(Drop)]
pub struct Scene<'a> {
    pub board: Board,
    pub areas: Areas<'a>,
    pub page: Page<'a>,
}

// ---- calls

// How many turns a line asks for, each for itself or as a run: one, if it does not say.
fn turn_count(line: Line) -> u16
    ensures { result ≡ scene.turn_count line }
{
    if line.taken == 0 {
        return 1;
    }
    (line.first % wording::SHORT) as u16
}

// How often a line makes its call: once, or so many turns.
pub fn times(verb: Verb, line: Line) -> u16
    ensures { result ≡ scene.times_by verb line }
{
    match verb {
        Verb::Turn => turn_count(line),
        Verb::Size | Verb::Reset | Verb::Attention | Verb::Arrival | Verb::Run => 1,
        Verb::Bytes | Verb::Words | Verb::Show | Verb::Look => 1,
        Verb::Interrupt | Verb::Record | Verb::Say => 1,
    }
}

// The call that a line makes, with the numbers that the line has for it; none if the line is the host's alone.
pub fn asked(verb: Verb, line: Line) -> Option<Asked>
    ensures { result ≡ scene.asked_by verb line }
{
    let verdict = (line.first % wording::MANY) as u32;
    let report = (line.second % wording::SHORT) as u16;
    let budget = turn_count(line);
    match verb {
        Verb::Reset => Some(Asked::Reset),
        Verb::Attention => Some(Asked::Attention),
        Verb::Arrival => Some(Asked::Arrival { verdict }),
        Verb::Turn => Some(Asked::Turn { report }),
        Verb::Run => Some(Asked::Run { report, budget }),
        Verb::Size | Verb::Bytes | Verb::Words => None,
        Verb::Show | Verb::Look | Verb::Interrupt | Verb::Record | Verb::Say => None,
    }
}

// ---- what is the host's alone

// The area that a line names.
fn named<'a>(areas: &'a Areas<'_>, area: Area) -> &'a [u8]
    ensures { result.now ≡ scene.named area (scene.areas_in areas.now) }
{
    match area {
        Area::Memory => areas.memory,
        Area::Holding => areas.holding,
        Area::Outgoing => areas.outgoing,
    }
}

// The host writes. It chooses for itself: a loan to write out of the three would have to say what each is when it is given back.
#[tactic(auto, unfolding(crate::specs::Scene::areas_by))]
fn write(areas: &mut Areas<'_>, area: Area, place: usize, own: &[u8])
    ensures { Writes area place own.now areas.old areas.new }
{
    match area {
        Area::Memory => memory::put_run(areas.memory, place, own),
        Area::Holding => memory::put_run(areas.holding, place, own),
        Area::Outgoing => memory::put_run(areas.outgoing, place, own),
    }
}

// The record's 256 bytes.
#[tactic(auto, unfolding(crate::specs::Scene::record_text))]
fn put_record(page: &mut Page<'_>, b: Board)
    ensures { Prints (scene.record_text b) page.old page.new }
{
    page.put_stretch(Item::Byte, &b.kept.bytes, 0, b.kept.bytes.len() as u32);
}

// A text, and the line's end.
fn put_said(page: &mut Page<'_>, own: &[u8])
    ensures { Prints (scene.say_text own.now) page.old page.new }
{
    page.put_text(own);
    page.put_byte(b'\n');
}

impl Scene<'_> {
    // A stretch of the area that a line names.
    fn show(&mut self, item: Item, line: Line)
        ensures { Plays (scene.showed item line) self.old self.new }
    {
        let place = (line.first % wording::MANY) as u32;
        let count = (line.second % wording::MANY) as u32;
        let area = named(&self.areas, line.area);
        self.page.put_stretch(item, area, place, count);
    }

    // A line that makes no call; own: the bytes or the text that it brought.
    pub fn host(&mut self, verb: Verb, line: Line, own: &[u8])
        ensures { Plays (scene.hosted verb line own.now) self.old self.new }
    {
        match verb {
            Verb::Size => self.board.size = line.first as usize,
            Verb::Bytes | Verb::Words => {
                write(&mut self.areas, line.area, line.first as usize, own);
            }
            Verb::Show => self.show(Item::Byte, line),
            Verb::Look => self.show(Item::Word, line),
            Verb::Interrupt => self.page.put_interrupt(board::interrupt(self.board)),
            Verb::Record => put_record(&mut self.page, self.board),
            Verb::Say => put_said(&mut self.page, own),
            Verb::Reset | Verb::Attention | Verb::Arrival | Verb::Turn | Verb::Run => {}
        }
    }
}
