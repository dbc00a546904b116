// What the replay program says of a bad line (docs/replay.md, "Bad input"): where it went wrong and what was expected, put on a page as texts
// puts its texts.

#![tactic(auto)]

ghost use Rattle.std.specs.Prelude.{◌≡◌};
ghost use Rattle.texts.specs.Page.{Prints};
ghost use Rattle.faults.specs.Faults as faults;

use texts::Page;
use wording::{Fault, Wrong};

// What was expected, in words.
#[tactic(auto, unfolding(crate::specs::Faults::expected_text))]
fn expected(what: Wrong) -> &'static [u8]
    ensures { result.now ≡ faults.expected_text what }
{
    match what {
        Wrong::First => b"a line's first word",
        Wrong::Number => b"a number",
        Wrong::Size => b"a number up to 65536",
        Wrong::Short => b"a number up to 65535",
        Wrong::Area => b"an area",
        Wrong::Place => b"a place in the area",
        Wrong::Bytes => b"bytes",
        Wrong::Room => b"room in the area",
        Wrong::End => b"the end of the line",
    }
}

// The line of a fault.
pub fn put_fault(page: &mut Page<'_>, line: u64, fault: Fault)
    ensures { Prints (faults.fault_text line fault) page.old page.new }
{
    page.put_text(b"line ");
    page.put_decimal(line);
    page.put_text(b", column ");
    page.put_decimal(fault.column as u64);
    page.put_text(b": expected ");
    page.put_text(expected(fault.wrong));
    page.put_byte(b'\n');
}
