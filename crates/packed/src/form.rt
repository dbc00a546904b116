// A frame's form as the record has it: how many bytes its addresses are short of six, and above them the address location. docs/record.md, bytes 27
// and 240. It takes every number, and reads one that is no form's as a form all the same.
ghost use Rattle.std.specs.Prelude.{◌≡◌, ◌≤◌, ◌<◌, ◌^◌, leb, ltb};
ghost use Rattle.scb.specs.Words.{one};
ghost use Rattle.device.specs.Header as rule;
ghost use Rattle.device.specs.declared.Form.{Form};
ghost use Rattle.phases.specs.Forms.{form_number, form_of, form_shaped};

// The most bytes that an address has, and those of a type.
const LONGEST_ADDRESS: u64 = 6;

const TYPE: u64 = 2;

// No header is longer.
const LONGEST_HEADER: u64 = 2 * LONGEST_ADDRESS + TYPE;

// The number of bytes that an address is short of that has three bits; above them stands the location.
const LACKS: u64 = 1 << 3;

const LOCATION: u64 = 1 << 3;

const FORMS: u64 = 1 << 4;

// The address length.
#[tactic(auto, unfolding(phases::specs::Forms::form_of))]
pub fn length(form: u64) -> u64
    ensures { (result ≡ (form_of form).length) × (result ≤ 6) }
{
    LONGEST_ADDRESS.saturating_sub(form % LACKS)
}

// Whether the address location is 1.
#[tactic(auto, unfolding(phases::specs::Forms::form_of))]
pub fn location(form: u64) -> bool
    ensures { result ≡ (form_of form).location }
{
    form / LOCATION % 2 == 1
}

// How many bytes a header has: twice the length plus two.
pub fn header(form: u64) -> u64
    ensures { (result ≡ rule.header (form_of form).length) × (result ≤ 14) }
{
    2 * length(form) + TYPE
}

// How many of a frame's first bytes do not go through buffers: with location 0 the header, with location 1 none.
pub fn unbuffered(form: u64) -> u64
    ensures { (result ≡ rule.unbuffered (form_of form)) × (result ≤ 14) }
{
    if location(form) {
        return 0;
    }
    header(form)
}

// Whether so many bytes have the header. Most frames have the longest, and need not be asked for their form.
#[tactic(auto, using(crate::proofs::Forms::header_had))]
pub fn has_header(form: u64, size: u64) -> bool
    ensures { result ≡ leb (rule.header (form_of form).length) size }
{
    if LONGEST_HEADER <= size {
        return true;
    }
    header(form) <= size
}

// Whether they have all that does not go through buffers.
pub fn has_unbuffered(form: u64, size: u64) -> bool
    ensures { result ≡ leb (rule.unbuffered (form_of form)) size }
{
    if has_header(form, size) {
        return true;
    }
    location(form)
}

// Whether they have more than that.
#[tactic(auto, using(crate::proofs::Forms::data_had))]
pub fn has_data(form: u64, size: u64) -> bool
    ensures { result ≡ ltb (rule.unbuffered (form_of form)) size }
{
    if LONGEST_HEADER < size {
        return true;
    }
    unbuffered(form) < size
}

// Whether a number is a form's: there is nothing above its four bits, and no length is seven short of six. One test asks both.
#[tactic(auto, using(crate::proofs::Forms::shaped))]
pub fn is_form(form: u64) -> bool
    ensures { result ≡ form_shaped form }
{
    form / FORMS * FORMS + form % LACKS <= LONGEST_ADDRESS
}

// The form of an address length and a location, as Configure has them.
#[tactic(auto, unfolding(phases::specs::Forms::form_number))]
pub fn of(length: u64, location: u64) -> u64
    requires { (length ≤ 6) × (location < 2) }
    ensures { (result < 2 ^ 4) × ((f : Form) → length ≡ f.length → location ≡ one f.location → result ≡ form_number f) }
{
    LONGEST_ADDRESS - length + LOCATION * location
}
