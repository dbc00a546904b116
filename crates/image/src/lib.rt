// The 256 bytes of the device record: which bytes are the image of a state in range, the numbers of that state, and writing them back.
// Where everything stands is `packed`'s to say. `is_image` takes 256 bytes, the others a slice of every length.

#![tactic(auto)]

ghost use Rattle.std.specs.Prelude.{cond, ◌≡◌, leb};
ghost use Rattle.device.specs.State as device;
ghost use Rattle.numerals.specs.Places.{field};
ghost use Rattle.phases.specs.Fields.{kind_in, size_in, offset_most};
ghost use Rattle.phases.specs.Forms.{kind_shaped};
ghost use Rattle.packed.specs.Record.{letters_at, status_at, cu_at, ru_at, rest_at};
ghost use Rattle.image.specs.Image as image;
ghost use Rattle.image.specs.Numbers as numbers;

use packed::{Packed, cu, form, record, ru, setup};

// After reset the own address is all FFh, and the minimum length is 64.
const ONES: u64 = 0xFFFFFFFFFFFF;

const MINIMUM: u8 = 64;

// The most bytes of a frame, and how many descriptors a walk that goes on may have used.
const LONGEST: u64 = 2048;

const LAST: u64 = 63;

// A Transmit is never Acting. A verdict is below 3.
const TRANSMIT: u64 = 4;

const VERDICTS: u64 = 3;

// ---- a unit's word. What the form decides is asked last, and most words settle it without their form

// 2,048 bytes at most.
fn is_within(n: u64) -> bool
    ensures { result ≡ leb (size_in n) 2048 }
{
    packed::size_of(n) <= LONGEST
}

// A walk goes on: fewer than 64 descriptors are used, and there is a next one.
fn has_next(n: u64, used: u64) -> bool
    ensures { result ≡ numbers.has_next_in n used }
{
    (used <= LAST) & !memory::is_none(packed::next_of(n))
}

// The largest word of a phase that has an offset alone, or nothing.
fn offset_most(none: bool) -> u64
    ensures { result ≡ cond none 0 offset_most }
{
    if none { 0 } else { packed::OFFSET_MOST }
}

// ---- the command unit

// A command whose end is next: its number, which is no Transmit's, and nothing above it.
#[tactic(auto, unfolding(crate::specs::Numbers::acting_is))]
fn acting_is(n: u64) -> bool
    ensures { result ≡ numbers.acting_is n }
{
    (n <= cu::ACTING_MOST)
        & (packed::flags_of(n) < cu::BEGUN_FLAGS)
        & (packed::kind_of(n) != TRANSMIT)
}

// A Transmit has in the outgoing area what the buffers do not bring, by the form in force.
#[tactic(auto, unfolding(crate::specs::Numbers::sending_is))]
fn sending_is(f: u64, n: u64) -> bool
    ensures { result ≡ numbers.sending_is f n }
{
    if (packed::flags_of(n) < cu::BEGUN_FLAGS) & has_next(n, packed::kind_of(n)) & is_within(n) {
        return form::has_unbuffered(f, packed::size_of(n));
    }
    false
}

// A Transmit whose end is next, with no descriptor counted or next: the outgoing area has what it had at its descriptors at least.
#[tactic(auto, unfolding(crate::specs::Numbers::ending_is))]
fn ending_is(f: u64, n: u64) -> bool
    ensures { result ≡ numbers.ending_is f n }
{
    if (n <= packed::SIZED_MOST)
        & (packed::flags_of(n) < cu::BEGUN_FLAGS)
        & (packed::kind_of(n) == 0)
        & is_within(n)
    {
        return form::has_unbuffered(f, packed::size_of(n));
    }
    false
}

// A command that is begun: what its phase does not use is zero.
#[tactic(auto, unfolding(crate::specs::Numbers::begun_is))]
fn begun_is(f: u64, tag: u64, n: u64) -> bool
    ensures { result ≡ numbers.begun_is f tag n }
{
    match tag {
        cu::ACTING => acting_is(n),
        cu::SENDING => sending_is(f, n),
        cu::ENDING => ending_is(f, n),
        cu::FAILING => n <= cu::BEGUN_MOST,
        _ => false,
    }
}

// Whether a tag and a word are those of a command unit in range: most records have an offset alone, or nothing.
#[tactic(auto, using(crate::proofs::Units::cu_low, crate::proofs::Units::cu_begun))]
fn cu_is(f: u64, tag: u64, n: u64) -> bool
    ensures { result ≡ numbers.cu_is f tag n }
{
    if tag < cu::ACTING {
        return n <= offset_most(tag == cu::IDLE);
    }
    begun_is(f, tag, n)
}

// ---- the receive unit

// The number of a verdict and a form. Of the form after reset it is the verdict alone.
#[tactic(auto, using(crate::proofs::Order::verdict_alone), unfolding(phases::specs::Forms::kind_shaped))]
fn kind_is(n: u64) -> bool
    ensures { result ≡ kind_shaped (kind_in n) }
{
    if packed::kind_of(n) < VERDICTS {
        return true;
    }
    (ru::verdict(n) < VERDICTS) & form::is_form(ru::form(n))
}

// A frame's word: it has its header, by its own form; a bad frame is held only to be saved.
#[tactic(auto, unfolding(crate::specs::Numbers::frame_is))]
fn frame_is(n: u64, most: u64) -> bool
    ensures { result ≡ numbers.frame_is n most }
{
    if kind_is(n) {
        if (packed::flags_of(n) < most)
            & is_within(n)
            & (ru::save_bad(n) | (!ru::short(n) & (ru::verdict(n) == ru::GOOD)))
        {
            return form::has_header(ru::form(n), packed::size_of(n));
        }
    }
    false
}

// It has data for the buffers.
fn has_data(n: u64) -> bool
    ensures { result ≡ numbers.has_data_in n }
{
    form::has_data(ru::form(n), packed::size_of(n))
}

// A frame is held: it waits for its descriptor, and nothing of it is stored.
#[tactic(auto, unfolding(crate::specs::Numbers::held_is))]
fn held_is(n: u64, rest: u64) -> bool
    ensures { result ≡ numbers.held_is n rest }
{
    if (n <= packed::SIZED_MOST) & (rest == 0) {
        return frame_is(n, ru::HELD_FLAGS);
    }
    false
}

// What is being filled has data left.
#[tactic(auto, unfolding(crate::specs::Numbers::filling_is))]
fn filling_is(n: u64, rest: u64) -> bool
    ensures { result ≡ numbers.filling_is n rest }
{
    if frame_is(n, ru::STORING_FLAGS) {
        if (rest <= ru::FILLED_MOST)
            & has_next(n, ru::above_filled(rest))
            & (ru::filled(rest) < packed::size_of(n))
        {
            return form::has_unbuffered(ru::form(n), ru::filled(rest));
        }
    }
    false
}

// All is stored. Only a frame that has data filled a buffer, which may have had EL.
#[tactic(auto, unfolding(crate::specs::Numbers::closing_is))]
fn closing_is(n: u64, rest: u64) -> bool
    ensures { result ≡ numbers.closing_is n rest }
{
    if rest == 0 {
        if frame_is(n, ru::CLOSING_FLAGS) {
            return has_data(n) | !ru::full(n);
        }
    }
    false
}

// Buffers were lacking: the frame has data, and no offset is next.
#[tactic(auto, unfolding(crate::specs::Numbers::lacking_is))]
fn lacking_is(n: u64, rest: u64) -> bool
    ensures { result ≡ numbers.lacking_is n rest }
{
    if (n <= packed::SIZED_MOST) & (rest == 0) {
        if frame_is(n, ru::STORING_FLAGS) {
            return has_data(n);
        }
    }
    false
}

// A unit that holds a frame, by its tag.
#[tactic(auto, unfolding(crate::specs::Numbers::holding_is))]
fn holding_is(tag: u64, n: u64, rest: u64) -> bool
    ensures { result ≡ numbers.holding_is tag n rest }
{
    match tag {
        ru::HELD => held_is(n, rest),
        ru::FILLING => filling_is(n, rest),
        ru::CLOSING => closing_is(n, rest),
        ru::LACKING => lacking_is(n, rest),
        _ => false,
    }
}

// Whether a tag and two words are those of a receive unit in range: with no frame held, an offset alone, or nothing.
#[tactic(auto, using(crate::proofs::Units::ru_offset, crate::proofs::Units::ru_none, crate::proofs::Units::ru_holding))]
fn ru_is(tag: u64, n: u64, rest: u64) -> bool
    ensures { result ≡ numbers.ru_is tag n rest }
{
    if tag < ru::HELD {
        if ru::has_offset(tag) {
            return packed::above_offset(n) | rest == 0;
        }
        return n | rest == 0;
    }
    holding_is(tag, n, rest)
}

// ---- reading a record: each word by a function of its own, so that it becomes one load

// The letters and the version, and above them three bytes of the status.
fn front_at(r: &[u8; record::SIZE]) -> u64
    ensures { result ≡ field r.now letters_at 8 }
{
    numerals::read::<8>(r, record::LETTERS)
}

// The status.
fn status_at(r: &[u8; record::SIZE]) -> u64
    ensures { result ≡ field r.now status_at 8 }
{
    numerals::read::<8>(r, record::STATUS)
}

// The command unit's word.
fn cu_at(r: &[u8; record::SIZE]) -> u64
    ensures { result ≡ field r.now cu_at 8 }
{
    numerals::read::<8>(r, record::CU)
}

// The receive unit's first word.
fn ru_at(r: &[u8; record::SIZE]) -> u64
    ensures { result ≡ field r.now ru_at 8 }
{
    numerals::read::<8>(r, record::RU)
}

// The receive unit's second word.
fn rest_at(r: &[u8; record::SIZE]) -> u64
    ensures { result ≡ field r.now rest_at 8 }
{
    numerals::read::<8>(r, record::REST)
}

// The four numbers of a record.
#[tactic(auto, unfolding(crate::specs::Image::packed_at))]
fn packed_at(r: &[u8; record::SIZE]) -> Packed
    ensures { result ≡ image.packed_at r.now }
{
    Packed {
        status: status_at(r),
        cu: cu_at(r),
        ru: ru_at(r),
        rest: rest_at(r),
    }
}

// The form in force.
#[tactic(auto, using(numerals::proofs::Laws::one))]
fn form_at(r: &[u8; record::SIZE]) -> u64
    ensures { result ≡ numbers.form_is r.now }
{
    setup::form_of(r[record::SETTINGS])
}

// Whether the letters are BGT and the version is 1.
fn front_is(n: u64) -> bool
    ensures { result ≡ image.front_is n }
{
    n % record::FRONT_END == record::FRONT
}

// Whether the front and the four numbers are those of a state in range, by the form in force.
#[tactic(auto, unfolding(crate::specs::Numbers::words_are))]
fn words_are(front: u64, f: u64, k: Packed) -> bool
    ensures { result ≡ numbers.words_are front f k }
{
    if front_is(front) & packed::status_is(k.status) {
        if cu_is(f, packed::cu_tag(k), k.cu) {
            return ru_is(packed::ru_tag(k), k.ru, k.rest);
        }
    }
    false
}

// Whether the spare bytes are zero. Of the three in the gap the last goes by itself: as one number the three take two or three instructions more
// at a call.
fn spare_zero(r: &[u8; record::SIZE]) -> bool
    ensures { result ≡ image.spare_zero r.now }
{
    (numerals::read::<2>(r, record::GAP) == 0)
        & (numerals::read::<1>(r, record::GAP + 2) == 0)
        & numerals::is_zero(r, record::SPARE, record::SPARE_WORDS)
}

// Whether status and setup are those after reset.
#[tactic(auto, using(numerals::proofs::Laws::one), unfolding(crate::specs::Numbers::fresh_at))]
fn is_fresh(r: &[u8; record::SIZE]) -> bool
    ensures { result ≡ numbers.fresh_at r.now }
{
    (status_at(r) == 0)
        & (r[record::SETTINGS] == 0)
        & (r[record::MINIMUM] == MINIMUM)
        & (numerals::read::<6>(r, record::OWN) == ONES)
        & (numerals::read::<8>(r, record::FILTER) == 0)
}

// Whether a record of 256 bytes is the image of a state in range. Before the first attention there is one such state.
pub fn is_image(r: &[u8; record::SIZE]) -> bool
    ensures { result ≡ image.imaged r.now }
{
    let k = packed_at(r);
    let f = form_at(r);
    if words_are(front_at(r), f, k) {
        if spare_zero(r) & form::is_form(f) {
            if packed::initialised(k) {
                return true;
            }
            return is_fresh(r);
        }
    }
    false
}

// The units' state of a record that is the image of a state in range; any other record, of whatever length, is foreign and has none.
#[tactic(auto, using(crate::proofs::Tests::decoded_units, crate::proofs::Tests::decoded_foreign, crate::proofs::Tests::decoded_other))]
pub fn decode(r: &[u8]) -> Option<Packed>
    ensures { result ≡ image.decoded_by (image.decode_of r.now) }
{
    let kept = r.as_array::<{ record::SIZE }>()?;
    if is_image(kept) {
        return Some(packed_at(kept));
    }
    None
}

// ---- writing a record

// The units' state goes to a record, and no other byte changes; a record of another length stays as it is.
#[tactic(auto, using(crate::proofs::Steps::units_stored, crate::proofs::Steps::units_other))]
pub fn store(r: &mut [u8], k: Packed)
    ensures { r.new ≡ image.stored_units r.old k }
{
    let Some(kept) = r.as_mut_array::<{ record::SIZE }>() else {
        return;
    };
    numerals::put::<8>(kept, record::STATUS, k.status);
    numerals::put::<8>(kept, record::CU, k.cu);
    numerals::put::<8>(kept, record::RU, k.ru);
    numerals::put::<8>(kept, record::REST, k.rest);
}

// The image of the fresh state, over a whole record.
#[tactic(auto, using(crate::proofs::Steps::fresh_stores))]
fn renew_full(r: &mut [u8; record::SIZE])
    ensures { r.new ≡ image.image_of device.fresh }
{
    numerals::clear(r, 0, record::SIZE);
    numerals::put::<3>(r, record::LETTERS, record::BGT);
    numerals::put::<2>(r, record::VERSION, record::VERSION_1);
    r[record::MINIMUM] = MINIMUM;
    numerals::put::<6>(r, record::OWN, ONES);
}

// The image of the fresh state goes to a record, whatever stood there; one of another length stays as it is.
#[tactic(auto, using(crate::proofs::Steps::stored_image, crate::proofs::Steps::stored_other))]
pub fn renew(r: &mut [u8])
    ensures { r.new ≡ image.stored r.old device.fresh }
{
    let Some(kept) = r.as_mut_array::<{ record::SIZE }>() else {
        return;
    };
    renew_full(kept);
}
