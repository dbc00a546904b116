// The actions of the commands over lent bytes: what each reads from its block, puts into the setup or into memory, and its status.
// It takes every memory and a setup's bytes; the definitions are those of the crate `actions`, in document 01's order.

#![tactic(auto)]

ghost use Rattle.std.specs.Prelude.{◌≡◌, ◌≤◌, ◌<◌, ◌^◌};
ghost use Rattle.device.specs.Limits.{longest_address};
ghost use Rattle.device.specs.Numbers.{action_of};
ghost use Rattle.device.specs.declared.Settings.{Settings};
ghost use Rattle.actions.specs.Setup.{Setup};
ghost use Rattle.actions.specs.Actions as actions;
ghost use Rattle.phases.specs.Forms.{form_number};
ghost use Rattle.packed.specs.SetUp.{settings_byte, SetIs};
ghost use Rattle.code_actions.specs.Acts as acts;

use copies::Any;
use memory::{Offset, RealAddress};
use packed::{form, setup};

// A block is lent as its memory, base and offset beside each other: a struct would be taken apart at every word that is read or written.

// The commands' own fields: the argument, and the addresses of an MC-Setup.
const ARGUMENT: u16 = 6;

const ADDRESSES: u16 = 8;

// The own address has six bytes, whatever the length in force, and no address has more. The low 14 bits of an MC-Setup's argument count bytes.
const OWN_SIZE: usize = 6;

const LONGEST_ADDRESS: u16 = 6;

const COUNT_BITS: u16 = 14;

// The bytes of a Configure that count here, by their numbers: byte count, save bad, addressing and loopback, modes, minimum length.
const COUNT: u16 = 0;

const BAD: u16 = 2;

const ADDRESSING: u16 = 3;

const MODE: u16 = 8;

const MINIMUM: u16 = 10;

// The byte count is the low 4 bits; fewer than 4 bytes are taken as 4, more than 12 as 12.
const LOW_BITS: u16 = 4;

const LEAST: u16 = 4;

const MOST: u16 = 12;

// Byte 3: so many low bits are the address length; then the bit of the address location, and the two of loopback.
const LENGTH_BITS: u16 = 3;

const LOCATION: u16 = 3;

const LOOPBACK: u16 = 6;

const OTHER_LOOPBACK: u16 = 7;

// Byte 2 of a Configure has save bad in its highest bit, byte 8 promiscuous and broadcast disabled in its lowest two.
const SAVE_BAD: u8 = 1 << 7;

const MODES: u8 = 1 << 2;

// What an action comes to besides the lent bytes: the status, the length sent.
#[derive(Clone, Copy)]
pub struct Done {
    pub status: u16,
    pub length: u16,
}

const DONE: u16 = 0xA000;

const FAILED: u16 = 0x8000;

// The word that a TDR leaves.
const TDR_WORD: u16 = 0x8000;

// The commands by their numbers, as a unit's word has them: an enum between would list them twice. 4 is a Transmit, which has no action of its own;
// 7, Diagnose, is what is left.
const NOP: u64 = 0;

const IA_SETUP: u64 = 1;

const CONFIGURE: u64 = 2;

const MC_SETUP: u64 = 3;

const TDR: u64 = 5;

const DUMP: u64 = 6;

// What the line report's bits from 9 on and from 5 on count.
const FROM_9: u16 = 1 << 9;

const FROM_5: u16 = 1 << 5;

// A status and a length.
pub fn plainly(status: u16, length: u16) -> Done
    ensures { result ≡ acts.plain status length }
{
    Done { status, length }
}

// IA-Setup: six bytes at +6 become the own address.
fn ia_setup(memory: &[u8], base: RealAddress, setup: &mut [u8; setup::SIZE], block: Offset) -> Done
    ensures { (s : Setup) → SetIs s setup.old → acts.Sets (actions.ia_setup base s block memory.now) result setup.new }
{
    copies::copy_out::<Any>(
        memory,
        memory::place(base, block, ARGUMENT),
        OWN_SIZE,
        setup,
        setup::OWN,
    );
    plainly(DONE, 0)
}

// The byte count of a Configure: the low 4 bits, below 4 taken as 4, above 12 as 12.
fn clamp(byte: u8) -> u16
    ensures { result ≡ actions.clamped byte }
{
    scb::bits_at(byte as u16, 0, LOW_BITS).clamp(LEAST, MOST)
}

// Byte 3: the address length.
fn length_in(byte: u8) -> u16
    ensures { result ≡ actions.length_in byte }
{
    scb::bits_at(byte as u16, 0, LENGTH_BITS)
}

// Whether byte 3 is taken: an address length of at most 6, no loopback.
fn is_acceptable(byte: u8) -> bool
    ensures { result ≡ actions.acceptable byte }
{
    let b = byte as u16;
    (length_in(byte) <= LONGEST_ADDRESS)
        & !scb::is_set(b, LOOPBACK)
        & !scb::is_set(b, OTHER_LOOPBACK)
}

// The form that it says.
#[tactic(auto, using(crate::proofs::Laws::bit_below, crate::proofs::Laws::bit_number))]
fn form_in(byte: u8) -> u8
    requires { actions.length_in byte ≤ longest_address }
    ensures { (result < 2 ^ 4) × (result ≡ form_number (actions.form_in byte)) }
{
    let location = scb::bits_at(byte as u16, LOCATION, 1);
    form::of(length_in(byte) as u64, location as u64) as u8
}

// Byte k of a Configure: its byte 0 is at +6.
fn byte_of(memory: &[u8], base: RealAddress, block: Offset, k: u16) -> u8
    requires { k < 12 }
    ensures { result ≡ actions.byte_of base block memory.now k }
{
    memory::byte_at(memory, memory::place(base, block, ARGUMENT + k))
}

// The settings byte after a Configure: save bad is bit 7 of byte 2; the modes are bits 0 and 1 of byte 8 if that is taken, else what was kept; the
// form is byte 3's.
#[tactic(auto, using(crate::proofs::Laws::settings_taken))]
fn settings_by(
    memory: &[u8],
    base: RealAddress,
    block: Offset,
    count: u16,
    form: u8,
    kept: u8,
) -> u8
    requires { form < 2 ^ 4 }
    ensures { (s : Settings) → form ≡ form_number (actions.form_in (actions.byte_of base block memory.now 3)) → kept ≡ settings_byte s
        → result ≡ settings_byte (actions.settings_by count (actions.byte_of base block memory.now) s) }
{
    let save = byte_of(memory, base, block, BAD) / SAVE_BAD;
    if MODE < count {
        return setup::settings(save, byte_of(memory, base, block, MODE) % MODES, form);
    }
    setup::settings(save, setup::modes(kept), form)
}

// The minimum length after a Configure: byte 10 if that is taken, else what was kept.
#[tactic(auto, unfolding(actions::specs::Actions::settings_by))]
fn minimum_by(memory: &[u8], base: RealAddress, block: Offset, count: u16, kept: u8) -> u8
    ensures { (s : Settings) → kept ≡ s.minimum → result ≡ (actions.settings_by count (actions.byte_of base block memory.now) s).minimum }
{
    if MINIMUM < count {
        return byte_of(memory, base, block, MINIMUM);
    }
    kept
}

// Configure: 8000h and nothing changed, if byte 3 is not acceptable.
fn configure(memory: &[u8], base: RealAddress, setup: &mut [u8; setup::SIZE], block: Offset) -> Done
    ensures { (s : Setup) → SetIs s setup.old → acts.Sets (actions.configure base s block memory.now) result setup.new }
{
    let addressing = byte_of(memory, base, block, ADDRESSING);
    if is_acceptable(addressing) {
        let count = clamp(byte_of(memory, base, block, COUNT));
        let form = form_in(addressing);
        setup[setup::SETTINGS] = settings_by(
            memory,
            base,
            block,
            count,
            form,
            setup[setup::SETTINGS],
        );
        setup[setup::MINIMUM] = minimum_by(memory, base, block, count, setup[setup::MINIMUM]);
        return plainly(DONE, 0);
    }
    plainly(FAILED, 0)
}

// How many bytes of addresses an MC-Setup brings: the low 14 bits at +6.
fn count_of(memory: &[u8], base: RealAddress, block: Offset) -> u16
    ensures { result ≡ actions.count_of base block memory.now }
{
    scb::bits_at(
        memory::word_at(memory, memory::place(base, block, ARGUMENT)),
        0,
        COUNT_BITS,
    )
}

// The filter of so many bytes of addresses, l bytes each: of each the bit of its hash is set. Where the count runs out inside an address, that
// remainder is ignored. Addresses of no bytes leave it empty.
fn filter_of(memory: &[u8], first: RealAddress, l: u64, count: u16) -> u64
    ensures { result ≡ actions.filtering l memory.now first.0 (actions.groups_of l count) }
{
    if l == 0 {
        return 0;
    }
    let mut filter: u64 = 0;
    // No range of addresses: how many there are would take a division, and the archive has none. i goes through the bytes of all of them.
    let mut i: u16 = 0;
    'addresses: while i < count {
        let mut register = hash::ONES;
        for _ in 0..l {
            if i == count {
                break 'addresses;
            }
            register = hash::take(register, memory::byte_behind(memory, first, i));
            i += 1;
        }
        filter |= 1 << hash::select(register);
    }
    filter
}

// MC-Setup: the filter is that of its addresses, which have the length in force, and nothing of the old one stays.
fn mc_setup(memory: &[u8], base: RealAddress, setup: &mut [u8; setup::SIZE], block: Offset) -> Done
    ensures { (s : Setup) → SetIs s setup.old → acts.Sets (actions.mc_setup base s block memory.now) result setup.new }
{
    let first = memory::place(base, block, ADDRESSES);
    let l = form::length(setup::form(setup));
    let filter = filter_of(memory, first, l, count_of(memory, base, block));
    numerals::put::<8>(setup, setup::FILTER, filter);
    plainly(DONE, 0)
}

// TDR: the word at +6 becomes 8000h.
fn tdr(memory: &mut [u8], base: RealAddress, block: Offset) -> Done
    ensures { (s : Setup) → acts.Writes (actions.tdr base s block) memory.old result memory.new }
{
    memory::put_word(memory, memory::place(base, block, ARGUMENT), TDR_WORD);
    plainly(DONE, 0)
}

// The action of a begun command, by its number. No command before its end has 4, a Transmit's.
#[tactic(auto, unfolding(actions::specs::Actions::act, device::specs::Numbers::action_of))]
pub fn act(
    memory: &mut [u8],
    base: RealAddress,
    setup: &mut [u8; setup::SIZE],
    kind: u64,
    block: Offset,
) -> Done
    ensures { acts.ActsOn (action_of kind) base block memory.old setup.old result memory.new setup.new }
{
    match kind {
        NOP => plainly(DONE, 0),
        IA_SETUP => ia_setup(memory, base, setup, block),
        CONFIGURE => configure(memory, base, setup, block),
        MC_SETUP => mc_setup(memory, base, setup, block),
        TDR => tdr(memory, base, block),
        DUMP => plainly(FAILED, 0),
        _ => plainly(DONE, 0),
    }
}

// The bits of the line report that are set in the status: 10, 9, 7, 6, 5, 3-0.
#[tactic(auto, using(scb::proofs::Fields::bits_below), unfolding(actions::specs::Actions::reported))]
fn reported(report: u16) -> u16
    ensures { (result ≡ actions.reported report) × (result < 2048) }
{
    scb::bits_at(report, 9, 2) * FROM_9
        + scb::bits_at(report, 5, 3) * FROM_5
        + scb::bits_at(report, 0, 4)
}

// Whether the line sent the frame: bits 10, 9 and 5 are clear.
#[tactic(auto, unfolding(actions::specs::Actions::is_sent))]
fn is_sent(report: u16) -> bool
    ensures { result ≡ actions.is_sent report }
{
    !(scb::is_set(report, 10) | scb::is_set(report, 9) | scb::is_set(report, 5))
}

// A whole Transmit, by the line report: C with the report's bits; OK and the length exactly if it was sent.
#[tactic(auto, unfolding(actions::specs::Actions::sent))]
pub fn send(filled: u16, report: u16) -> Done
    ensures { (s : Setup) → acts.Tells (actions.sent s filled report) result }
{
    if is_sent(report) {
        return plainly(DONE + reported(report), filled);
    }
    plainly(FAILED + reported(report), 0)
}
