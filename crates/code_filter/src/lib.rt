// Is this frame for us: the one question that an arrival asks of the settings, the own address and the filter, which are lent as the record
// keeps them. It assumes a destination of at most six bytes. filter's Match says the answer.

#![tactic(auto)]

ghost use Rattle.std.specs.Prelude.{◌≡◌, ◌≤◌, ◌<◌, List, ℕ, length, take};
ghost use Rattle.hash.specs.Hash.{hash};
ghost use Rattle.device.specs.Limits.{longest_address, filter_bits};
ghost use Rattle.filter.specs.Match as match;
ghost use Rattle.actions.specs.Setup.{Setup};
ghost use Rattle.packed.specs.SetUp.{own_at, SetIs};

use packed::setup;

// The broadcast address is all FFh.
const ONES: u8 = 0xFF;

// So many bytes of an address are compared at once: its first and its last, which lie over each other where it has fewer than both. A shorter
// address goes byte by byte: six bytes would take 4 instructions more that way, and 14 where each is FFh.
const AT_ONCE: usize = 4;

const ONES_AT_ONCE: u64 = 0xFFFFFFFF;

// Whether a destination is all FFh.
fn is_broadcast(destination: &[u8]) -> bool
    requires { length destination.now ≤ longest_address }
    ensures { result ≡ match.all_ones (length destination.now) destination.now }
{
    let l = destination.len();
    if AT_ONCE <= l {
        if numerals::read::<AT_ONCE>(destination, 0) == ONES_AT_ONCE {
            return numerals::read::<AT_ONCE>(destination, l - AT_ONCE) == ONES_AT_ONCE;
        }
        return false;
    }
    destination.iter().all(|byte| *byte == ONES)
}

// Whether it is the own address, of which so many first bytes count.
fn is_own(setup: &[u8; setup::SIZE], destination: &[u8]) -> bool
    requires { length destination.now ≤ longest_address }
    ensures { result ≡ match.agree setup.now own_at destination.now (length destination.now) }
{
    let l = destination.len();
    if AT_ONCE <= l {
        if numerals::read::<AT_ONCE>(setup, setup::OWN)
            == numerals::read::<AT_ONCE>(destination, 0)
        {
            let rest = l - AT_ONCE;
            return numerals::read::<AT_ONCE>(setup, setup::OWN + rest)
                == numerals::read::<AT_ONCE>(destination, rest);
        }
        return false;
    }
    for i in 0..l {
        if destination[i] != setup[setup::OWN + i] {
            return false;
        }
    }
    true
}

// Its hash.
#[tactic(auto, using(hash::proofs::Faster::before))]
fn hash_of(destination: &[u8]) -> u64
    ensures { (result < filter_bits) × (result ≡ hash destination.now) }
{
    let mut register = hash::ONES;
    for byte in destination {
        register = hash::take(register, *byte);
    }
    hash::select(register)
}

// Whether the bit of its hash is set in the filter.
fn is_filtered(setup: &[u8; setup::SIZE], destination: &[u8]) -> bool
    ensures { (s : Setup) → SetIs s setup.now → result ≡ match.is_filtered (length destination.now) s.filter destination.now }
{
    setup::filter(setup) >> hash_of(destination) & 1 == 1
}

// Whether the low bit of its first byte is set.
#[tactic(auto, using(crate::proofs::Laws::low_bit))]
fn is_group(destination: &[u8]) -> bool
    requires { 0 < length destination.now }
    ensures { result ≡ match.is_group destination.now }
{
    destination[0] % 2 == 1
}

// Match, by the destination, with which a frame begins and which has the address length in force: promiscuous; or all FFh with broadcast
// enabled; or not all FFh and either own address or, with the low bit of the first byte set, a set bit of the filter. An empty address is
// nobody's.
pub fn matches(setup: &[u8; setup::SIZE], destination: &[u8]) -> bool
    requires { length destination.now ≤ longest_address }
    ensures { (s : Setup) (f : List ℕ) → SetIs s setup.now → length destination.now ≡ s.settings.form.length
        → destination.now ≡ take (length destination.now) f → result ≡ match.matches s.settings s.own s.filter f }
{
    if setup::promiscuous(setup) {
        return true;
    }
    if destination.is_empty() {
        return false;
    }
    if is_broadcast(destination) {
        return !setup::no_broadcast(setup);
    }
    if is_own(setup, destination) {
        return true;
    }
    if is_group(destination) {
        return is_filtered(setup, destination);
    }
    false
}
