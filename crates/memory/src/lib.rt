// Shared memory: bytes, words and real addresses in a slice of any length, each address taken modulo that length, byte by byte.
// The only room that makes a real address. All that the chip reads and writes in shared memory goes through here or through copies, which
// stands on slot, room and copy_run; the replay program's host goes by an index, with put_run in scene, and with its own reads in texts.

#![tactic(auto)]

ghost use Rattle.std.specs.Prelude.{◌≡◌, ◌+◌, ◌-◌, ◌*◌, ◌%◌, ◌<◌, ◌≤◌, min, [], ◌∷◌, length, take, drop};
ghost use Rattle.std.proofs.lemmas.List.Edits.{sets};
ghost use Rattle.memory.specs.Memory.{byte_at, put_byte, word_at, put_bytes, digits};
ghost use Rattle.memory.specs.Address.{place, beyond, offset_at, is_none, address_at, real_of, scp};
ghost use Rattle.memory.specs.Size.{size_allowed};

// How many real addresses there are.
const REAL_ADDRESSES: u32 = 1 << 24;

// The fewest bytes of a memory and the most.
const LEAST: usize = 8192;

const MOST: usize = 16777216;

// The offset that stands for none.
pub const NONE: u16 = 0xFFFF;

// The bytes of a word and its bits.
const WORD: u16 = 2;

const WORD_BITS: u32 = 16;

// The distance from the SCB base.
#[derive(Clone, Copy)]
pub struct Offset(pub u16);

// An address of 24 bits.
#[derive(Clone, Copy)]
pub struct RealAddress(pub u32);

// Whether an offset stands for none.
pub fn is_none(o: Offset) -> bool
    ensures { result ≡ is_none o }
{
    o.0 == NONE
}

// Where a field of what lies at offset o from base is: the only function that makes a real address of an offset.
// The base has 24 bits. The sum may have more; reads and writes take it modulo the length as it is.
#[tactic(auto, unfolding(crate::specs::Address::place))]
pub fn place(base: RealAddress, o: Offset, field: u16) -> RealAddress
    ensures { result.0 ≡ place base o field }
{
    RealAddress(base.0 % REAL_ADDRESSES + o.0 as u32 + field as u32)
}

// Where a field of what lies at the real address a is.
#[tactic(auto, unfolding(crate::specs::Address::beyond))]
pub fn beyond(a: RealAddress, field: u16) -> RealAddress
    ensures { result.0 ≡ beyond a field }
{
    RealAddress(a.0 % REAL_ADDRESSES + field as u32)
}

// Where the chip looks for the SCP.
pub fn scp() -> RealAddress
    ensures { result ≡ scp }
{
    RealAddress(0xFFFFF6)
}

// The real address that a device record kept as a number: it was one when it was written there.
pub fn recalled(n: u32) -> RealAddress
    ensures { result ≡ real_of n }
{
    RealAddress(n)
}

// Whether memory may have n bytes: one bit of n is set, and n is from 8,192 to 16,777,216.
pub fn size_allowed(n: usize) -> bool
    ensures { result ≡ size_allowed n }
{
    LEAST <= n && n <= MOST && n.count_ones() == 1
}

// Where address a lands in n bytes: a mask does it where n is a power of two.
#[tactic(auto, using(crate::proofs::Power::mask))]
pub fn slot(a: usize, n: usize) -> usize
    requires { 0 < n }
    ensures { result ≡ a % n }
{
    let mask = n - 1;
    if n & mask == 0 {
        return a & mask;
    }
    a % n
}

// The byte at a.
pub fn byte_at(m: &[u8], a: RealAddress) -> u8
    ensures { result ≡ byte_at m.now a.0 }
{
    byte_behind(m, a, 0)
}

// The byte i bytes behind a; 0 where memory is empty.
#[tactic(auto, using(crate::proofs::Laws::none_get), unfolding(crate::specs::Memory::byte_at))]
pub fn byte_behind(m: &[u8], a: RealAddress, i: u16) -> u8
    ensures { result ≡ byte_at m.now (a.0 + i) }
{
    if m.is_empty() {
        return 0;
    }
    m[slot(a.0 as usize + i as usize, m.len())]
}

// The word at a, low byte first. Each byte's index wraps by itself, so a word may lie across the end of memory: then its second byte is
// the first of all. Elsewhere the two lie side by side, and one load reads both.
pub fn word_at(m: &[u8], a: RealAddress) -> u16
    ensures { result ≡ word_at m.now a.0 }
{
    if m.is_empty() {
        return 0;
    }
    let last = m.len() - 1;
    let i = slot(a.0 as usize, m.len());
    if i < last {
        return u16::from_le_bytes([m[i], m[i + 1]]);
    }
    u16::from_le_bytes([m[i], m[0]])
}

// The word at a, which is an offset.
pub fn offset_at(m: &[u8], a: RealAddress) -> Offset
    ensures { result ≡ offset_at m.now a.0 }
{
    Offset(word_at(m, a))
}

// The real address at a: a word, then the low byte of the next word.
pub fn real_at(m: &[u8], a: RealAddress) -> RealAddress
    ensures { result ≡ address_at m.now a.0 }
{
    let low = word_at(m, a);
    let high = byte_behind(m, a, WORD);
    RealAddress(low as u32 + ((high as u32) << WORD_BITS))
}

// The byte v goes to a; nowhere where memory is empty.
#[tactic(auto, using(crate::proofs::Laws::none_set), unfolding(crate::specs::Memory::put_bytes, crate::specs::Memory::put_byte))]
pub fn put_byte(m: &mut [u8], a: RealAddress, v: u8)
    ensures { m.new ≡ put_bytes m.old a.0 (v ∷ []) }
{
    if m.is_empty() {
        return;
    }
    let i = slot(a.0 as usize, m.len());
    m[i] = v;
}

// The word w goes to a, low byte first. One store writes it, unless it lies across the end of memory.
pub fn put_word(m: &mut [u8], a: RealAddress, w: u16)
    ensures { m.new ≡ put_bytes m.old a.0 (digits 2 w) }
{
    if m.is_empty() {
        return;
    }
    let [low, high] = w.to_le_bytes();
    let last = m.len() - 1;
    let i = slot(a.0 as usize, m.len());
    if i < last {
        m[i] = low;
        m[i + 1] = high;
        return;
    }
    m[i] = low;
    m[0] = high;
}

// One more in the word at a, from 65,535 back to 0.
pub fn count_up(m: &mut [u8], a: RealAddress)
    ensures { m.new ≡ put_bytes m.old a.0 (digits 2 ((word_at m.old a.0 + 1) % 65536)) }
{
    let w = word_at(m, a);
    put_word(m, a, w.wrapping_add(1));
}

// How many of n elements from index at on lie within len; none where at is the end or past it. No sum is formed, so none can overflow.
pub fn room(len: usize, at: usize, n: usize) -> usize
    ensures { result ≡ min n (len - at) }
{
    n.min(len.saturating_sub(at))
}

// The k bytes of src from index from on go to dst from index to on. No index wraps, so that the machine may copy many bytes at once. A loop, and no
// copy_from_slice: a call from the one function of all calls has it keep its areas in memory, and a NOP takes a tenth more.
pub fn copy_run(dst: &mut [u8], to: usize, src: &[u8], from: usize, k: usize)
    requires { (k ≤ length dst.old - to) × (k ≤ length src.now - from) }
    ensures { dst.new ≡ sets dst.old to (take k (drop from src.now)) }
{
    for i in 0..k {
        dst[to + i] = src[from + i];
    }
}

// The bytes of src go to dst from index at on; what would pass the end of dst goes nowhere.
#[tactic(auto, using(crate::proofs::Laws::run_all))]
pub fn put_run(dst: &mut [u8], at: usize, src: &[u8])
    ensures { dst.new ≡ sets dst.old at src.now }
{
    let k = room(dst.len(), at, src.len());
    copy_run(dst, at, src, 0, k);
}
