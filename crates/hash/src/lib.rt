// The function HASH of document 000, section 5.5: on which of the filter's 64 bits an address falls. Its register is a number here, A[31] the
// lowest bit, which takes an address byte by byte, and of a byte four bits at a time. It takes every register and byte; specs/Hash.antt has the
// paper's program.

#![tactic(auto)]

ghost use Rattle.std.specs.Prelude.{◌≡◌, List, [], ◌∷◌, ◌++◌, ℕ, ◌<◌};
ghost use Rattle.hash.specs.Hash.{hash};
ghost use Rattle.hash.specs.Numbers as numbers;

// The register before an address: 32 ones.
pub const ONES: u32 = 0xFFFFFFFF;

// A[31], the last bit of the register, is the lowest of its number.
const LAST: u32 = 31;

// Bits are taken four at a time.
const FOUR_BITS: u32 = 1 << 4;

const HALF_A_BYTE: u8 = 1 << 4;

// What four bits 0 make of each register of four bits.
static DRAINED: [u32; 16] = [
    0x00000000, 0x1DB71064, 0x3B6E20C8, 0x26D930AC, 0x76DC4190, 0x6B6B51F4, 0x4DB26158, 0x5005713C,
    0xEDB88320, 0xF00F9344, 0xD6D6A3E8, 0xCB61B38C, 0x9B64C2B0, 0x86D3D2D4, 0xA00AE278, 0xBDBDF21C,
];

// What they make of the register x.
fn drained(x: u32) -> u32
    requires { x < 16 }
    ensures { result ≡ numbers.drained 4 x }
{
    DRAINED[x as usize]
}

// The register behind four more bits, the low ones of a number.
#[tactic(auto, unfolding(crate::specs::Numbers::four_taken))]
fn take_four(register: u32, bits: u32) -> u32
    ensures { result ≡ numbers.four_taken register bits }
{
    register / FOUR_BITS ^ drained((register ^ bits) % FOUR_BITS)
}

// The register behind one more byte of an address, its low half first.
pub fn take(register: u32, byte: u8) -> u32
    ensures { (result ≡ numbers.taken register byte) × ((bs : List ℕ) → register ≡ numbers.behind bs → result ≡ numbers.behind (bs ++ (byte ∷ []))) }
{
    let low = byte as u32;
    let high = (byte / HALF_A_BYTE) as u32;
    take_four(take_four(register, low), high)
}

// The bit A[k] of a register.
fn flag(register: u32, k: u32) -> u64
    requires { k < 32 }
    ensures { (result ≡ numbers.flag_in register k) × (result < 2) }
{
    (register as u64 >> (LAST - k)) & 1
}

// The six bits that are selected out of a register: A[5], A[6], A[7], A[2], A[3], A[4], the first the lowest.
pub fn select(register: u32) -> u64
    ensures { (result ≡ numbers.selected_in register) × (result < 64) × ((bs : List ℕ) → register ≡ numbers.behind bs → result ≡ hash bs) }
{
    flag(register, 5)
        + 2 * flag(register, 6)
        + 4 * flag(register, 7)
        + 8 * flag(register, 2)
        + 16 * flag(register, 3)
        + 32 * flag(register, 4)
}
