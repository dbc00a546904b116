// Numbers at places of a slice, the low byte first. It knows no record, and asks that what it reads or writes lies
// in the slice.

#![tactic(auto)]

ghost use Rattle.std.specs.Prelude.{◌≡◌, ◌+◌, ◌-◌, ◌*◌, ◌≤◌, eqb, length, replicate};
ghost use Rattle.std.proofs.lemmas.List.Edits.{sets};
ghost use Rattle.memory.specs.Memory.{digits};
ghost use Rattle.numerals.specs.Places.{field};

// The bytes of the largest number.
const WORD: usize = 8;

// The number that N bytes spell: those behind the last of them are 0. For N of 8, 4 or 2 it is one load.
pub fn read<const N: usize>(r: &[u8], at: usize) -> u64
    requires number { N ≤ 8 }
    requires lies { at + N ≤ length r.now }
    ensures { result ≡ field r.now at N }
{
    let mut bytes = [0; WORD];
    bytes[..N].copy_from_slice(&r[at..at + N]);
    u64::from_le_bytes(bytes)
}

// Whether n times eight bytes are zero: the words are joined by OR, and one test is made at the end.
pub fn is_zero(r: &[u8], at: usize, n: usize) -> bool
    requires { at + n * 8 ≤ length r.now }
    ensures { result ≡ eqb (field r.now at (n * 8)) 0 }
{
    let mut joined: u64 = 0;
    for i in 0..n {
        joined |= read::<WORD>(r, at + i * WORD);
    }
    joined == 0
}

// The low N bytes of a number go to N bytes.
pub fn put<const N: usize>(r: &mut [u8], at: usize, v: u64)
    requires number { N ≤ 8 }
    requires lies { at + N ≤ length r.old }
    ensures { r.new ≡ sets r.old at (digits N v) }
{
    r[at..at + N].copy_from_slice(&v.to_le_bytes()[..N]);
}

// Zeros in n bytes.
pub fn clear(r: &mut [u8], at: usize, n: usize)
    requires { n ≤ length r.old - at }
    ensures { r.new ≡ sets r.old at (replicate n 0) }
{
    // Where there is nothing to clear, at may lie past the end.
    if n != 0 {
        r[at..at + n].fill(0);
    }
}
