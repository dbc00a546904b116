// Copies between shared memory and other slices, by stretches: bytes up to the end of memory are one run, and those behind it are a run from
// its start. They take every index, and every length that their run takes.

#![tactic(auto)]

ghost use Rattle.std.specs.Prelude.{◌≡◌, ◌-◌, ◌+◌, ◌^◌, ◌≤◌, ◌<◌, ℕ, length, take, drop};
ghost use Rattle.std.proofs.lemmas.List.Edits.{sets};
ghost use Rattle.memory.specs.Memory.{bytes_at, put_bytes};

use memory::RealAddress;

// ---- one run

// How the bytes of a run go from one slice to another.
pub trait Run {
    // the most bytes that it takes
    ghost most: { ℕ };

    // The k bytes of src from index from on go to dst from index to on.
    fn run(dst: &mut [u8], to: usize, src: &[u8], from: usize, k: usize)
        requires { (k ≤ most) × (k ≤ length dst.old - to) × (k ≤ length src.now - from) }
        ensures { dst.new ≡ sets dst.old to (take k (drop from src.now)) };
}

// As many bytes as there are.
pub struct Any;

impl Run for Any {
    ghost most = { 2 ^ 64 };

    // One after another.
    fn run(dst: &mut [u8], to: usize, src: &[u8], from: usize, k: usize) {
        memory::copy_run(dst, to, src, from, k);
    }
}

// N bytes by way of a number: one load and one store, where a copy would first ask whether the slices share bytes.
fn at_once<const N: usize>(dst: &mut [u8], to: usize, src: &[u8], from: usize)
    requires { (N ≤ 8) × (to + N ≤ length dst.old) × (from + N ≤ length src.now) }
    ensures { dst.new ≡ sets dst.old to (take N (drop from src.now)) }
{
    numerals::put::<N>(dst, to, numerals::read::<N>(src, from));
}

// The first N of k bytes and the last N, which lie over each other where k is under twice N.
fn ends<const N: usize>(dst: &mut [u8], to: usize, src: &[u8], from: usize, k: usize)
    requires number { (0 < N) × (N ≤ 8) × (N ≤ k) × (k ≤ N + N) }
    requires lie { (k ≤ length dst.old - to) × (k ≤ length src.now - from) }
    ensures { dst.new ≡ sets dst.old to (take k (drop from src.now)) }
{
    at_once::<N>(dst, to, src, from);
    at_once::<N>(dst, to + (k - N), src, from + (k - N));
}

// A few bytes, 16 at most: with no loop.
pub struct Few;

impl Run for Few {
    ghost most = { 16 };

    // By the largest number that has no more bytes, and a single one by itself.
    fn run(dst: &mut [u8], to: usize, src: &[u8], from: usize, k: usize) {
        if 8 <= k {
            ends::<8>(dst, to, src, from, k);
        } else if 4 <= k {
            ends::<4>(dst, to, src, from, k);
        } else if 2 <= k {
            ends::<2>(dst, to, src, from, k);
        } else if k == 1 {
            dst[to] = src[from];
        }
    }
}

// What `memory::put_run` does, of a few bytes. Not one with it: `memory` stands below `Run`.
pub fn put_few(dst: &mut [u8], at: usize, src: &[u8])
    requires { length src.now ≤ 16 }
    ensures { dst.new ≡ sets dst.old at src.now }
{
    let k = memory::room(dst.len(), at, src.len());
    Few::run(dst, at, src, 0, k);
}

// ---- out of memory

// What `copy_out` does where bytes pass the end of memory: up to the end, then on from the start, as often as it takes. No copy of the chip takes
// more than two stretches, since memory has more bytes than a frame. It is written in place, so that the compiler knows N for a power of two there:
// no division.
#[inline(always)]
fn copy_stretches(m: &[u8], i: usize, k: usize, dst: &mut [u8], at: usize)
    requires { (i < length m.now) × (k ≤ length dst.old - at) }
    ensures { dst.new ≡ sets dst.old at (bytes_at m.now i k) }
{
    let mut from = i;
    let mut done = 0;
    // A `while`: a turn goes on by a run, whose length the turn itself finds.
    while done < k {
        let run = memory::room(m.len(), from, k - done);
        memory::copy_run(dst, at + done, m, from, run);
        done += run;
        // 0, wherever there is more to copy.
        from = memory::slot(from + run, m.len());
    }
}

// The n bytes of memory from a on go to dst from index at on; what would pass the end of dst goes nowhere. An empty memory reads 0.
pub fn copy_out<R: Run>(m: &[u8], a: RealAddress, n: usize, dst: &mut [u8], at: usize)
    requires { n ≤ R.most }
    ensures { dst.new ≡ sets dst.old at (bytes_at m.now a.0 n) }
{
    let k = memory::room(dst.len(), at, n);
    if m.is_empty() {
        numerals::clear(dst, at, k);
        return;
    }
    let i = memory::slot(a.0 as usize, m.len());
    if k <= m.len() - i {
        R::run(dst, at, m, i, k);
        return;
    }
    copy_stretches(m, i, k, dst, at);
}

// ---- into memory

// What `copy_in` does where bytes pass the end of memory. Not one with `copy_stretches`: there the slice that is read goes round, here the one that
// is written, and a loop over both would take a closure that copies. It is written in place for the same reason.
#[inline(always)]
fn put_stretches(m: &mut [u8], i: usize, src: &[u8], at: usize, k: usize)
    requires { (i < length m.old) × (k ≤ length src.now - at) }
    ensures { m.new ≡ put_bytes m.old i (take k (drop at src.now)) }
{
    let mut to = i;
    let mut done = 0;
    // A `while`, as in `copy_stretches`.
    while done < k {
        let run = memory::room(m.len(), to, k - done);
        memory::copy_run(m, to, src, at + done, run);
        done += run;
        to = memory::slot(to + run, m.len());
    }
}

// The n bytes of src from index at on, or as many as there are, go to memory from a on; an empty memory takes none.
pub fn copy_in<R: Run>(m: &mut [u8], a: RealAddress, src: &[u8], at: usize, n: usize)
    requires { n ≤ R.most }
    ensures { m.new ≡ put_bytes m.old a.0 (take n (drop at src.now)) }
{
    if m.is_empty() {
        return;
    }
    let k = memory::room(src.len(), at, n);
    let i = memory::slot(a.0 as usize, m.len());
    if k <= m.len() - i {
        R::run(m, i, src, at, k);
        return;
    }
    put_stretches(m, i, src, at, k);
}
