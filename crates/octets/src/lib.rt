// Numbers and runs of bytes in lent buffers. Every contract is an equation over lists (specs/): what is read, and the whole
// buffer after a write. Callers show that the bytes are there; no function here is an entry point.
#![tactic(auto)]

ghost use Rattle.std.specs.Prelude.{◌≡◌, ◌+◌, ◌^◌, ◌≤◌, ◌<◌, length, replicate};
ghost use Rattle.octets.specs.Numbers.{be, number_at};
ghost use Rattle.octets.specs.Runs.{patch, part, all_zero};

// The number that N bytes from `at` on spell, the highest first.
// By hand: `from_be_bytes` reads whole types, and N is any number of bytes.
#[tactic(auto, unfolding(crate::specs::Numbers::number_at))]
pub fn number_at<const N: usize>(s: &[u8], at: usize) -> u64
    requires { (N ≤ 8) × (at + N ≤ length s.now) }
    ensures { (result ≡ number_at N s.now at) × (result < 256 ^ N) }
{
    let mut n = 0;
    for i in 0..N {
        n = n * 256 + s[at + i] as u64;
    }
    n
}

// A number written in N bytes from `at` on. What does not fit them is dropped.
// By hand: `to_be_bytes` writes whole types, and N is any number of bytes.
pub fn put_number<const N: usize>(d: &mut [u8], at: usize, n: u64)
    requires { at + N ≤ length d.old }
    ensures { d.new ≡ patch d.old at (be N n) }
{
    let mut rest = n;
    for i in (0..N).rev() {
        d[at + i] = (rest % 256) as u8;
        rest /= 256;
    }
}

// All of s, over d from `at` on.
// By hand: with `copy_from_slice` the library for C would need memmove from outside.
pub fn copy(d: &mut [u8], at: usize, s: &[u8])
    requires { at + length s.now ≤ length d.old }
    ensures { d.new ≡ patch d.old at s.now }
{
    for i in 0..s.len() {
        d[at + i] = s[i];
    }
}

// The N bytes of s from `at` on, by value.
#[tactic(auto, unfolding(crate::specs::Runs::part))]
pub fn bytes_at<const N: usize>(s: &[u8], at: usize) -> [u8; N]
    requires { at + N ≤ length s.now }
    ensures { result ≡ part s.now at N }
{
    let mut out = [0; N];
    out.copy_from_slice(&s[at..at + N]);
    out
}

// `count` zeros from `at` on.
#[tactic(auto, using(crate::proofs::PatchLaws::of_lent))]
pub fn clear(d: &mut [u8], at: usize, count: usize)
    requires { at + count ≤ length d.old }
    ensures { d.new ≡ patch d.old at (replicate count 0) }
{
    d[at..at + count].fill(0);
}

// Is every byte of a run 0?
pub fn all_zero(s: &[u8]) -> bool
    ensures { result ≡ all_zero s.now }
{
    s.iter().all(|b| *b == 0)
}

// The same of an array, which is compared in whole words.
pub fn zeros<const N: usize>(s: &[u8; N]) -> bool
    ensures { result ≡ all_zero s.now }
{
    *s == [0; N]
}

// `count` bytes moved from `from` on to `to` on; the two runs may overlap.
#[tactic(auto, using(crate::proofs::PartLaws::slid))]
pub fn slide(b: &mut [u8], from: usize, to: usize, count: usize)
    requires { (from + count ≤ length b.old) × (to + count ≤ length b.old) }
    ensures { b.new ≡ patch b.old to (part b.old from count) }
{
    b.copy_within(from..from + count, to);
}
