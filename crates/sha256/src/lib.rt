// SHA-256 (FIPS 180-4) of messages of at most 4,096 bytes. Section numbers are those of FIPS 180-4.
#![tactic(auto)]

use refusals::{Refusal, Verdict};

mod tables;
mod words;

ghost use Rattle.std.specs.Prelude.{◌≡◌, ℕ, ◌+◌, ◌/◌, ◌%◌, ◌<◌, ◌≤◌, List, ◌++◌, length, replicate, nat_le, slice_index};
ghost use Rattle.sha256.specs.Constants.{constants};
ghost use Rattle.octets.specs.Runs.{patch};
ghost use Rattle.sha256.specs.Padding.{blocks, Ends};
ghost use Rattle.sha256.specs.Hash.{mixed, schedule, first_sum, second_sum, round, rounds, sums};
ghost use Rattle.sha256.specs.Hash.{compressed, hashed, hash_value, After, joined};
ghost use Rattle.sha256.specs.Window.{Before};
ghost use Rattle.sha256.specs.Answer.{longest, digested, long_message, Answers};

// The longest message that is digested, in bytes.
const LONGEST: usize = 4096;

// A message's digest, or a refusal with 32 zero bytes.
// A struct and no Result: the pledge says what stands in each field after a refusal too.
#[derive(Clone, Copy)]
pub struct Digested {
    pub verdict: Verdict,
    pub bytes: [u8; 32],
}

// 6.2.2, 1: the message schedule. A word of it from 16 on; the first sixteen words.
fn next_word(w2: u32, w7: u32, w15: u32, w16: u32) -> u32
    ensures { result ≡ mixed w2 w7 w15 w16 }
{
    let a = words::small_sigma1(w2).wrapping_add(w7);
    let b = a.wrapping_add(words::small_sigma0(w15));
    b.wrapping_add(w16)
}

// A range: the index is that of a word and, by four, that of its bytes.
fn load(b: &[u8]) -> [u32; 16]
    requires { length b.now ≡ 64 }
    ensures { result ≡ schedule b.now 16 }
{
    let mut w = [0u32; 16];
    for t in 0..16 {
        w[t] = octets::number_at::<4>(b, t * 4) as u32;
    }
    w
}

// 6.2.2, 3: the two sums of a round, and the round.
fn first_sum(e: u32, f: u32, g: u32, h: u32, k: u32, w: u32) -> u32
    ensures { result ≡ first_sum e f g h k w }
{
    let a = h.wrapping_add(words::big_sigma1(e));
    let b = a.wrapping_add(words::choose(e, f, g));
    let c = b.wrapping_add(k);
    c.wrapping_add(w)
}

fn second_sum(a: u32, b: u32, c: u32) -> u32
    ensures { result ≡ second_sum a b c }
{
    words::big_sigma0(a).wrapping_add(words::majority(a, b, c))
}

#[tactic(auto, unfolding(crate::specs::Hash::round, crate::specs::Hash::shifted))]
fn one_round(s: [u32; 8], k: u32, w: u32) -> [u32; 8]
    ensures { result ≡ round s k w }
{
    let t1 = first_sum(s[4], s[5], s[6], s[7], k, w);
    let t2 = second_sum(s[0], s[1], s[2]);
    let a = t1.wrapping_add(t2);
    let e = s[3].wrapping_add(t1);
    [a, s[0], s[1], s[2], e, s[4], s[5], s[6]]
}

// 6.2.2, 3, for t = 0 to 15, with the block's own words.
// Written out: every word and constant has a place that is known beforehand.
fn first_rounds(s: [u32; 8], w: [u32; 16]) -> [u32; 8]
    ensures { result ≡ rounds w s 16 }
{
    let s = one_round(s, tables::constant(0), w[0]);
    let s = one_round(s, tables::constant(1), w[1]);
    let s = one_round(s, tables::constant(2), w[2]);
    let s = one_round(s, tables::constant(3), w[3]);
    let s = one_round(s, tables::constant(4), w[4]);
    let s = one_round(s, tables::constant(5), w[5]);
    let s = one_round(s, tables::constant(6), w[6]);
    let s = one_round(s, tables::constant(7), w[7]);
    let s = one_round(s, tables::constant(8), w[8]);
    let s = one_round(s, tables::constant(9), w[9]);
    let s = one_round(s, tables::constant(10), w[10]);
    let s = one_round(s, tables::constant(11), w[11]);
    let s = one_round(s, tables::constant(12), w[12]);
    let s = one_round(s, tables::constant(13), w[13]);
    let s = one_round(s, tables::constant(14), w[14]);
    one_round(s, tables::constant(15), w[15])
}

// The working variables before a round, and the sixteen words of the schedule before that round's own.
#[derive(Clone, Copy)]
struct Window {
    s: [u32; 8],
    w: [u32; 16],
}

// A round from 16 on, with its constant. Its word is made of the sixteen before it and takes the place of the first; the window turns
// by one, so that the newest word is last again.
fn step(x: Window, k: u32) -> Window
    ensures { (b v : List ℕ) (t : ℕ) → 16 ≤ t → t < 64 → k ≡ slice_index constants t
        → Before b v t x.s x.w → Before b v (t + 1) result.s result.w }
{
    let s = x.s;
    let mut w = x.w;
    w[0] = next_word(w[14], w[9], w[1], w[0]);
    let s = one_round(s, k, w[0]);
    let w = [
        w[1], w[2], w[3], w[4], w[5], w[6], w[7], w[8], w[9], w[10], w[11], w[12], w[13], w[14],
        w[15], w[0],
    ];
    Window { s, w }
}

// Rounds t to t + 15, from 16 on. After sixteen turns of the window its first place is the first again, so that nothing is moved.
fn sixteen_rounds(x: Window, t: usize) -> Window
    requires { (16 ≤ t) × (t + 16 ≤ 64) }
    ensures { (b v : List ℕ) → Before b v t x.s x.w → Before b v (t + 16) result.s result.w }
{
    let x = step(x, tables::constant(t));
    let x = step(x, tables::constant(t + 1));
    let x = step(x, tables::constant(t + 2));
    let x = step(x, tables::constant(t + 3));
    let x = step(x, tables::constant(t + 4));
    let x = step(x, tables::constant(t + 5));
    let x = step(x, tables::constant(t + 6));
    let x = step(x, tables::constant(t + 7));
    let x = step(x, tables::constant(t + 8));
    let x = step(x, tables::constant(t + 9));
    let x = step(x, tables::constant(t + 10));
    let x = step(x, tables::constant(t + 11));
    let x = step(x, tables::constant(t + 12));
    let x = step(x, tables::constant(t + 13));
    let x = step(x, tables::constant(t + 14));
    step(x, tables::constant(t + 15))
}

// 6.2.2, 3, for t = 16 to 63, from the working variables after the first sixteen rounds and the block's own words.
fn later_rounds(s: [u32; 8], w: [u32; 16]) -> [u32; 8]
    ensures { (b v : List ℕ) → Before b v 16 s w → result ≡ rounds (schedule b 64) v 64 }
{
    let mut x = Window { s, w };
    for i in 1..4 {
        x = sixteen_rounds(x, i * 16);
    }
    x.s
}

// 6.2.2, 4: the next hash value.
// Written out: the eight words stay values.
#[tactic(auto, unfolding(crate::specs::Hash::sums))]
fn add_states(s: [u32; 8], v: [u32; 8]) -> [u32; 8]
    ensures { result ≡ sums s v }
{
    let a = v[0].wrapping_add(s[0]);
    let b = v[1].wrapping_add(s[1]);
    let c = v[2].wrapping_add(s[2]);
    let d = v[3].wrapping_add(s[3]);
    let e = v[4].wrapping_add(s[4]);
    let f = v[5].wrapping_add(s[5]);
    let g = v[6].wrapping_add(s[6]);
    let h = v[7].wrapping_add(s[7]);
    [a, b, c, d, e, f, g, h]
}

// 6.2.2, 1 to 4, for one block. Only sixteen words of the schedule are held.
#[tactic(auto, using(crate::proofs::Rounds::compressed_made, crate::proofs::Windows::begun))]
fn compress(s: [u32; 8], b: &[u8]) -> [u32; 8]
    requires { length b.now ≡ 64 }
    ensures { result ≡ compressed s b.now }
{
    let w = load(b);
    let first = first_rounds(s, w);
    let v = later_rounds(first, w);
    add_states(s, v)
}

// 6.2.2: the whole blocks of b, one after the other. What is left of b is not read.
fn each_block(start: [u32; 8], b: &[u8]) -> [u32; 8]
    ensures { result ≡ hashed start b.now (length b.now / 64) }
{
    let mut s = start;
    for block in b.chunks_exact(64) {
        // Named first: an array is not made from itself in one step.
        let next = compress(s, block);
        s = next;
    }
    s
}

// The same, and no pass is entered for a message without a whole block, as nearly all are that a label hashes.
#[tactic(auto, using(crate::proofs::Hashes::hashed_none))]
fn absorb(start: [u32; 8], b: &[u8]) -> [u32; 8]
    ensures { result ≡ hashed start b.now (length b.now / 64) }
{
    if b.len() < 64 {
        return start;
    }
    each_block(start, b)
}

// How many blocks a message of n bytes has when padded.
fn block_count(n: usize) -> usize
    requires { n ≤ longest }
    ensures { result ≡ blocks n }
{
    (n + 72) / 64
}

// 5.1.1: the end of a padded message that has `before` bytes, whole blocks, in front of its last part m. It stands in one or two
// blocks of t: m's bytes after m's whole blocks, the byte 128, zeros, and the length in bits, of whose eight bytes the first four
// are 0. Answers their length.
fn end_blocks(t: &mut [u8], before: usize, m: &[u8]) -> usize
    requires { (t.old ≡ replicate 128 0) × (before % 64 ≡ 0) × (before + length m.now ≤ longest) }
    ensures { Ends before m.now t.new result }
{
    let n = m.len();
    let rest = n % 64;
    let end = block_count(rest) * 64;
    octets::copy(t, 0, &m[n / 64 * 64..n]);
    t[rest] = 128;
    octets::put_number::<4>(t, end - 4, ((before + n) * 8) as u64);
    end
}

// 6.2: the hash value of a message with `before` bytes x, whole blocks, in front of its last part m, from the hash value after x.
// The whole blocks of m are read where they stand.
fn finish(s: [u32; 8], before: usize, m: &[u8]) -> [u32; 8]
    requires { (before % 64 ≡ 0) × (before + length m.now ≤ longest) }
    ensures { (x : List ℕ) → After x s before → result ≡ hash_value (x ++ m.now) }
{
    let v = absorb(s, m);
    let mut t = [0u8; 128];
    let end = end_blocks(&mut t, before, m);
    each_block(v, &t[0..end])
}

// The hash value of a message.
#[tactic(auto, using(crate::proofs::Hashes::after_none), unfolding(crate::specs::Constants::initial))]
fn hash(m: &[u8]) -> [u32; 8]
    requires { length m.now ≤ longest }
    ensures { result ≡ hash_value m.now }
{
    finish(tables::INITIAL, 0, m)
}

// a, and b right after it, at the front of a block.
#[tactic(auto, using(octets::proofs::PatchLaws::patch_next))]
fn fill(t: &mut [u8], a: &[u8], b: &[u8])
    requires { length a.now + length b.now ≤ length t.old }
    ensures { t.new ≡ patch t.old 0 (a.now ++ b.now) }
{
    octets::copy(t, 0, a);
    octets::copy(t, a.len(), b);
}

// The block that a begins and b ends.
fn shared_block(s: [u32; 8], a: &[u8], b: &[u8]) -> [u32; 8]
    requires { length a.now + length b.now ≡ 64 }
    ensures { result ≡ compressed s (a.now ++ b.now) }
{
    let mut t = [0u8; 64];
    fill(&mut t, a, b);
    each_block(s, &t)
}

// A message that ends with a and b, at most a block together. `before` is in bytes, as the length at the end is.
// Both this and the block above put the two parts together; the block above is whole, and here the end is padded.
fn finish_short(s: [u32; 8], before: usize, a: &[u8], b: &[u8]) -> [u32; 8]
    requires { (before % 64 ≡ 0) × (length a.now + length b.now ≤ 64)
        × (before + (length a.now + length b.now) ≤ longest) }
    ensures { (x : List ℕ) → After x s before → result ≡ hash_value (x ++ (a.now ++ b.now)) }
{
    let mut t = [0u8; 64];
    fill(&mut t, a, b);
    finish(s, before, &t[0..a.len() + b.len()])
}

// A message that ends with a, at most a block, and b. Only the block that both have a part in is put together.
// `before` is in bytes, as the length at the end is.
fn finish_both(s: [u32; 8], before: usize, a: &[u8], b: &[u8]) -> [u32; 8]
    requires { (before % 64 ≡ 0) × (length a.now ≤ 64)
        × (before + (length a.now + length b.now) ≤ longest) }
    ensures { (x : List ℕ) → After x s before → result ≡ hash_value (x ++ (a.now ++ b.now)) }
{
    let cut = 64 - a.len();
    if b.len() < cut {
        return finish_short(s, before, a, b);
    }
    let next = shared_block(s, a, &b[0..cut]);
    finish(next, before + 64, &b[cut..b.len()])
}

// The hash value of a message in two parts.
// A message in one part has its own function: it is read where it stands, and nothing is put together.
fn hash_joined(a: &[u8], b: &[u8]) -> [u32; 8]
    requires { length a.now + length b.now ≤ longest }
    ensures { result ≡ hash_value (a.now ++ b.now) }
{
    let n = a.len() / 64 * 64;
    let s = absorb(tables::INITIAL, a);
    finish_both(s, n, &a[n..a.len()], b)
}

// 3.1: the words of a hash value, the highest byte of each first.
// A range: the index is that of a word and, by four, that of its bytes.
fn to_bytes(s: [u32; 8]) -> [u8; 32]
    ensures { result ≡ joined s }
{
    let mut out = [0u8; 32];
    for i in 0..8 {
        octets::put_number::<4>(&mut out, i * 4, u64::from(s[i]));
    }
    out
}

// The answers: a hash value's bytes, and the refusal of a long message.
fn done(s: [u32; 8]) -> Digested
    ensures { result ≡ digested (joined s) }
{
    Digested {
        verdict: Ok(()),
        bytes: to_bytes(s),
    }
}

fn long_message() -> Digested
    ensures { result ≡ long_message }
{
    Digested {
        verdict: Err(Refusal::LongMessage),
        bytes: [0u8; 32],
    }
}

// The digest of a message of at most 4,096 bytes. A longer one is refused.
#[tactic(auto, using(crate::proofs::Answers::answer_done, crate::proofs::Answers::answer_refused))]
#[inline(never)]
pub fn digest(m: &[u8]) -> Digested
    ensures { Answers m.now result }
{
    if m.len() <= LONGEST {
        // Returned early: an `if` that is the answer is copied once more.
        return done(hash(m));
    }
    long_message()
}

// Do a and b bytes make a message that is not long? No sum is made, so none can wrap.
fn fits(a: usize, b: usize) -> bool
    ensures { result ≡ nat_le (a + b) longest }
{
    a <= LONGEST && b <= LONGEST - a
}

// The digest of a message in two parts, which stay where they are: that of `first` with `second` right after it.
#[tactic(auto, using(crate::proofs::Answers::answer_done, crate::proofs::Answers::answer_refused, crate::proofs::Answers::fits_within, crate::proofs::Answers::fits_not))]
pub fn digest_joined(first: &[u8], second: &[u8]) -> Digested
    ensures { Answers (first.now ++ second.now) result }
{
    if fits(first.len(), second.len()) {
        // Returned early: an `if` that is the answer is copied once more.
        return done(hash_joined(first, second));
    }
    long_message()
}
