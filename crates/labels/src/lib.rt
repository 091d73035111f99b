// Tags, heights and labels: a block's tag and its match, the height drawn from a coin word, and the sides of a tree by value.
#![tactic(auto)]

ghost use Rattle.std.specs.Prelude.{◌≡◌, ◌+◌, ◌≤◌, [], ◌∷◌, ◌++◌, length};
ghost use Rattle.octets.specs.Numbers.{be};
ghost use Rattle.octets.specs.Runs.{patch};
ghost use Rattle.sha256.specs.Hash.{sha256};
ghost use Rattle.sha256.specs.Answer.{longest};
ghost use Rattle.skiplist.specs.Label.{label_of};
ghost use Rattle.skiplist.specs.Blocks.{item_of};
ghost use Rattle.labels.specs.Tags.{most_readings, tag_head, Tags, Matches};
ghost use Rattle.labels.specs.Heights.{height_of};
ghost use Rattle.labels.specs.CodeSides.{message_of, message, no_side, leaf_of, node_of};

use refusals::{Refusal, Verdict};

// The most bytes of readings that a block has: with the seven bytes before them the longest message.
pub const MOST_READINGS: usize = 4089;

// Structs and no Results: the pledges say what stands in each field after a refusal too.
#[derive(Clone, Copy)]
pub struct Tagged {
    pub verdict: Verdict,
    pub tag: [u8; 32],
}

#[derive(Clone, Copy)]
pub struct Matched {
    pub verdict: Verdict,
    pub yes: bool,
}

// The seven bytes that stand before a block's readings in the message that its tag is the digest of: version 1, the length of
// the rest, the sample time.
fn put_head(d: &mut [u8], time: u64, readings: u64)
    requires { (length d.old ≡ 7) × (readings ≤ most_readings) }
    ensures { d.new ≡ tag_head time readings }
{
    octets::put_number::<1>(d, 0, 1);
    octets::put_number::<2>(d, 1, 4 + readings);
    octets::put_number::<4>(d, 3, time);
}

// A block's tag: the digest of its time and readings; 11 for readings over 4,089 bytes.
pub fn tag(time: u32, readings: &[u8]) -> Tagged
    ensures { Tags time readings.now result }
{
    if MOST_READINGS < readings.len() {
        return Tagged {
            verdict: Err(Refusal::LongMessage),
            tag: [0u8; 32],
        };
    }
    let mut head = [0u8; 7];
    put_head(&mut head, time as u64, readings.len() as u64);
    Tagged {
        verdict: Ok(()),
        tag: hashed_joined(&head, readings),
    }
}

// Is this the tag of that block? 11 for readings over 4,089 bytes.
#[tactic(auto, using(crate::proofs::TagLaws::as_match, crate::proofs::TagLaws::as_refused))]
pub fn matches(tag: [u8; 32], time: u32, readings: &[u8]) -> Matched
    ensures { Matches tag time readings.now result }
{
    let t = self::tag(time, readings);
    Matched {
        verdict: t.verdict,
        yes: t.verdict.is_ok() && t.tag == tag,
    }
}

// The height drawn from a coin word.
#[tactic(auto, using(crate::proofs::HeightLaws::cut), unfolding(crate::specs::Heights::height_of))]
pub fn height(word: u16) -> u8
    ensures { result ≡ height_of word }
{
    word.trailing_zeros().min(15) as u8
}

// What stands at a leaf's right, below a node or at its right, as its rank and label. An empty side is not one of rank 0: a leaf
// of the head alone has rank 0 and a label.
// A flag and no Option: leaves and nodes are never empty, and each step would wrap and unwrap one.
#[derive(Clone, Copy)]
pub struct Side {
    pub rank: u64,
    pub label: [u8; 32],
    pub empty: bool,
}

#[tactic(auto, unfolding(crate::specs::CodeSides::no_side))]
pub fn no_side() -> Side
    ensures { result ≡ no_side }
{
    Side {
        rank: 0,
        label: [0u8; 32],
        empty: true,
    }
}

// The digest of a message that is not long, and of one in two parts.
fn hashed(m: &[u8]) -> [u8; 32]
    requires { length m.now ≤ longest }
    ensures { result ≡ sha256 m.now }
{
    sha256::digest(m).bytes
}

fn hashed_joined(first: &[u8], second: &[u8]) -> [u8; 32]
    requires { length first.now + length second.now ≤ longest }
    ensures { result ≡ sha256 (first.now ++ second.now) }
{
    sha256::digest_joined(first, second).bytes
}

// The digest of a message that is not long, put into m.
// Each of these writes one of the four digests in its place.
fn put_hashed(m: &mut [u8], at: usize, x: &[u8])
    requires { (at + 32 ≤ length m.old) × (length x.now ≤ longest) }
    ensures { m.new ≡ patch m.old at (sha256 x.now) }
{
    octets::copy(m, at, &hashed(x));
}

fn put_byte(m: &mut [u8], at: usize, x: u8)
    requires { at + 32 ≤ length m.old }
    ensures { m.new ≡ patch m.old at (sha256 (x ∷ [])) }
{
    put_hashed(m, at, &[x]);
}

#[tactic(auto, using(octets::proofs::PatchLaws::patch_all))]
fn put_number(m: &mut [u8], at: usize, n: u64)
    requires { at + 32 ≤ length m.old }
    ensures { m.new ≡ patch m.old at (sha256 (be 4 n)) }
{
    let mut x = [0u8; 4];
    octets::put_number::<4>(&mut x, 0, n);
    put_hashed(m, at, &x);
}

// The digest of 32 bytes, or of the ONE byte 0 where there is nothing.
// A flag and the bytes beside it, as a Side has them.
fn put_message(m: &mut [u8], at: usize, nothing: bool, bytes: [u8; 32])
    requires { at + 32 ≤ length m.old }
    ensures { m.new ≡ patch m.old at (sha256 (message_of nothing bytes)) }
{
    if nothing {
        put_byte(m, at, 0);
    } else {
        put_hashed(m, at, &bytes);
    }
}

// Definition 3.1: level, rank, third and right are hashed in this order, then their four digests joined. Each goes into the message at
// once and takes no stack of its own.
fn label(level: u8, rank: u64, no_third: bool, third: [u8; 32], right: Side) -> [u8; 32]
    ensures { result ≡ label_of sha256 level rank (message_of no_third third) (message right) }
{
    let mut m = [0u8; 128];
    put_byte(&mut m, 0, level);
    put_number(&mut m, 32, rank);
    put_message(&mut m, 64, no_third, third);
    put_message(&mut m, 96, right.empty, right.label);
    hashed(&m)
}

// A leaf with its right side.
// own is a number: it is added to the rank, and the bytes may hold any.
#[tactic(auto, unfolding(crate::specs::CodeSides::leaf_of))]
pub fn leaf(own: u64, tag: [u8; 32], right: Side) -> Side
    ensures { result ≡ leaf_of (item_of own tag) right }
{
    let rank = own.wrapping_add(right.rank);
    Side {
        rank,
        label: label(0, rank, own == 0, tag, right),
        empty: false,
    }
}

// A node with its lower and its right side.
#[tactic(auto, unfolding(crate::specs::CodeSides::node_of))]
pub fn node(level: u8, lower: Side, right: Side) -> Side
    ensures { result ≡ node_of level lower right }
{
    let rank = lower.rank.wrapping_add(right.rank);
    Side {
        rank,
        label: label(level, rank, lower.empty, lower.label, right),
        empty: false,
    }
}
