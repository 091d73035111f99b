// The archive image: a row of blocks in a lent buffer, checked, read and edited in place. What is read, and the whole
// buffer after an edit, are equations over lists (specs/). No function here is an entry point: the store refuses first,
// so an edit may ask for what it needs.
#![tactic(auto)]

ghost use Rattle.std.specs.Prelude.{◌≡◌, true, ◌++◌, ◌+◌, ◌*◌, ◌≤◌, ◌<◌, length};
ghost use Rattle.octets.specs.Numbers.{be};
ghost use Rattle.octets.specs.Runs.{patch};
ghost use Rattle.skiplist.specs.Limits.{most_blocks};
ghost use Rattle.archive.specs.Form.{length_place, length_bytes, count_bytes, header_bytes, record_bytes, rest_bytes};
ghost use Rattle.archive.specs.Form.{image_bytes};
ghost use Rattle.archive.specs.Reading.{layout_of, height_at, tag_at, held, low, framed, sound};
ghost use Rattle.archive.specs.Writing.{after_replace, after_insert, after_delete};

mod image;

pub use image::Image;

const VERSION: u64 = 1;

const LENGTH_AT: usize = 1;

const COUNT_AT: usize = 5;

const COUNT_BYTES: usize = 2;

const HEADER: usize = 7;

const RECORD: usize = 33;

// A usize, as counts of records are here; `commands` has it for counts that come from outside.
const MOST_BLOCKS: usize = 4096;

pub const MOST_HEIGHT: u64 = 15;

// Where the records stand: the first one's place, the bytes of each, and how many there are.
#[derive(Clone, Copy)]
pub struct Layout {
    pub first: usize,
    pub size: usize,
    pub count: usize,
}

// The one reader of the header.
pub fn header(b: &[u8]) -> Layout
    requires { header_bytes ≤ length b.now }
    ensures { (result ≡ layout_of b.now) × (result.count < 65536) }
{
    Layout {
        first: HEADER,
        size: RECORD,
        count: octets::number_at::<2>(b, COUNT_AT) as usize,
    }
}

// The place of the record that has i others before it; so the size of an image of i blocks.
pub fn place(x: Layout, i: usize) -> usize
    requires { (x.first ≡ header_bytes) × (x.size ≡ record_bytes) × (i < 4294967296) }
    ensures { result ≡ image_bytes i }
{
    x.first + x.size * i
}

pub fn height(b: &[u8], x: Layout, i: usize) -> u64
    requires { (x ≡ layout_of b.now) × (image_bytes (i + 1) ≤ length b.now) × (i < 4294967296) }
    ensures { (result ≡ height_at b.now i) × (result < 256) }
{
    octets::number_at::<1>(b, place(x, i))
}

pub fn tag(b: &[u8], x: Layout, i: usize) -> [u8; 32]
    requires { (x ≡ layout_of b.now) × (image_bytes (i + 1) ≤ length b.now) × (i < 4294967296) }
    ensures { result ≡ tag_at b.now i }
{
    octets::bytes_at(b, place(x, i) + 1)
}

// Is there a record of the block at position p in the buffer? Its place alone is looked at.
#[tactic(auto, unfolding(crate::specs::Reading::held))]
pub fn holds(b: &[u8], p: u64) -> bool
    ensures { result ≡ held b.now p }
{
    1 <= p && p as usize <= MOST_BLOCKS && HEADER + RECORD * (p as usize) <= b.len()
}

// Refusal 1, but for the heights.
#[tactic(auto, unfolding(crate::specs::Reading::framed))]
fn frame(b: &[u8]) -> bool
    ensures { result ≡ framed b.now }
{
    if b.len() < HEADER {
        return false;
    }
    let n = header(b).count;
    octets::number_at::<1>(b, 0) == VERSION
        && octets::number_at::<4>(b, LENGTH_AT) as usize == COUNT_BYTES + RECORD * n
        && n <= MOST_BLOCKS
        && HEADER + RECORD * n <= b.len()
}

// Are the first k heights within the limit?
#[tactic(auto, using(crate::proofs::SoundLaws::low_stop, crate::proofs::SoundLaws::low_on, crate::proofs::SoundLaws::low_none))]
fn all_low(b: &[u8], x: Layout, k: usize) -> bool
    requires { (x ≡ layout_of b.now) × (image_bytes k ≤ length b.now) × (k ≤ most_blocks) }
    ensures { result ≡ low b.now k }
{
    for i in (0..k).rev() {
        if MOST_HEIGHT < height(b, x, i) {
            return false;
        }
    }
    true
}

// Does the buffer begin with an image? Refusal 1 is due where it does not.
#[tactic(auto, using(crate::proofs::SoundLaws::framed_is), unfolding(crate::specs::Reading::sound))]
pub fn is_sound(b: &[u8]) -> bool
    ensures { result ≡ sound b.now }
{
    if !frame(b) {
        return false;
    }
    let x = header(b);
    all_low(b, x, x.count)
}

// The header of an image of n blocks; the version is there already.
fn put_count(b: &mut [u8], n: usize)
    requires { (header_bytes ≤ length b.old) × (n ≤ most_blocks) }
    ensures { b.new
        ≡ patch b.old length_place (be length_bytes (rest_bytes n) ++ be count_bytes n) }
{
    octets::put_number::<2>(b, COUNT_AT, n as u64);
    octets::put_number::<4>(b, LENGTH_AT, (COUNT_BYTES + RECORD * n) as u64);
}

// The edits take bytes and layout: an Image only lends bytes to be read.

// "Replace p, 1 to n, by a tag; the height stays": 32 bytes are written.
#[tactic(auto, using(crate::proofs::SoundLaws::sound_is))]
pub fn replace(b: &mut [u8], x: Layout, p: usize, tag: [u8; 32])
    requires { (sound b.old ≡ true) × (x ≡ layout_of b.old) × (1 ≤ p) × (p ≤ x.count) }
    ensures { b.new ≡ after_replace b.old p tag }
{
    octets::copy(b, place(x, p - 1) + 1, &tag);
}

// "Insert after p, 0 to n, a tag with a height": later records move by one, over spare bytes.
pub fn insert(b: &mut [u8], x: Layout, p: usize, height: u8, tag: [u8; 32])
    requires { (sound b.old ≡ true) × (x ≡ layout_of b.old) × (p ≤ x.count) × (x.count < most_blocks)
        × (image_bytes (x.count + 1) ≤ length b.old) }
    ensures { b.new ≡ after_insert b.old p height tag }
{
    let at = place(x, p);
    octets::slide(b, at, at + RECORD, place(x, x.count) - at);
    octets::copy(b, at + 1, &tag);
    octets::put_number::<1>(b, at, height as u64);
    put_count(b, x.count + 1);
}

// "Delete p, 1 to n": later records move back by one, and the 33 bytes that the image gave up become zero.
#[tactic(auto, using(crate::proofs::SoundLaws::sound_is))]
pub fn delete(b: &mut [u8], x: Layout, p: usize)
    requires { (sound b.old ≡ true) × (x ≡ layout_of b.old) × (1 ≤ p) × (p ≤ x.count) }
    ensures { b.new ≡ after_delete b.old p }
{
    let from = place(x, p);
    let end = place(x, x.count);
    octets::slide(b, from, from - RECORD, end - from);
    octets::clear(b, end - RECORD, RECORD);
    put_count(b, x.count - 1);
}
