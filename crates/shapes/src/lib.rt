// The shape of an archive: the number of entries in the path to each of its blocks, from the heights alone, in two passes with one
// counter for each height. No tree is built and nothing is hashed.
#![tactic(auto)]

ghost use Rattle.std.specs.Prelude.{◌≡◌, ◌≤◌, ◌<◌, length, get_or, Err};
ghost use Rattle.octets.specs.Runs.{patch};
ghost use Rattle.archive.specs.Reading.{count_of};
ghost use Rattle.shapes.specs.Shape.{height_of, Shapes};
ghost use Rattle.shapes.specs.Counters.{Raised, downs_of, entries_up_to, columns_from};

use archive::Image;
use refusals::{Refusal, Verdict};

// A struct and no Result: the pledge says what stands in each field after a refusal too.
#[derive(Clone, Copy)]
pub struct Shaped {
    pub verdict: Verdict,
    pub blocks: u64,
}

// The first k counters become one more than counter h.
fn raised(m: [u64; 16], h: usize, k: usize) -> [u64; 16]
    requires { (h < 16) × (k ≤ 16) × (get_or m h 0 < 65536) }
    ensures { Raised m h k result }
{
    let mut r = m;
    r[..k].fill(m[h] + 1);
    r
}

// How many down entries the path to each block has, written from the last block to the first.
fn downs(image: Image<'_>, out: &mut [u64])
    requires { count_of image.bytes.now ≤ length out.old }
    ensures { out.new ≡ patch out.old 0 (downs_of (columns_from image.entry.bytes.now 0)) }
{
    let mut m = [0; 16];
    for i in (0..image.count()).rev() {
        out[i] = m[0];
        let h = image.height(i) as usize;
        m = raised(m, h, h);
    }
}

// The right entries added to them, from the first block to the last.
fn rights(image: Image<'_>, out: &mut [u64])
    requires { (count_of image.bytes.now ≤ length out.old) × (out.old ≡ patch out.old 0 (downs_of (columns_from image.bytes.now 0))) }
    ensures { out.new ≡ patch out.old 0 (entries_up_to image.entry.bytes.now (count_of image.entry.bytes.now)) }
{
    let mut m = [0; 16];
    for i in 0..image.count() {
        let h = image.height(i) as usize;
        m = raised(m, h, h + 1);
        out[i] += m[0];
    }
}

fn refused(r: Refusal) -> Shaped
    ensures { result ≡ record { verdict = Err r; blocks = 0 } }
{
    Shaped {
        verdict: Err(r),
        blocks: 0,
    }
}

// The shape of the image at the start of a buffer: for each block the number of entries in the path to it, at the front of `entries`.
pub fn shape(image: &[u8], entries: &mut [u64]) -> Shaped
    ensures { Shapes image.now entries.old result entries.new }
{
    let Some(x) = Image::new(image) else {
        return refused(Refusal::BadImage);
    };
    if entries.len() < x.count() {
        return refused(Refusal::NoRoom);
    }
    downs(x, entries);
    rights(x, entries);
    Shaped {
        verdict: Ok(()),
        blocks: x.count() as u64,
    }
}

// The height of the block at a position; 0 where the buffer has no such record.
// A number for every position, as its contract has it.
#[tactic(auto, using(archive::proofs::SoundLaws::held_is), unfolding(crate::specs::Shape::height_of))]
pub fn height(image: &[u8], position: u64) -> u64
    ensures { result ≡ height_of image.now position }
{
    if !archive::holds(image, position) {
        return 0;
    }
    let x = archive::header(image);
    archive::height(image, x, (position - 1) as usize)
}
