// The store: an image checked, a position proved, a command applied. Every call refuses in document 01's order before
// it writes a byte.
#![tactic(auto)]

ghost use Rattle.std.specs.Prelude.{◌≡◌, Ok};
ghost use Rattle.archive.specs.Writing.{rewritten};
ghost use Rattle.store.specs.Answers.{apply_verdict, row_after};
ghost use Rattle.store.specs.Passes.{Opened};
ghost use Rattle.store.specs.Pledges.{Checks, Proves, Applies};

use archive::{Image, Layout};
use commands::{Command, Metadata, Operation};
use refusals::{Refusal, Verdict};

pub mod path;
pub mod plan;
pub mod runs;
mod slots;

// Structs and no Results: the pledges say what stands in each field after a refusal too.
#[derive(Clone, Copy)]
pub struct Checked {
    pub verdict: Verdict,
    pub metadata: Metadata,
}

#[derive(Clone, Copy)]
pub struct Proved {
    pub verdict: Verdict,
    pub length: u64,
    pub entries: u64,
}

#[derive(Clone, Copy)]
pub struct Applied {
    pub verdict: Verdict,
    pub count: u64,
}

// The image's metadata, or 1.
pub fn check(image: &[u8]) -> Checked
    ensures { Checks image.now result }
{
    let Some(x) = Image::new(image) else {
        return Checked {
            verdict: Err(Refusal::BadImage),
            metadata: Metadata {
                count: 0,
                label: [0; 32],
            },
        };
    };
    let root = runs::side(x, 0, x.count());
    // Named first: a literal takes no array straight from another value's field.
    let label = root.label;
    Checked {
        verdict: Ok(()),
        metadata: Metadata {
            count: root.rank,
            label,
        },
    }
}

// The proof of a position, from a place of the buffer on: its length and its number of entries, or 1, 2, 6, 5.
pub fn prove(image: &[u8], position: u64, buffer: &mut [u8], place: u64) -> Proved
    ensures { Proves image.now position buffer.old place result buffer.new }
{
    let t = plan::proof(image, position, buffer.len() as u64, place);
    if t.verdict.is_ok() {
        path::put_proof(
            Image::known(image),
            position as usize,
            buffer,
            place as usize,
            t.entries as usize,
        );
    }
    t
}

// The edit of an image that is planned. It writes the bytes, so it holds no `Image`.
fn edit(image: &mut [u8], x: Layout, k: Command)
    requires { Opened image.old x × (apply_verdict image.old k ≡ Ok tt) }
    ensures { image.new ≡ rewritten image.old (row_after image.old k) }
{
    let p = k.position as usize;
    match k.operation {
        Operation::Read => {}
        Operation::Replace => archive::replace(image, x, p, k.tag),
        Operation::Insert => archive::insert(image, x, p, k.height, k.tag),
        Operation::Delete => archive::delete(image, x, p),
    }
}

// A command made on the image in its buffer: the new count, or 1, 2, 3, 4, 14, 5.
pub fn apply(image: &mut [u8], k: Command) -> Applied
    ensures { Applies image.old k result image.new }
{
    let t = plan::edit(image, k);
    if t.verdict.is_ok() {
        let x = archive::header(image);
        edit(image, x, k);
    }
    t
}
