// Runs of columns of an image, labelled. Column 0 is the head, column i above 0 the block of record i - 1.
ghost use Rattle.std.specs.Prelude.{◌≡◌, List, ℕ, ◌≤◌};
ghost use Rattle.skiplist.specs.Sides.{side_of};
ghost use Rattle.skiplist.specs.Blocks.{shown};
ghost use Rattle.labels.specs.CodeSides.{leaf_of, coded};
ghost use Rattle.archive.specs.Reading.{count_of};
ghost use Rattle.store.specs.Passes.{slots_of, item_at, run_of, tree_at};

use crate::slots;
use archive::{Image, MOST_HEIGHT};
use labels::Side;

// "Own is 0 for the head, 1 for a block."
pub fn own(i: usize) -> u64
    ensures { (b : List ℕ) → result ≡ (item_at b i).own }
{
    if i == 0 { 0 } else { 1 }
}

// The tag field of column i: all zero for the head.
pub fn tag(image: Image<'_>, i: usize) -> [u8; 32]
    requires { i ≤ count_of image.bytes.now }
    ensures { result ≡ shown (item_at image.entry.bytes.now i) }
{
    if i == 0 { [0; 32] } else { image.tag(i - 1) }
}

// The leaf of column i with its right side.
fn leaf(image: Image<'_>, i: usize, right: Side) -> Side
    requires { i ≤ count_of image.bytes.now }
    ensures { result ≡ leaf_of (item_at image.entry.bytes.now i) right }
{
    if i == 0 {
        labels::leaf(0, [0; 32], right)
    } else {
        labels::leaf(1, image.tag(i - 1), right)
    }
}

// The slots of the columns after column i up to column m.
#[tactic(auto, using(crate::proofs::RunLaws::labelling))]
pub fn columns(image: Image<'_>, i: usize, m: usize) -> [Side; 16]
    requires { (i ≤ m) × (m ≤ count_of image.bytes.now) }
    ensures { result ≡ slots_of (run_of image.entry.bytes.now i m) }
{
    let mut s = slots::no_slots();
    for j in (i..m).rev() {
        let h = image.height(j);
        // Named first: a call's array is not laid over one that the call reads.
        let next = slots::with_column(s, h as usize, image.tag(j));
        s = next;
    }
    s
}

// The side of column i and those after it up to column m.
pub fn side(image: Image<'_>, i: usize, m: usize) -> Side
    requires { (i ≤ m) × (m ≤ count_of image.bytes.now) }
    ensures { result ≡ side_of coded (tree_at image.entry.bytes.now i m) }
{
    let s = columns(image, i, m);
    let t = leaf(image, i, s[0]);
    slots::sealed(s, MOST_HEIGHT as usize, t)
}
