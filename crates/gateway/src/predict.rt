// What Replace and Insert make of a proof that passed: the new root, from the stop upwards. Prediction comes after
// all checks.
ghost use Rattle.std.specs.Prelude.{◌≡◌, ◌+◌, ◌-◌, ◌≤◌, ◌<◌, length};
ghost use Rattle.skiplist.specs.Edits.{keeps as keeps_is, replaced, seated, inserted};
ghost use Rattle.skiplist.specs.Blocks.{block_item, column};
ghost use Rattle.labels.specs.CodeSides.{coded};
ghost use Rattle.proofbytes.specs.Layout.{entry_size, stop_size};
ghost use Rattle.proofbytes.specs.Reading.{at, entry_at, entries_from, count_of};
ghost use Rattle.gateway.specs.Climbing.{coded_place, item_at, kept_count, coded_entries};

use crate::climb::{Taken, fold, stop_side};
use labels::Side;
use proofbytes::DOWN;
use proofbytes::read::entry_count;

// The root with another tag in the stop.
#[inline(never)]
pub fn replace(s: &[u8], tag: [u8; 32]) -> Side
    requires { at (count_of s.now) + stop_size ≤ length s.now }
    ensures { result ≡ replaced coded (block_item tag) (coded_place s.now (count_of s.now)) }
{
    let k = entry_count(s);
    let b = proofbytes::read::beside_at(s, k);
    let t = labels::leaf(1, tag, stop_side(b));
    fold(s, 0, k, Taken::All, t)
}

// Does Insert at height h keep the j-th entry? Those of a level above h, and of level h those that go right.
fn keeps(s: &[u8], j: usize, h: u8) -> bool
    requires { at j + entry_size ≤ length s.now }
    ensures { result ≡ keeps_is h (entry_at s.now j) }
{
    let e = proofbytes::read::entry_at(s, j);
    if e.kind == DOWN {
        h < e.level
    } else {
        h <= e.level
    }
}

// How many entries Insert at height h keeps.
// k counts the entries; it is worked out once and handed down.
fn kept(s: &[u8], k: usize, h: u8) -> usize
    requires { at k ≤ length s.now }
    ensures { (result ≡ kept_count h (entries_from s.now 0 k)) × (result ≤ k) }
{
    for j in 0..k {
        if !keeps(s, j, h) {
            return j;
        }
    }
    k
}

// What stands below the j kept entries; x is the new leaf with the stop's right side.
// k counts the entries; it is worked out once and handed down.
fn seat(s: &[u8], j: usize, k: usize, h: u8, tag: [u8; 32], b: Side) -> Side
    requires { (j ≤ k) × (at k + stop_size ≤ length s.now) }
    ensures { result ≡ seated coded h (block_item tag) (coded_entries s.now j (k - j))
        (item_at s.now k) b }
{
    let e = proofbytes::read::entry_at(s, k);
    let there = e.bytes;
    let x = labels::leaf(1, tag, b);
    if h == 0 {
        return labels::leaf(e.number, there, x);
    }
    let c = labels::leaf(e.number, there, labels::no_side());
    let low = fold(s, j, k, Taken::Rights, c);
    let high = fold(s, j, k, Taken::Downs, x);
    labels::node(h, low, high)
}

// The root with a new column after the stop's.
#[inline(never)]
pub fn insert(s: &[u8], h: u8, tag: [u8; 32]) -> Side
    requires { at (count_of s.now) + stop_size ≤ length s.now }
    ensures { result ≡ inserted coded (column (record { height = h; tag = tag })) (coded_place s.now (count_of s.now)) }
{
    let k = entry_count(s);
    let b = proofbytes::read::beside_at(s, k);
    let j = kept(s, k, h);
    let t = seat(s, j, k, h, tag, stop_side(b));
    fold(s, 0, j, Taken::All, t)
}
