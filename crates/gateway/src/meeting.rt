// Delete: the place where two paths part, the meeting of the proofs there, and what is left. What each recomputes
// below the parting was kept when it was checked, so that the meeting hashes nothing.
ghost use Rattle.std.specs.Prelude.{◌≡◌, cond, not, ◌&&◌, ◌+◌, ◌-◌, ◌≤◌, ◌<◌, eqb, length};
ghost use Rattle.skiplist.specs.Entry.{Falls};
ghost use Rattle.skiplist.specs.Limits.{most_height};
ghost use Rattle.skiplist.specs.Merge.{merge as merge_is};
ghost use Rattle.proofbytes.specs.Layout.{entry_size, stop_size, down_kind};
ghost use Rattle.proofbytes.specs.Reading.{at, fields_at, entries_from, count_of};
ghost use Rattle.gateway.specs.Climbing.{climbed};
ghost use Rattle.gateway.specs.Parting.{shared_of, side_is, beside_is, leaf_is, fork_of, halt_of, parts_of, only_of};
ghost use Rattle.gateway.specs.Parting.{only_from, lower_of, remains_of};

use crate::climb::{Taken, fold, push, stop_side};
use labels::Side;
use proofbytes::DOWN;
use proofbytes::read::{Beside, Fields, beside_at, entry_at, entry_count, same_entry};

// How many entries the two proofs share from the root. It goes by bytes alone, whatever they are, so that it can come
// before the checks.
pub fn shared(a: &[u8], b: &[u8]) -> usize
    ensures { (result ≡ shared_of a.now b.now) × (result ≤ count_of a.now)
        × (result ≤ count_of b.now) }
{
    let k = entry_count(a);
    let l = entry_count(b);
    let most = k.min(l);
    for j in 0..most {
        if !same_entry(a, b, j) {
            return j;
        }
    }
    most
}

// An entry's rank and label are those of t.
#[tactic(auto, unfolding(crate::specs::Parting::side_is))]
fn side_is(e: Fields, t: Side) -> bool
    ensures { result ≡ side_is e t }
{
    e.number == t.rank && e.bytes == t.label
}

// A stop's right rank and label are those of t, which was recomputed; an empty right side is no such.
#[tactic(auto, unfolding(crate::specs::Parting::beside_is))]
fn beside_is(b: Beside, t: Side) -> bool
    ensures { result ≡ beside_is b t }
{
    b.rank != 0 && b.rank == t.rank && b.label == t.label
}

// The same own and tag; the head has no tag.
#[tactic(auto, unfolding(crate::specs::Parting::leaf_is))]
fn leaf_is(e: Fields, d: Fields) -> bool
    ensures { result ≡ leaf_is e d }
{
    e.number == d.number && (e.number == 0 || e.bytes == d.bytes)
}

// The first goes down and the second right at one level, and each one's side is what the other recomputes.
#[tactic(auto, unfolding(crate::specs::Parting::fork_of))]
fn fork(e: Fields, u: Side, d: Fields, v: Side) -> bool
    ensures { result ≡ fork_of e u d v }
{
    e.kind == DOWN
        && d.kind != DOWN
        && d.level != 0
        && e.level == d.level
        && side_is(e, v)
        && side_is(d, u)
}

// The first stops and the second goes right at level 0 with the same own and tag, and the stop's right side is what
// the second recomputes.
#[tactic(auto, unfolding(crate::specs::Parting::halt_of))]
fn halt(e: Fields, b: Beside, d: Fields, v: Side) -> bool
    ensures { result ≡ halt_of e b d v }
{
    d.kind != DOWN && d.level == 0 && leaf_is(e, d) && beside_is(b, v)
}

// The paths part after j shared entries; u and v are what the first and the second recompute below. The entries are read in each case by
// itself: kept over both they take stack.
// k and l count the entries; they are worked out once and handed down.
fn parts(a: &[u8], k: usize, b: &[u8], l: usize, j: usize, u: Side, v: Side) -> bool
    requires { (at k + stop_size ≤ length a.now) × (at l + stop_size ≤ length b.now) × (j ≤ k) }
    ensures { result ≡ parts_of a.now k b.now l j u v }
{
    if l <= j {
        return false;
    }
    if j < k {
        return fork(entry_at(a, j), u, entry_at(b, j), v);
    }
    halt(entry_at(a, j), beside_at(a, k), entry_at(b, j), v)
}

// Is the i-th entry a down one, or is it a right one?
// A flag, as `only_of` has it.
fn fits(s: &[u8], i: usize, downs: bool) -> bool
    requires { at i + entry_size ≤ length s.now }
    ensures { result ≡ cond (eqb (fields_at s.now i).kind down_kind) downs (not downs) }
{
    (entry_at(s, i).kind == DOWN) == downs
}

// Are the entries from..to all down entries, or all right ones?
// A flag, as `only_of` has it.
fn only(s: &[u8], from: usize, to: usize, downs: bool) -> bool
    requires { (from ≤ to) × (at to ≤ length s.now) }
    ensures { result ≡ only_of downs (entries_from s.now from (to - from)) }
{
    for i in from..to {
        if !fits(s, i, downs) {
            return false;
        }
    }
    true
}

// Below the parting the first has only right entries, the second only down entries.
// k and l count the entries; they are worked out once and handed down.
#[tactic(auto, unfolding(crate::specs::Parting::only_from))]
fn only_below(a: &[u8], k: usize, b: &[u8], l: usize, j: usize) -> bool
    requires { (at k ≤ length a.now) × (at l ≤ length b.now) × (j ≤ k) }
    ensures { result ≡ only_from a.now k b.now l j }
{
    only(a, (j + 1).min(k), k, false) && only(b, (j + 1).min(l), l, true)
}

// The two proofs meet.
#[inline(never)]
pub fn meet(a: &[u8], b: &[u8], j: usize, u: Side, v: Side) -> bool
    requires { (at (count_of a.now) + stop_size ≤ length a.now) × (at (count_of b.now) + stop_size ≤ length b.now)
        × (j ≤ count_of a.now) }
    ensures { result ≡ parts_of a.now (count_of a.now) b.now (count_of b.now) j u v
        && only_from a.now (count_of a.now) b.now (count_of b.now) j }
{
    let k = entry_count(a);
    let l = entry_count(b);
    parts(a, k, b, l, j, u, v) && only_below(a, k, b, l, j)
}

// Is the next entry, from below, the first's? At equal level the second's, a down one, is lower.
#[tactic(auto, unfolding(crate::specs::Parting::lower_of))]
fn lower(a: &[u8], f: usize, i: usize, b: &[u8], g: usize, j: usize) -> bool
    requires { (at i ≤ length a.now) × (at j ≤ length b.now) }
    ensures { result ≡ lower_of a.now f i b.now g j }
{
    f < i && (j <= g || entry_at(a, i - 1).level < entry_at(b, j - 1).level)
}

// The first's entries from f on and the second's from g on, by falling level, over t: from the lowest upwards.
// k and l count the entries; they are worked out once and handed down.
fn merge(a: &[u8], f: usize, k: usize, b: &[u8], g: usize, l: usize, t: Side) -> Side
    requires { (f ≤ k) × (g ≤ l) × (at k ≤ length a.now) × (at l ≤ length b.now)
        × Falls most_height (entries_from a.now 0 k) × Falls most_height (entries_from b.now 0 l) }
    ensures { result ≡ climbed (merge_is (entries_from a.now f (k - f))
        (entries_from b.now g (l - g))) t }
{
    let mut x = t;
    let mut i = k;
    let mut j = l;
    // A `while`: the two indices fall at different steps, so no range runs over both.
    while f + g < i + j {
        if lower(a, f, i, b, g, j) {
            i -= 1;
            x = push(a, i, Taken::All, x);
        } else {
            j -= 1;
            x = push(b, j, Taken::All, x);
        }
    }
    x
}

// What is left without the second's column: the shared entries over the merged ones over the first's stop leaf with
// the right side of the second's stop.
#[inline(never)]
pub fn remain(a: &[u8], b: &[u8], j: usize) -> Side
    requires { (at (count_of a.now) + stop_size ≤ length a.now) × (at (count_of b.now) + stop_size ≤ length b.now)
        × (j ≤ count_of a.now) × Falls most_height (entries_from a.now 0 (count_of a.now))
        × Falls most_height (entries_from b.now 0 (count_of b.now)) }
    ensures { result ≡ remains_of a.now (count_of a.now) b.now (count_of b.now) j }
{
    let k = entry_count(a);
    let l = entry_count(b);
    let e = entry_at(a, k);
    let c = beside_at(b, l);
    let t = labels::leaf(e.number, e.bytes, stop_side(c));
    let x = merge(a, (j + 1).min(k), k, b, (j + 1).min(l), l, t);
    fold(a, 0, j, Taken::All, x)
}
