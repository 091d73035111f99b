// Recomputing, from the stop upwards. Entries are read from the lent bytes each time, so no path is kept; one fold
// serves the whole path, a part of it, and the entries of one kind.
ghost use Rattle.std.specs.Prelude.{◌≡◌, false, cond, ◌+◌, ◌-◌, ◌≤◌, ◌<◌, eqb, length};
ghost use Rattle.skiplist.specs.Recompute.{push as pushed};
ghost use Rattle.labels.specs.CodeSides.{coded, node_of};
ghost use Rattle.proofbytes.specs.Layout.{entry_size, stop_size, down_kind};
ghost use Rattle.proofbytes.specs.Reading.{at, entry_of, entry_at, entries_from};
ghost use Rattle.gateway.specs.Climbing.{coding, climbed, taken, takes_downs, takes_rights, push_if};
ghost use Rattle.gateway.specs.Climbing.{stop_side_of, stop_leaf};

use labels::Side;
use proofbytes::DOWN;
use proofbytes::read::{Beside, Fields};

// Which entries a climb takes: all, those that go down, the others, or none.
#[derive(Clone, Copy, Debug, PartialEq, Eq)]
pub enum Taken {
    All,
    Downs,
    Rights,
    Nothing,
}

impl Taken {
    fn takes(self, kind: u8) -> bool
        ensures { result ≡ cond (eqb kind down_kind) (takes_downs self) (takes_rights self) }
    {
        match self {
            Taken::All => true,
            Taken::Downs => kind == DOWN,
            Taken::Rights => kind != DOWN,
            Taken::Nothing => false,
        }
    }
}

// A stop's right side: empty where its rank is 0.
// A function and no From: both types are other crates'.
pub fn stop_side(b: Beside) -> Side
    ensures { result ≡ stop_side_of b }
{
    if b.rank == 0 {
        labels::no_side()
    } else {
        // Named first: a literal takes no array straight from another value's field.
        let label = b.label;
        Side {
            rank: b.rank,
            label,
            empty: false,
        }
    }
}

// An entry that goes down, over t as the lower side. This and the next are apart so that their sides take the same stack.
fn push_down(e: Fields, t: Side) -> Side
    ensures { result ≡ node_of e.level t (record { rank = e.number; label = e.bytes; empty = false }) }
{
    // Named first: a literal takes no array straight from another value's field.
    let bytes = e.bytes;
    labels::node(
        e.level,
        t,
        Side {
            rank: e.number,
            label: bytes,
            empty: false,
        },
    )
}

// An entry that goes right at a level over 0, over t as the right side.
fn push_right(e: Fields, t: Side) -> Side
    ensures { result ≡ node_of e.level (record { rank = e.number; label = e.bytes; empty = false }) t }
{
    // Named first: a literal takes no array straight from another value's field.
    let bytes = e.bytes;
    labels::node(
        e.level,
        Side {
            rank: e.number,
            label: bytes,
            empty: false,
        },
        t,
    )
}

// An entry over the side t below it.
fn push_entry(e: Fields, t: Side) -> Side
    ensures { result ≡ pushed coded (coding (entry_of e)) t }
{
    // The bytes are named first: handed on straight they take more stack.
    let bytes = e.bytes;
    if e.kind == DOWN {
        return push_down(e, t);
    }
    if e.level == 0 {
        return labels::leaf(e.number, bytes, t);
    }
    push_right(e, t)
}

// The i-th entry over t, where it is of a kind to take.
#[inline(never)]
pub fn push(s: &[u8], i: usize, which: Taken, t: Side) -> Side
    requires { at i + entry_size ≤ length s.now }
    ensures { result ≡ push_if (takes_downs which) (takes_rights which) (entry_at s.now i) t }
{
    let e = proofbytes::read::entry_at(s, i);
    if which.takes(e.kind) {
        push_entry(e, t)
    } else {
        t
    }
}

// The entries from..to over t, from the last upwards, where they are of a kind to take.
pub fn fold(s: &[u8], from: usize, to: usize, which: Taken, t: Side) -> Side
    requires { (from ≤ to) × (at to ≤ length s.now) }
    ensures { result ≡ climbed (taken (takes_downs which) (takes_rights which) (entries_from s.now from (to - from))) t }
{
    let mut a = t;
    for i in (from..to).rev() {
        a = push(s, i, which, a);
    }
    a
}

// The leaf of the stop after k entries.
// k counts the entries; it is worked out once and handed down.
#[inline(never)]
pub fn stop_leaf(s: &[u8], k: usize) -> Side
    requires { at k + stop_size ≤ length s.now }
    ensures { result ≡ stop_leaf s.now k }
{
    let e = proofbytes::read::entry_at(s, k);
    let b = proofbytes::read::beside_at(s, k);
    labels::leaf(e.number, e.bytes, stop_side(b))
}
