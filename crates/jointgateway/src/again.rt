// A proof checked over the entries that it shares with the one before, which passed. Where it recomputes the same side below them, its root
// is the one before's and nothing above is hashed again; otherwise all of it is, as for a single proof. The answer is the same.
ghost use Rattle.std.specs.Prelude.{◌≡◌, true, ◌≤◌, length};
ghost use Rattle.skiplist.specs.Limits.{most_blocks};
ghost use Rattle.proofbytes.specs.Reading.{at, Sized, count_of, entries_from};
ghost use Rattle.gateway.specs.Climbing.{climbed};
ghost use Rattle.gateway.specs.Working.{recomputed_of, examined_of};
ghost use Rattle.jointgateway.specs.Working.{settled_of, KeptIn};

use commands::Metadata;
use gateway::climb::{Taken, fold, stop_leaf};
use gateway::examine::Fault;
use labels::Side;

#[tactic(auto, using(crate::proofs::AgainLaws::side_is))]
fn same_side(a: Side, b: Side) -> bool
    ensures { result ≡ true → a ≡ b }
{
    !a.empty && !b.empty && a.rank == b.rank && a.label == b.label
}

// What the proof before left is handed from step to step; nothing else is made of it.
// x stands below the first c entries, and so does t, which leads to the label held.
fn settle(w: &[u8], m: Metadata, c: usize, t: Side, x: Side, u: Side) -> Result<Side, Fault>
    requires { (at c ≤ length w.now) × ((climbed (entries_from w.now 0 c) t).label ≡ m.label) }
    ensures { result ≡ settled_of w.now m c x u }
{
    if same_side(x, t) {
        return Ok(u);
    }
    let root = fold(w, 0, c, Taken::All, x);
    if root.label == m.label {
        Ok(u)
    } else {
        Err(Fault::Mislabelled)
    }
}

// The label, for bytes that passed the screen; what is recomputed below the first f entries is kept.
fn recompute(w: &[u8], m: Metadata, c: usize, t: Side, f: usize) -> Result<Side, Fault>
    requires { Sized w.now × (c ≤ count_of w.now) × ((climbed (entries_from w.now 0 c) t).label ≡ m.label) }
    ensures { result ≡ recomputed_of w.now m f }
{
    let k = proofbytes::read::entry_count(w);
    let at = f.min(k);
    if c <= at {
        let u = fold(w, at, k, Taken::All, stop_leaf(w, k));
        return settle(w, m, c, t, fold(w, c, at, Taken::All, u), u);
    }
    let x = fold(w, c, k, Taken::All, stop_leaf(w, k));
    settle(w, m, c, t, x, fold(w, at, c, Taken::All, x))
}

// What is found of a proof w that shares c entries, over which t leads to the label held.
fn again(w: &[u8], p: u64, m: Metadata, c: usize, t: Side, f: usize) -> Result<Side, Fault>
    requires { (m.count ≤ most_blocks) × (c ≤ count_of w.now) × ((climbed (entries_from w.now 0 c) t).label ≡ m.label) }
    ensures { result ≡ examined_of w.now p m f }
{
    gateway::examine::screen(w, p, m)?;
    recompute(w, m, c, t, f)
}

// What is found of the i-th proof, spelled out in w.
pub fn look(
    w: &[u8],
    i: usize,
    p: u64,
    m: Metadata,
    c: usize,
    t: Side,
    f: usize,
) -> Result<Side, Fault>
    requires { (m.count ≤ most_blocks) × KeptIn w.now m i c t }
    ensures { result ≡ examined_of w.now p m f }
{
    if i == 0 {
        gateway::examine::examine(w, p, m, f)
    } else {
        again(w, p, m, c, t, f)
    }
}
