// The check of one proof: 7, 8 and 9. Nothing is hashed before 7 and 8 pass and the proved rank, a sum, is the count;
// so every rank that is recomputed is at most the count. Then the label is recomputed from the stop upwards, and what
// stands below a given place is kept on the way.
ghost use Rattle.std.specs.Prelude.{◌≡◌, ◌≤◌, eqb};
ghost use Rattle.skiplist.specs.Find.{own_at};
ghost use Rattle.skiplist.specs.Limits.{most_blocks};
ghost use Rattle.proofbytes.specs.Reading.{Sized};
ghost use Rattle.gateway.specs.Working.{screened_of, recomputed_of, examined_of};

use crate::climb::{Taken, fold, stop_leaf};
use commands::Metadata;
use labels::Side;
use proofbytes::read::Proven;

// What is wrong with a proof: 7, 8, 9.
#[derive(Clone, Copy, Debug, PartialEq, Eq)]
pub enum Fault {
    Misread,
    Misplaced,
    Mislabelled,
}

// The stop's own is 1, and 0 for position 0.
// own is a number, as the bytes have it.
fn own_fits(own: u64, p: u64) -> bool
    ensures { result ≡ eqb own (own_at p) }
{
    if p == 0 { own == 0 } else { own == 1 }
}

// What is found without hashing: form, position, rank.
pub fn screen(s: &[u8], p: u64, m: Metadata) -> Result<(), Fault>
    ensures { result ≡ screened_of s.now p m }
{
    let Proven { position, rank } = proofbytes::read::form(s).ok_or(Fault::Misread)?;
    if position != p {
        return Err(Fault::Misplaced);
    }
    let e = proofbytes::read::entry_at(s, proofbytes::read::entry_count(s));
    if !own_fits(e.number, p) {
        return Err(Fault::Misplaced);
    }
    if rank != m.count {
        return Err(Fault::Mislabelled);
    }
    Ok(())
}

// The root's label against the one held, for bytes that passed the screen; what is recomputed below the first f
// entries is kept.
fn recompute(s: &[u8], m: Metadata, f: usize) -> Result<Side, Fault>
    requires { Sized s.now }
    ensures { result ≡ recomputed_of s.now m f }
{
    let k = proofbytes::read::entry_count(s);
    let at = f.min(k);
    let below = fold(s, at, k, Taken::All, stop_leaf(s, k));
    let root = fold(s, 0, at, Taken::All, below);
    // The labels are named first: compared as fields they take more stack.
    let label = root.label;
    let held = m.label;
    if label == held {
        Ok(below)
    } else {
        Err(Fault::Mislabelled)
    }
}

// One proof for position p against m, and what it recomputes below its first f entries.
// Metadata, position and proof are what a command brings; nothing binds them before this check.
pub fn examine(s: &[u8], p: u64, m: Metadata, f: usize) -> Result<Side, Fault>
    requires { m.count ≤ most_blocks }
    ensures { result ≡ examined_of s.now p m f }
{
    screen(s, p, m)?;
    recompute(s, m, f)
}
