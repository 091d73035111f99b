// Plans: what a joint proof is answered with, refusals and all, from the header and the heights alone. No label is made
// and no byte written.
ghost use Rattle.std.specs.Prelude.{◌≡◌, true, ◌+◌, ◌-◌, ◌≤◌, ◌<◌, length};
ghost use Rattle.skiplist.specs.Length.{tallest};
ghost use Rattle.archive.specs.Reading.{count_of};
ghost use Rattle.jointbytes.specs.Positions.{is_set, within};
ghost use Rattle.store.specs.Answers.{entries_at};
ghost use Rattle.store.specs.Passes.{run_of, proved_or};
ghost use Rattle.jointstore.specs.Answers.{joint_at, all_shallow, joint_of};
ghost use Rattle.jointstore.specs.Passes.{shared_at, Reaches, piece_at};

use archive::Image;
use jointbytes::{HEADER, SHARED, positions};
use proofbytes::{ENTRY, MOST_ENTRIES, STOP};
use refusals::Refusal;
use store::Proved;
use store::plan::Mark;

// The entries that the paths to columns p and q share: the right entries of the path to q past columns up to p, and the
// down entries above all columns between the two.
pub fn shared(image: Image<'_>, p: usize, q: usize) -> u64
    requires { (p < q) × (q ≤ count_of image.bytes.now) }
    ensures { (result ≡ shared_at image.entry.bytes.now p q)
        × (result ≤ entries_at image.entry.bytes.now q) }
{
    let none = Mark { level: 0, count: 0 };
    let between = store::plan::passing(image, none, p, q);
    let all = store::plan::passing(image, between, 0, p);
    all.count - between.count + store::plan::above(image, between.level, q)
}

// The greatest height of the columns after column p up to column q.
#[tactic(auto, using(crate::proofs::CountLaws::between_is))]
pub fn between(image: Image<'_>, p: usize, q: usize) -> u64
    requires { (p ≤ q) × (q ≤ count_of image.bytes.now) }
    ensures { result ≡ tallest (run_of image.entry.bytes.now p q) }
{
    store::plan::passing(image, Mark { level: 0, count: 0 }, p, q).level
}

// The last column before the first one after column q that is taller than a level.
pub fn reach(image: Image<'_>, level: u64, q: usize) -> usize
    requires { q ≤ count_of image.bytes.now }
    ensures { Reaches image.entry.bytes.now level q result }
{
    for e in q..image.count() {
        if level < image.height(e) {
            return e;
        }
    }
    image.count()
}

// The bytes of the proof of q after that of p.
#[tactic(auto, using(store::proofs::ProofLaws::counted, crate::proofs::PieceLaws::length_piece))]
fn piece(image: Image<'_>, p: usize, q: usize) -> u64
    requires { (p < q) × (q ≤ count_of image.bytes.now) }
    ensures { (result ≡ length (piece_at image.entry.bytes.now p q)) × (result < 1000000) }
{
    let c = shared(image, p, q);
    let k = store::plan::entries(image, q);
    (SHARED as u64) + (ENTRY as u64) * (k - c) + (STOP as u64)
}

// Not 6: no path has more than 200 entries.
fn shallow(image: Image<'_>, ps: &[u64]) -> bool
    requires { within (count_of image.bytes.now) ps.now ≡ true }
    ensures { result ≡ all_shallow image.entry.bytes.now ps.now }
{
    for p in ps {
        if (MOST_ENTRIES as u64) < store::plan::entries(image, *p as usize) {
            return false;
        }
    }
    true
}

// The length of the joint proof.
fn size(image: Image<'_>, ps: &[u64]) -> u64
    requires { (is_set ps.now ≡ true) × (within (count_of image.bytes.now) ps.now ≡ true) }
    ensures { result ≡ length (joint_at image.entry.bytes.now ps.now) }
{
    let k = store::plan::entries(image, ps[0] as usize);
    let mut t = (HEADER as u64) + (ENTRY as u64) * k + (STOP as u64);
    for i in 1..ps.len() {
        t += piece(image, ps[i - 1] as usize, ps[i] as usize);
    }
    t
}

// What is planned, or the first refusal that is due: 1, 13, 2, 6, 5.
#[tactic(auto, unfolding(crate::specs::Answers::joint_of, crate::specs::Answers::joint_verdict))]
fn planned(b: &[u8], ps: &[u64], room: u64, place: u64) -> Result<Proved, Refusal>
    ensures { proved_or result ≡ joint_of b.now ps.now room place }
{
    let image = Image::new(b).ok_or(Refusal::BadImage)?;
    if !positions::is_set(ps) {
        return Err(Refusal::BadSet);
    }
    if !positions::within(image.count() as u64, ps) {
        return Err(Refusal::BadPosition);
    }
    if !shallow(image, ps) {
        return Err(Refusal::TooDeep);
    }
    let size = size(image, ps);
    if !store::plan::fits(room, place, size) {
        return Err(Refusal::NoRoom);
    }
    Ok(Proved {
        verdict: Ok(()),
        length: size,
        entries: 0,
    })
}

// What is answered.
pub fn joint(b: &[u8], ps: &[u64], room: u64, place: u64) -> Proved
    ensures { result ≡ joint_of b.now ps.now room place }
{
    planned(b, ps, room, place).unwrap_or_else(store::plan::refused)
}
