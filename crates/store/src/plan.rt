// Plans: what Prove and Apply answer, refusals and all, from the header and the heights alone. No label is made and no
// byte written.
ghost use Rattle.std.specs.Prelude.{◌≡◌, ◌+◌, ◌-◌, ◌≤◌, ◌<◌, leb, length, Err};
ghost use Rattle.skiplist.specs.Limits.{most_blocks};
ghost use Rattle.skiplist.specs.Length.{down_columns};
ghost use Rattle.skiplist.specs.Commands.{repeats as repeats_is};
ghost use Rattle.commands.specs.Admission.{least_of};
ghost use Rattle.commands.specs.Meaning.{meaning};
ghost use Rattle.archive.specs.Reading.{count_of, blocks_of};
ghost use Rattle.store.specs.Answers.{prove_of, apply_of};
ghost use Rattle.store.specs.Passes.{run_of, marked, risen, onto, count_at, nearest, refused_proof, refused_edit};
ghost use Rattle.store.specs.Passes.{proved_or, applied_or, count_after};

use crate::{Applied, Proved, runs};
use archive::Image;
use commands::{Command, Operation};
use proofbytes::{ENTRY, LEAST_PROOF, MOST_ENTRIES};
use refusals::Refusal;

// A height, and the number of columns that have an entry.
#[derive(Clone, Copy)]
pub struct Mark {
    pub level: u64,
    pub count: u64,
}

// From the right: a column with no taller one after it has a right entry.
// It and the next treat equal heights differently.
fn passed(m: Mark, h: u64) -> Mark
    requires { m.count < 4294967296 }
    ensures { (result ≡ marked m h) × (result.count ≤ m.count + 1) }
{
    if h < m.level {
        m
    } else {
        Mark {
            level: h,
            count: m.count + 1,
        }
    }
}

// From the left: a column taller than all before it has a down entry.
fn climbed(m: Mark, h: u64) -> Mark
    requires { m.count < 4294967296 }
    ensures { (result ≡ risen m h) × (result.count ≤ m.count + 1) }
{
    if m.level < h {
        Mark {
            level: h,
            count: m.count + 1,
        }
    } else {
        m
    }
}

// From the right: the mark m goes on over the columns after column `to` up to column `from`.
#[tactic(auto, using(crate::proofs::PlanLaws::onto_none))]
pub fn passing(image: Image<'_>, m: Mark, to: usize, from: usize) -> Mark
    requires { (to ≤ from) × (from ≤ count_of image.bytes.now) × (m.count ≤ count_of image.bytes.now) }
    ensures { (result ≡ onto m (run_of image.entry.bytes.now to from)) × (m.count ≤ result.count)
        × (result.count ≤ m.count + (from - to)) }
{
    let mut t = m;
    for j in (to..from).rev() {
        t = passed(t, image.height(j));
    }
    t
}

// From the left: the columns after column `from` that are above a level and taller than all before them.
#[tactic(auto, using(crate::proofs::PlanLaws::climbs))]
pub fn above(image: Image<'_>, level: u64, from: usize) -> u64
    requires { from ≤ count_of image.bytes.now }
    ensures { (result ≡ length (down_columns level
        (run_of image.entry.bytes.now from (count_of image.entry.bytes.now))))
        × (result ≤ count_of image.entry.bytes.now - from) }
{
    let mut m = Mark { level, count: 0 };
    for j in from..image.count() {
        m = climbed(m, image.height(j));
    }
    m.count
}

// The number of entries in the path to column p: the right ones past columns up to p, and the down ones.
#[tactic(auto, using(crate::proofs::PlanLaws::marks))]
pub fn entries(image: Image<'_>, p: usize) -> u64
    requires { p ≤ count_of image.bytes.now }
    ensures { (result ≡ count_at image.entry.bytes.now (count_of image.entry.bytes.now) p)
        × (result ≤ count_of image.entry.bytes.now) }
{
    let none = Mark { level: 0, count: 0 };
    let m = passing(image, none, 0, p);
    m.count + above(image, 0, p)
}

// The nearest column at or before column m whose height is at least h, or the head.
#[tactic(auto, using(crate::proofs::PlanLaws::nearer))]
pub fn anchor(image: Image<'_>, h: u64, m: usize) -> usize
    requires { m ≤ count_of image.bytes.now }
    ensures { result ≡ nearest image.entry.bytes.now h m }
{
    for i in (0..m).rev() {
        if h <= image.height(i) {
            return i + 1;
        }
    }
    0
}

// Do `size` bytes from `place` on end within the room? No sum, so none can wrap.
pub fn fits(room: u64, place: u64, size: u64) -> bool
    ensures { result ≡ leb (place + size) room }
{
    place <= room && size <= room - place
}

pub fn refused(r: Refusal) -> Proved
    ensures { result ≡ refused_proof r }
{
    Proved {
        verdict: Err(r),
        length: 0,
        entries: 0,
    }
}

// What is planned for Prove, or the first refusal that is due: "Prove: 1, 2, 6, 5."
#[tactic(auto, using(crate::proofs::ProofLaws::counted), unfolding(crate::specs::Answers::prove_of, crate::specs::Answers::prove_verdict))]
fn planned_proof(b: &[u8], position: u64, room: u64, place: u64) -> Result<Proved, Refusal>
    ensures { proved_or result ≡ prove_of b.now position room place }
{
    let image = Image::new(b).ok_or(Refusal::BadImage)?;
    if (image.count() as u64) < position {
        return Err(Refusal::BadPosition);
    }
    let k = entries(image, position as usize);
    if (MOST_ENTRIES as u64) < k {
        return Err(Refusal::TooDeep);
    }
    let size = (LEAST_PROOF as u64) + (ENTRY as u64) * k;
    if !fits(room, place, size) {
        return Err(Refusal::NoRoom);
    }
    Ok(Proved {
        verdict: Ok(()),
        length: size,
        entries: k,
    })
}

// What Prove answers.
pub fn proof(b: &[u8], position: u64, room: u64, place: u64) -> Proved
    ensures { result ≡ prove_of b.now position room place }
{
    planned_proof(b, position, room, place).unwrap_or_else(refused)
}

// The count that an operation leaves of n blocks.
fn count_after(o: Operation, n: u64) -> u64
    requires { (least_of o ≤ n) × (n ≤ most_blocks) }
    ensures { result ≡ count_after o n }
{
    match o {
        Operation::Read | Operation::Replace => n,
        Operation::Insert => n + 1,
        Operation::Delete => n - 1,
    }
}

// Does the command repeat the tag at its position? Insert alone can.
#[tactic(auto, using(crate::proofs::RunLaws::tag_is))]
fn repeats(image: Image<'_>, k: Command) -> bool
    requires { k.position ≤ count_of image.bytes.now }
    ensures { result ≡ repeats_is (meaning k) (blocks_of image.entry.bytes.now) }
{
    match k.operation {
        Operation::Insert => commands::repeated(
            k.position,
            k.tag,
            runs::tag(image, k.position as usize),
        ),
        Operation::Read | Operation::Replace | Operation::Delete => false,
    }
}

fn refused_edit(r: Refusal) -> Applied
    ensures { result ≡ refused_edit (Err r) }
{
    Applied {
        verdict: Err(r),
        count: 0,
    }
}

// What is planned for Apply, or the first refusal that is due: 1, 2, 3, 4, 14, 5.
#[tactic(auto, using(crate::proofs::ApplyLaws::planning), unfolding(crate::specs::Answers::apply_of, crate::specs::Answers::apply_verdict))]
fn planned_edit(b: &[u8], k: Command) -> Result<Applied, Refusal>
    ensures { applied_or result ≡ apply_of b.now k }
{
    let image = Image::new(b).ok_or(Refusal::BadImage)?;
    let n = image.count() as u64;
    commands::admitted(k, n)?;
    if repeats(image, k) {
        return Err(Refusal::Repeated);
    }
    let m = count_after(k.operation, n);
    if b.len() < archive::place(image.layout(), m as usize) {
        return Err(Refusal::NoRoom);
    }
    Ok(Applied {
        verdict: Ok(()),
        count: m,
    })
}

// What Apply answers.
pub fn edit(b: &[u8], k: Command) -> Applied
    ensures { result ≡ apply_of b.now k }
{
    planned_edit(b, k).unwrap_or_else(refused_edit)
}
