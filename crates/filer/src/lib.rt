//! The late filer: a block filed by its time. The store proposes a place p and shows the blocks at p and p + 1 with their proofs; the
//! filer inserts after p only where they stand in the archive and the new time belongs between theirs.
#![tactic(auto)]

ghost use Rattle.std.specs.Prelude.{◌≡◌, false, not, ◌&&◌, ◌≤◌, ltb};
ghost use Rattle.refusals.specs.Order.{verdict_of};
ghost use Rattle.skiplist.specs.Limits.{most_blocks};
ghost use Rattle.proofbytes.specs.Reading.{Sized};
ghost use Rattle.filer.specs.Filing.{either as either_is, is_long, long_of, second_rules, matched, wrong_of, untimely};
ghost use Rattle.filer.specs.Filing.{neighbour_rules, filed_of, Files};
ghost use Rattle.filer.specs.Filing.{timed, proposed};
ghost use Rattle.filer.specs.Working.{command_of, Shown, after_first, answer_with, worked_of};

use commands::{Command, Metadata, Operation};
use gateway::Answer;
use labels::MOST_READINGS;
use refusals::{Refusal, Verdict, Which};

// The place that the store proposes, the new block's height and time, and the times of the blocks at the place and after it.
#[derive(Clone, Copy)]
pub struct Filing {
    pub position: u64,
    pub height: u8,
    pub time: u32,
    pub left: u32,
    pub right: u32,
}

// A neighbour as it is shown: a block with its time, and its proof.
#[derive(Clone, Copy)]
struct Neighbour<'a> {
    time: u32,
    readings: &'a [u8],
    proof: &'a [u8],
}

// Does a neighbour fail that is needed, the left one where p is at least 1, the right one where p is less than n?
fn either(p: u64, n: u64, left: bool, right: bool) -> bool
    ensures { result ≡ either_is p n «left» «right» }
{
    (0 < p && left) || (p < n && right)
}

// 11: is the new block too long, or a neighbour that is needed?
fn long(p: u64, n: u64, readings: &[u8], left: &[u8], right: &[u8]) -> bool
    ensures { result ≡ long_of p n readings.now left.now right.now }
{
    MOST_READINGS < readings.len()
        || either(
            p,
            n,
            MOST_READINGS < left.len(),
            MOST_READINGS < right.len(),
        )
}

// Insert, as the filing names it.
// A function and no From: the tag is worked out beside the filing.
fn command(f: Filing, tag: [u8; 32]) -> Command
    ensures { result ≡ command_of f tag }
{
    Command {
        operation: Operation::Insert,
        position: f.position,
        height: f.height,
        tag,
    }
}

// 7, 8, 9 of the second proof, where there is a block after p.
#[tactic(auto, using(crate::proofs::Answers::second_looked))]
fn second_verdict(m: Metadata, p: u64, second: &[u8]) -> Verdict
    requires { m.count ≤ most_blocks }
    ensures { result ≡ verdict_of (second_rules m p second.now) }
{
    if p < m.count {
        gateway::proof_verdict(Which::Second, m, p + 1, second)
    } else {
        Ok(())
    }
}

// Is a block that is needed not the one whose tag its proof shows? What is not needed is not hashed.
// Its readings are not too long, so the match itself is never refused.
#[tactic(auto, using(crate::proofs::Answers::unmatched_is))]
fn unmatched(needed: bool, x: Neighbour) -> bool
    requires { Shown «needed» x.readings.now x.proof.now }
    ensures { result ≡ «needed» && not (matched (timed x.entry.time x.entry.readings.now) x.entry.proof.now) }
{
    needed && !labels::matches(gateway::shown(x.proof), x.time, x.readings).yes
}

// 16: does a neighbour that is needed not match its tag?
fn wrong(p: u64, n: u64, left: Neighbour, right: Neighbour) -> bool
    requires { Shown (ltb 0 p) left.readings.now left.proof.now × Shown (ltb p n) right.readings.now right.proof.now }
    ensures { result ≡ wrong_of p n (timed left.entry.time left.entry.readings.now) (timed right.entry.time right.entry.readings.now)
        left.entry.proof.now right.entry.proof.now }
{
    unmatched(0 < p, left) || unmatched(p < n, right)
}

// 15: is the new time before that of the left neighbour, or not before that of the right one?
fn out_of_time(p: u64, n: u64, time: u32, left: u32, right: u32) -> bool
    ensures { result ≡ untimely p n time left right }
{
    either(p, n, time < left, right <= time)
}

// 16 and 15, once both proofs have passed.
fn neighbours_verdict(p: u64, n: u64, time: u32, left: Neighbour, right: Neighbour) -> Verdict
    requires { Shown (ltb 0 p) left.readings.now left.proof.now × Shown (ltb p n) right.readings.now right.proof.now }
    ensures { result ≡ verdict_of (neighbour_rules p n time (timed left.entry.time left.entry.readings.now)
        (timed right.entry.time right.entry.readings.now) left.entry.proof.now right.entry.proof.now) }
{
    if wrong(p, n, left, right) {
        return Err(Refusal::WrongBlock);
    }
    if out_of_time(p, n, time, left.time, right.time) {
        return Err(Refusal::OutOfTime);
    }
    Ok(())
}

// 14, the second proof, 16 and 15, once the first proof has passed.
fn later_verdict(
    m: Metadata,
    p: u64,
    time: u32,
    tag: [u8; 32],
    left: Neighbour,
    right: Neighbour,
) -> Verdict
    requires { (m.count ≤ most_blocks) × Sized left.proof.now
        × (either_is p m.count (is_long left.readings.now) (is_long right.readings.now) ≡ false) }
    ensures { result ≡ verdict_of (after_first m p time tag (timed left.entry.time left.entry.readings.now)
        (timed right.entry.time right.entry.readings.now) left.entry.proof.now right.entry.proof.now) }
{
    if commands::repeated(p, tag, gateway::shown(left.proof)) {
        return Err(Refusal::Repeated);
    }
    second_verdict(m, p, right.proof)?;
    neighbours_verdict(p, m.count, time, left, right)
}

// From the first proof on. The new block's tag is worked out once that has passed.
fn work(
    m: Metadata,
    f: Filing,
    readings: &[u8],
    left: &[u8],
    right: &[u8],
    first: &[u8],
    second: &[u8],
) -> Result<Answer, Refusal>
    requires { (m.count ≤ most_blocks) × (long_of f.position m.count readings.now left.now right.now ≡ false) }
    ensures { answer_with m result ≡ worked_of m (proposed f readings.now left.now right.now)
        first.now second.now }
{
    gateway::proof_verdict(Which::First, m, f.position, first)?;
    let tag = labels::tag(f.time, readings).tag;
    let left = Neighbour {
        time: f.left,
        readings: left,
        proof: first,
    };
    let right = Neighbour {
        time: f.right,
        readings: right,
        proof: second,
    };
    later_verdict(m, f.position, f.time, tag, left, right)?;
    Ok(gateway::inserted(f.height, tag, first))
}

// The checks in their order, and Insert's answer where none refuses.
fn filed(
    m: Metadata,
    f: Filing,
    readings: &[u8],
    left: &[u8],
    right: &[u8],
    first: &[u8],
    second: &[u8],
) -> Result<Answer, Refusal>
    ensures { answer_with m result ≡ filed_of m (proposed f readings.now left.now right.now)
        first.now second.now }
{
    if long(f.position, m.count, readings, left, right) {
        return Err(Refusal::LongMessage);
    }
    gateway::opened(m, command(f, [0u8; 32]))?;
    work(m, f, readings, left, right, first, second)
}

// Files a block by its time: Insert after the place that the store proposes. A neighbour that is not there, at position 0 or after the
// end, is not looked at, nor is its proof.
// The parameters are those that C passes.
pub fn file(
    m: Metadata,
    f: Filing,
    readings: &[u8],
    left: &[u8],
    right: &[u8],
    first: &[u8],
    second: &[u8],
) -> Answer
    ensures { Files m (proposed f readings.now left.now right.now) first.now
        second.now result }
{
    match filed(m, f, readings, left, right, first, second) {
        Ok(a) => a,
        Err(why) => gateway::refused(m, why),
    }
}
