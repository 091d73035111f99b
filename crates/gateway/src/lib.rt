//! The gateway: metadata saved and loaded, and the check of a command with its proofs.
#![tactic(auto)]

ghost use Rattle.std.specs.Prelude.{◌≡◌, true, [], ◌+◌, ◌≤◌, Ok};
ghost use Rattle.refusals.specs.Order.{verdict_of};
ghost use Rattle.skiplist.specs.Limits.{most_blocks};
ghost use Rattle.skiplist.specs.Recompute.{proved_rank};
ghost use Rattle.skiplist.specs.Blocks.{shown as shown_is};
ghost use Rattle.skiplist.specs.Commands.{repeats_at};
ghost use Rattle.commands.specs.declared.Operation.TheVariants.{Insert};
ghost use Rattle.proofbytes.specs.Reading.{Sized, place_of};
ghost use Rattle.proofbytes.specs.Form.{well_formed};
ghost use Rattle.gateway.specs.Checking.{𝓢};
ghost use Rattle.gateway.specs.Working.{finding_of, refusal_of, blamed};
ghost use Rattle.gateway.specs.Gateway.{opening_rules, accepted_of, replaced_of};
ghost use Rattle.gateway.specs.Working.{metadata_from, refused_of, answer_with};
ghost use Rattle.gateway.specs.Gateway.{later_rules, inserted_of, gateway_of, Checks};
ghost use Rattle.gateway.specs.Working.{one_of, deleted_of, worked_of};

use crate::examine::Fault;
use commands::{Command, MOST_BLOCKS, Metadata, Operation};
use labels::Side;
use refusals::{Refusal, Verdict, Which};

pub mod climb;
pub mod examine;
mod meeting;
mod predict;
pub mod saved;

// What the gateway answers: the tag at the command's position before the edit, and the new metadata.
// A struct and no Result: a refusal gives back the metadata that was given.
#[derive(Clone, Copy)]
pub struct Answer {
    pub verdict: Verdict,
    pub tag: [u8; 32],
    pub metadata: Metadata,
}

// What a command gives that is accepted: the tag at its position before the edit, and the new metadata.
#[derive(Clone, Copy)]
struct Accepted {
    tag: [u8; 32],
    metadata: Metadata,
}

// A refusal returns the metadata given and a zero tag.
pub fn refused(m: Metadata, why: Refusal) -> Answer
    ensures { result ≡ refused_of m why }
{
    Answer {
        verdict: Err(why),
        tag: [0u8; 32],
        metadata: m,
    }
}

impl From<Accepted> for Answer {
    ghost from_gives = { λ a r. r ≡ accepted_of a.tag a.metadata };

    fn from(a: Accepted) -> Answer {
        // Named first: a literal takes no array straight from another value's field.
        let tag = a.tag;
        Answer {
            verdict: Ok(()),
            tag,
            metadata: a.metadata,
        }
    }
}

// 7, 8 and 9 with the proof that they speak of.
// A function and no From: the proof is told beside the fault.
pub fn refusal(f: Fault, w: Which) -> Refusal
    ensures { result ≡ refusal_of w f }
{
    match f {
        Fault::Misread => Refusal::BadProof(w),
        Fault::Misplaced => Refusal::WrongPosition(w),
        Fault::Mislabelled => Refusal::WrongLabel(w),
    }
}

// What is found of one proof, as a verdict that says which proof.
pub fn blame(found: Result<(), Fault>, w: Which) -> Verdict
    ensures { result ≡ blamed w found }
{
    match found {
        Ok(()) => Ok(()),
        Err(f) => Err(refusal(f, w)),
    }
}

// The tag at the stop: zeros where own is 0.
#[inline(never)]
pub fn shown(s: &[u8]) -> [u8; 32]
    requires { Sized s.now }
    ensures { result ≡ shown_is (place_of s.now).item }
{
    let e = proofbytes::read::entry_at(s, proofbytes::read::entry_count(s));
    // The zeros are returned at once: as two values of one `if` the tags take more stack.
    if e.number == 0 {
        return [0u8; 32];
    }
    e.bytes
}

// A root's count and label.
// A function and no From: both types are other crates'.
fn metadata_of(x: Side) -> Metadata
    ensures { result ≡ metadata_from x }
{
    // Named first: a literal takes no array straight from another value's field.
    let label = x.label;
    Metadata {
        count: x.rank,
        label,
    }
}

// The checks of one proof, for position p.
// Metadata itself may hold any count, since a refusal gives back what was given; so the limit is asked for here.
#[inline(never)]
pub fn proof_verdict(w: Which, m: Metadata, p: u64, s: &[u8]) -> Verdict
    requires { m.count ≤ most_blocks }
    ensures { result ≡ blamed w (finding_of s.now p m) }
{
    blame(examine::examine(s, p, m, 0).and(Ok(())), w)
}

// "Read p: reports the tag, metadata stays."
#[inline(never)]
fn read(m: Metadata, p: u64, s: &[u8]) -> Result<Accepted, Refusal>
    requires { m.count ≤ most_blocks }
    ensures { answer_with m result ≡ one_of m p s.now [] m }
{
    proof_verdict(Which::First, m, p, s)?;
    Ok(Accepted {
        tag: shown(s),
        metadata: m,
    })
}

// "Replace p by a tag": the new tag in the stop.
#[inline(never)]
fn replace(m: Metadata, p: u64, tag: [u8; 32], s: &[u8]) -> Result<Accepted, Refusal>
    requires { m.count ≤ most_blocks }
    ensures { answer_with m result ≡ one_of m p s.now [] (replaced_of tag s.now) }
{
    proof_verdict(Which::First, m, p, s)?;
    let x = predict::replace(s, tag);
    Ok(Accepted {
        tag: shown(s),
        metadata: metadata_of(x),
    })
}

// Insert's answer from a proof that passed.
pub fn inserted(height: u8, tag: [u8; 32], s: &[u8]) -> Answer
    requires { (well_formed s.now ≡ true) × (proved_rank 𝓢 (place_of s.now) ≤ most_blocks) }
    ensures { result ≡ accepted_of (shown_is (place_of s.now).item) (inserted_of height tag s.now) }
{
    let x = predict::insert(s, height, tag);
    let a = Accepted {
        tag: shown(s),
        metadata: metadata_of(x),
    };
    a.into()
}

// 14: does the tag stand at p already, where its proof stops?
// A function of its own: in `insert`'s own body the tag that it reads takes 32 bytes more of the check's 2,048.
fn stands_at(p: u64, tag: [u8; 32], s: &[u8]) -> bool
    requires { Sized s.now }
    ensures { result ≡ repeats_at p tag (shown_is (place_of s.now).item) }
{
    commands::repeated(p, tag, shown(s))
}

// "Insert after p a tag with a height": not the tag at p.
#[inline(never)]
fn insert(m: Metadata, p: u64, height: u8, tag: [u8; 32], s: &[u8]) -> Result<Accepted, Refusal>
    requires { m.count ≤ most_blocks }
    ensures { answer_with m result ≡ one_of m p s.now (later_rules Insert m p tag s.now [])
        (inserted_of height tag s.now) }
{
    proof_verdict(Which::First, m, p, s)?;
    if stands_at(p, tag, s) {
        return Err(Refusal::Repeated);
    }
    let Answer {
        verdict: _,
        tag,
        metadata,
    } = inserted(height, tag, s);
    Ok(Accepted { tag, metadata })
}

// "Delete p: two proofs, first for p - 1, second for p." The parting is found by bytes first, so that what is
// recomputed below it can be kept.
#[inline(never)]
fn delete(m: Metadata, p: u64, a: &[u8], b: &[u8]) -> Result<Accepted, Refusal>
    requires { (m.count ≤ most_blocks) × (1 ≤ p) }
    ensures { answer_with m result ≡ deleted_of m p a.now b.now }
{
    let j = meeting::shared(a, b);
    let u = examine::examine(a, p - 1, m, j + 1).map_err(|f| refusal(f, Which::First))?;
    let y = examine::examine(b, p, m, j + 1);
    let f = y.and(Ok(()));
    blame(f, Which::Second)?;
    let v = y.unwrap_or(labels::no_side());
    if !meeting::meet(a, b, j, u, v) {
        return Err(Refusal::NotNeighbours);
    }
    let rest = meeting::remain(a, b, j);
    Ok(Accepted {
        tag: shown(b),
        metadata: metadata_of(rest),
    })
}

fn work(m: Metadata, k: Command, first: &[u8], second: &[u8]) -> Result<Accepted, Refusal>
    requires { verdict_of (opening_rules m k) ≡ Ok tt }
    ensures { answer_with m result ≡ worked_of m k first.now second.now }
{
    // The fields are named first: handed on straight they take more stack.
    let o = k.operation;
    let p = k.position;
    let tag = k.tag;
    match o {
        Operation::Read => read(m, p, first),
        Operation::Replace => replace(m, p, tag, first),
        Operation::Insert => insert(m, p, k.height, tag, first),
        Operation::Delete => delete(m, p, first, second),
    }
}

// The checks before any proof is looked at: 12, 2, 3, 4.
pub fn opened(m: Metadata, k: Command) -> Verdict
    ensures { result ≡ verdict_of (opening_rules m k) }
{
    if MOST_BLOCKS < m.count {
        return Err(Refusal::BadMetadata);
    }
    commands::admitted(k, m.count)
}

// The checks in their order, and what the command gives where none refuses.
fn checked(m: Metadata, k: Command, first: &[u8], second: &[u8]) -> Result<Accepted, Refusal>
    ensures { answer_with m result ≡ gateway_of m k first.now second.now }
{
    opened(m, k)?;
    work(m, k, first, second)
}

// The gateway's check of a command. What rides along is not looked at: a height with another command than Insert, a
// second proof with another than Delete.
pub fn check(m: Metadata, k: Command, first: &[u8], second: &[u8]) -> Answer
    ensures { Checks m k first.now second.now result }
{
    match checked(m, k, first, second) {
        Ok(a) => a.into(),
        Err(why) => refused(m, why),
    }
}
