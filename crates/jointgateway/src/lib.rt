//! The gateway's check of a joint proof. Each proof is spelled out in one work buffer over the one before, whose shared entries stay where
//! they are, and is then checked as a single one.
#![tactic(auto)]

ghost use Rattle.std.specs.Prelude.{◌≡◌, true, ◌+◌, ◌-◌, ◌*◌, ◌≤◌, ◌<◌, length, IsOk};
ghost use Rattle.octets.specs.Runs.{patch, part};
ghost use Rattle.refusals.specs.Order.{verdict_of};
ghost use Rattle.skiplist.specs.Limits.{most_blocks, digest_bytes};
ghost use Rattle.skiplist.specs.Blocks.{shown};
ghost use Rattle.proofbytes.specs.Layout.{most_entries, rest_size};
ghost use Rattle.proofbytes.specs.Writing.{header_bytes};
ghost use Rattle.proofbytes.specs.Reading.{at, place_of};
ghost use Rattle.jointbytes.specs.Layout.{joint_header};
ghost use Rattle.jointbytes.specs.Reading.{end_of, piece_of};
ghost use Rattle.jointbytes.specs.Working.{Stands};
ghost use Rattle.jointbytes.specs.Positions.{is_set};
ghost use Rattle.jointbytes.specs.Form.{joint_fits};
ghost use Rattle.gateway.specs.Working.{examined_of};
ghost use Rattle.jointgateway.specs.Joint.{proof_at, place_rules, tags_of, no_tags, joint_of, Checks};
ghost use Rattle.jointgateway.specs.Working.{room, Spelled, Before, Kept, refused_of, answer_with};

use commands::{MOST_BLOCKS, Metadata};
use gateway::examine::Fault;
use jointbytes::read::Piece;
use labels::Side;
use proofbytes::{ENTRY, HEADER, MOST_ENTRIES, STOP};
use refusals::{Refusal, Verdict, Which};

mod again;

const ROOM: usize = 7677;

const TAG: usize = 32;

const TAGS: usize = 1024;

// The tags in the order of the positions, `number` of them; what is not used is zero.
// A struct and no Result: a refusal gives back the metadata that was given.
// A number beside 1,024 bytes: nothing here takes memory of its own.
#[derive(Clone, Copy)]
pub struct Answer {
    pub verdict: Verdict,
    pub number: u64,
    pub tags: [u8; TAGS],
    pub metadata: Metadata,
}

// A refusal returns the metadata given and no tag.
fn refused(m: Metadata, why: Refusal) -> Answer
    ensures { result ≡ refused_of m why }
{
    Answer {
        verdict: Err(why),
        number: 0,
        tags: [0u8; TAGS],
        metadata: m,
    }
}

// A piece's header, remaining entries and stop, over the proof before it.
fn spell(work: &mut [u8], s: &[u8], q: Piece)
    requires { (length work.old ≡ room) × (q.shared + q.own ≤ most_entries) × (end_of q ≤ length s.now) }
    ensures { work.new ≡ patch (patch work.old 0 (header_bytes (q.shared + q.own))) (at q.shared)
        (part s.now q.from (rest_size q.own)) }
{
    proofbytes::write::header(&mut work[0..HEADER], (q.shared + q.own) as u64);
    let end = q.from + (ENTRY * q.own + STOP);
    octets::copy(work, HEADER + ENTRY * q.shared, &s[q.from..end]);
}

// What is found of the i-th proof, for p, and what it recomputes below its first f entries; t is what the proof before recomputes below the
// entries that they share. Where it has too many entries for any proof, it is not spelled out.
fn proof(
    work: &mut [u8],
    s: &[u8],
    i: usize,
    q: Piece,
    p: u64,
    m: Metadata,
    t: Side,
    f: usize,
) -> Result<Side, Fault>
    requires { (m.count ≤ most_blocks) × (q ≡ piece_of s.now i) × Stands s.now i × Before work.old s.now i
        × (q.shared < 65536) × Kept s.now m i t }
    ensures { (result ≡ examined_of (proof_at s.now i) p m f)
        × (IsOk result → Spelled work.new s.now i) }
{
    let k = q.shared + q.own;
    if MOST_ENTRIES < k {
        return Err(Fault::Misread);
    }
    spell(work, s, q);
    again::look(&work[0..HEADER + ENTRY * k + STOP], i, p, m, q.shared, t, f)
}

// The tag at the i-th proof's stop, in its place.
// What was spelled out is cut from the work buffer: header, k entries, stop.
fn put_tag(tags: &mut [u8], work: &[u8], s: &[u8], i: usize, q: Piece)
    requires { (32 * i + 32 ≤ length tags.old) × (q ≡ piece_of s.now i) × Stands s.now i × Spelled work.now s.now i }
    ensures { (tags.new
        ≡ patch tags.old (32 * i) (shown (place_of (proof_at s.now i)).item))
        × (length (shown (place_of (proof_at s.now i)).item) ≡ digest_bytes) }
{
    let k = q.shared + q.own;
    let tag = gateway::shown(&work[0..HEADER + ENTRY * k + STOP]);
    octets::copy(tags, TAG * i, &tag);
}

// The piece of the i-th proof, after the one before it.
fn piece(s: &[u8], i: usize, before: Piece) -> Piece
    requires { Stands s.now i × (joint_header ≤ length s.now) × (before ≡ piece_of s.now (i - 1)) }
    ensures { (result ≡ piece_of s.now i) × (result.shared < 65536) }
{
    if i == 0 {
        jointbytes::read::first(s)
    } else {
        jointbytes::read::next(s, before)
    }
}

// How many entries the proof after the i-th shares with it. After the last of n it is 0, and any number would do.
fn shared_after(s: &[u8], i: usize, q: Piece, n: usize) -> usize
    requires { (q ≡ piece_of s.now i) × (i < n) × (joint_fits n s.now ≡ true) }
    ensures { i + 1 < n → result ≡ (piece_of s.now (i + 1)).shared }
{
    if n - i < 2 {
        0
    } else {
        jointbytes::read::next(s, q).shared
    }
}

// Every proof in its order, until one is refused.
#[inline(never)]
fn proofs(work: &mut [u8], tags: &mut [u8], s: &[u8], ps: &[u64], m: Metadata) -> Verdict
    requires { (m.count ≤ most_blocks) × (is_set ps.now ≡ true) × (joint_fits (length ps.now) s.now ≡ true)
        × (length work.old ≡ room) × (tags.old ≡ no_tags) }
    ensures { (result ≡ verdict_of (place_rules s.now m 0 ps.now))
        × (result ≡ Ok tt → tags.new ≡ patch no_tags 0 (tags_of s.now (length ps.now))) }
{
    let mut q = jointbytes::read::first(s);
    let mut t = labels::no_side();
    for i in 0..ps.len() {
        q = piece(s, i, q);
        let place = Which::Place((i + 1) as u8);
        t = proof(work, s, i, q, ps[i], m, t, shared_after(s, i, q, ps.len())).map_err(
            |f| gateway::refusal(f, place),
        )?;
        put_tag(tags, work, s, i, q);
    }
    Ok(())
}

// The checks in their order. Where none refuses, the tags are put.
fn checked(m: Metadata, positions: &[u64], s: &[u8], tags: &mut [u8]) -> Verdict
    requires { tags.old ≡ no_tags }
    ensures { answer_with m (length positions.now) tags.new result ≡ joint_of m positions.now s.now }
{
    if MOST_BLOCKS < m.count {
        return Err(Refusal::BadMetadata);
    }
    if !jointbytes::positions::is_set(positions) {
        return Err(Refusal::BadSet);
    }
    if !jointbytes::positions::within(m.count, positions) {
        return Err(Refusal::BadPosition);
    }
    if !jointbytes::read::form(s, positions.len()) {
        return Err(Refusal::BadProof(Which::Place(0)));
    }
    let mut work = [0u8; ROOM];
    proofs(&mut work, tags, s, positions, m)
}

// The gateway's check of a joint proof for a set of positions, against the metadata it holds.
pub fn check(m: Metadata, positions: &[u64], s: &[u8]) -> Answer
    ensures { Checks m positions.now s.now result }
{
    let mut tags = [0u8; TAGS];
    match checked(m, positions, s, &mut tags) {
        Err(why) => refused(m, why),
        Ok(()) => Answer {
            verdict: Ok(()),
            number: positions.len() as u64,
            tags,
            metadata: m,
        },
    }
}
