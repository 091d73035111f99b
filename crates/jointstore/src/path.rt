// A planned joint proof written: the header, then the proofs one after the other, each from its first entry on that is
// not shared. What is shared is not made again. Buffer and place go together, since what is promised is the whole buffer.
ghost use Rattle.std.specs.Prelude.{◌≡◌, true, ◌+◌, ◌-◌, ◌*◌, ◌≤◌, ◌<◌, length};
ghost use Rattle.octets.specs.Runs.{patch};
ghost use Rattle.archive.specs.Reading.{count_of};
ghost use Rattle.proofbytes.specs.Layout.{most_entries, entry_size, stop_size};
ghost use Rattle.jointbytes.specs.Layout.{number_place, joint_header};
ghost use Rattle.jointbytes.specs.Positions.{is_set, within};
ghost use Rattle.jointbytes.specs.Spelling.{joint_head};
ghost use Rattle.store.specs.Answers.{entries_at};
ghost use Rattle.store.specs.Passes.{Anchors};
ghost use Rattle.jointstore.specs.Answers.{joint_at, all_shallow};
ghost use Rattle.jointstore.specs.Passes.{shared_at, part_of, part_at, rest_at, piece_at, later_at};

use crate::plan;
use archive::Image;
use jointbytes::{HEADER, SHARED, write};
use proofbytes::{ENTRY, STOP};

// The path to column q from column a on in the columns up to column e, with its k entries, and its stop; where they end.
fn put_part(
    image: Image<'_>,
    a: usize,
    q: usize,
    e: usize,
    k: usize,
    buffer: &mut [u8],
    at: usize,
) -> usize
    requires { (a ≤ q) × (q ≤ e) × (e ≤ count_of image.bytes.now) × Anchors image.bytes.now a q
        × (length (part_of image.bytes.now a q e) ≡ k) × (at + entry_size * k + stop_size ≤ length buffer.old) }
    ensures { (buffer.new ≡ patch buffer.old at (part_at image.entry.bytes.now a q e))
        × (result ≡ at + entry_size * k + stop_size) }
{
    let s = store::runs::columns(image, q, e);
    store::path::put_entries(image, buffer, at, k, a, q, s);
    let end = at + ENTRY * k;
    store::path::put_stop(
        buffer,
        end,
        store::runs::own(q),
        store::runs::tag(image, q),
        s[0],
    );
    end + STOP
}

// The path to column p and its stop; where they end.
fn put_first(image: Image<'_>, p: usize, buffer: &mut [u8], at: usize) -> usize
    requires { (p ≤ count_of image.bytes.now) × (at + length (rest_at image.bytes.now p 0) ≤ length buffer.old) }
    ensures { (buffer.new ≡ patch buffer.old at (rest_at image.entry.bytes.now p 0))
        × (result ≡ at + length (rest_at image.entry.bytes.now p 0)) }
{
    let k = store::plan::entries(image, p) as usize;
    put_part(image, 0, p, image.count(), k, buffer, at)
}

// The path to column q from its first entry on that the path to column p does not share, with c before it, and its
// stop; where they end. Only columns from the anchor of the tallest between the two on are labelled, and of those after
// q only the ones up to the first that is taller.
fn put_rest(image: Image<'_>, p: usize, q: usize, c: usize, buffer: &mut [u8], at: usize) -> usize
    requires { (p < q) × (q ≤ count_of image.bytes.now) × (c ≡ shared_at image.bytes.now p q)
        × (at + length (rest_at image.bytes.now q c) ≤ length buffer.old) }
    ensures { (buffer.new ≡ patch buffer.old at (rest_at image.entry.bytes.now q c))
        × (result ≡ at + length (rest_at image.entry.bytes.now q c)) }
{
    let level = plan::between(image, p, q);
    let a = store::plan::anchor(image, level, p);
    let e = plan::reach(image, level, q);
    let k = (store::plan::entries(image, q) as usize) - c;
    put_part(image, a, q, e, k, buffer, at)
}

// The proof of q after that of p; where it ends.
#[tactic(auto, using(crate::proofs::PutLaws::piece_long, crate::proofs::PutLaws::piece_put))]
fn put_piece(image: Image<'_>, p: usize, q: usize, buffer: &mut [u8], at: usize) -> usize
    requires { (p < q) × (q ≤ count_of image.bytes.now) × (entries_at image.bytes.now q ≤ most_entries)
        × (at + length (piece_at image.bytes.now p q) ≤ length buffer.old) }
    ensures { (buffer.new ≡ patch buffer.old at (piece_at image.entry.bytes.now p q))
        × (result ≡ at + length (piece_at image.entry.bytes.now p q)) }
{
    let c = plan::shared(image, p, q);
    octets::put_number::<2>(buffer, at, c);
    put_rest(image, p, q, c as usize, buffer, at + SHARED)
}

// The header of a joint proof of m positions and `size` bytes.
#[tactic(auto, using(octets::proofs::PatchLaws::of_part, crate::proofs::JointLaws::length_head))]
// The writer is lent its own part alone, so the rest of the buffer stays as it was.
fn put_head(buffer: &mut [u8], at: usize, m: usize, size: u64)
    requires { (at + joint_header ≤ length buffer.old) × (m < 256) × (joint_header ≤ size) }
    ensures { buffer.new ≡ patch buffer.old at (joint_head m (size - number_place)) }
{
    write::header(&mut buffer[at..at + HEADER], m as u64, size - 5);
}

// The proofs of all positions but the first, from `at` on.
fn put_later(image: Image<'_>, ps: &[u64], buffer: &mut [u8], at: usize)
    requires { (is_set ps.now ≡ true) × (within (count_of image.bytes.now) ps.now ≡ true)
        × (all_shallow image.bytes.now ps.now ≡ true) × (at + length (later_at image.bytes.now ps.now) ≤ length buffer.old) }
    ensures { buffer.new ≡ patch buffer.old at (later_at image.entry.bytes.now ps.now) }
{
    let mut end = at;
    for i in 1..ps.len() {
        end = put_piece(image, ps[i - 1] as usize, ps[i] as usize, buffer, end);
    }
}

// The joint proof of the positions, of `size` bytes, from `at` on.
#[tactic(auto, using(crate::proofs::PositionLaws::asked, crate::proofs::PutLaws::whole_size, crate::proofs::PutLaws::joint_put))]
pub fn put_joint(image: Image<'_>, ps: &[u64], buffer: &mut [u8], at: usize, size: u64)
    requires { (is_set ps.now ≡ true) × (within (count_of image.bytes.now) ps.now ≡ true)
        × (all_shallow image.bytes.now ps.now ≡ true) × (size ≡ length (joint_at image.bytes.now ps.now))
        × (at + size ≤ length buffer.old) }
    ensures { buffer.new ≡ patch buffer.old at (joint_at image.entry.bytes.now ps.now) }
{
    put_head(buffer, at, ps.len(), size);
    let end = put_first(image, ps[0] as usize, buffer, at + HEADER);
    put_later(image, ps, buffer, end);
}
