// A planned proof written: header, entries and stop, each into its own part of the buffer. The entries are written from
// the last to the first, while the columns are passed from position p back, so that nothing is kept but the
// slots of the columns after p. Buffer and place go together, since what is promised is the whole buffer.
ghost use Rattle.std.specs.Prelude.{◌≡◌, [], ◌∷◌, ◌+◌, ◌*◌, ◌≤◌, length};
ghost use Rattle.octets.specs.Runs.{patch};
ghost use Rattle.skiplist.specs.Limits.{most_height, digest_bytes};
ghost use Rattle.archive.specs.Reading.{count_of};
ghost use Rattle.proofbytes.specs.Layout.{most_entries, header_size, entry_size, stop_size, proof_size};
ghost use Rattle.proofbytes.specs.Writing.{header_bytes, field_bytes, stop_fields};
ghost use Rattle.store.specs.Answers.{entries_at, proof_at};
ghost use Rattle.store.specs.Passes.{Sized, Anchors, bytes_of, Put, open_of, span_of, cross_at, tail_at};

use crate::{plan, runs};
use archive::{Image, MOST_HEIGHT};
use labels::Side;
use proofbytes::{ENTRY, HEADER, STOP, write};

// An entry into its part of the buffer.
// Each writer is lent its own part alone, so the rest of the buffer stays as it was.
#[tactic(auto, using(crate::proofs::EntryLaws::lent))]
fn put(buffer: &mut [u8], at: usize, kind: u8, level: u8, rank: u64, bytes: [u8; 32])
    requires { at + entry_size ≤ length buffer.old }
    ensures { buffer.new ≡ patch buffer.old at (field_bytes kind level rank bytes) }
{
    write::entry(&mut buffer[at..at + ENTRY], kind, level, rank, bytes);
}

// The entry of an open slot, before entry r; the number of the first entry after that.
#[tactic(auto, using(crate::proofs::EntryLaws::opened))]
fn put_slot(buffer: &mut [u8], at: usize, r: usize, l: usize, e: Side) -> usize
    requires { (l ≤ most_height) × (at + entry_size * r ≤ length buffer.old) × (length (open_of l e) ≤ r) }
    ensures { Put buffer.old at r (open_of l e) result buffer.new }
{
    if e.empty {
        return r;
    }
    let q = r - 1;
    put(
        buffer,
        at + ENTRY * q,
        proofbytes::DOWN,
        l as u8,
        e.rank,
        e.label,
    );
    q
}

// The entries of the open slots above level l up to level h.
#[tactic(auto, using(crate::proofs::EntryLaws::spans), unfolding(proofbytes::specs::Writing::entries_bytes))]
fn put_slots(buffer: &mut [u8], at: usize, r: usize, s: [Side; 16], l: usize, h: usize) -> usize
    requires { (l ≤ h) × (h ≤ most_height) × (at + entry_size * r ≤ length buffer.old)
        × (length (span_of s l h) ≤ r) × Sized s }
    ensures { Put buffer.old at r (span_of s l h) result buffer.new }
{
    let mut q = r;
    for m in l + 1..h + 1 {
        q = put_slot(buffer, at, q, m, s[m]);
    }
    q
}

// The entry that goes right past column i and those after it up to column m, to column m + 1 of height h.
#[tactic(auto, using(crate::proofs::EntryLaws::crossed))]
fn put_right(image: Image<'_>, buffer: &mut [u8], at: usize, i: usize, m: usize, h: u64)
    requires { (at + entry_size ≤ length buffer.old) × (i ≤ m) × (m ≤ count_of image.bytes.now)
        × (h ≤ most_height) }
    ensures { buffer.new
        ≡ patch buffer.old at (bytes_of (cross_at image.entry.bytes.now i m h ∷ [])) }
{
    if h == 0 {
        put(
            buffer,
            at,
            proofbytes::RIGHT,
            0,
            runs::own(i),
            runs::tag(image, i),
        );
    } else {
        let t = runs::side(image, i, m);
        put(buffer, at, proofbytes::RIGHT, h as u8, t.rank, t.label);
    }
}

// The k entries of the path to column p from column `from` on, the first at `at`; s has the slots of the columns after p.
pub fn put_entries(
    image: Image<'_>,
    buffer: &mut [u8],
    at: usize,
    k: usize,
    from: usize,
    p: usize,
    s: [Side; 16],
)
    requires { (p ≤ count_of image.bytes.now) × (at + entry_size * k ≤ length buffer.old)
        × (length (tail_at image.bytes.now s p from most_height) ≡ k) × Sized s × (from ≤ p)
        × Anchors image.bytes.now from p }
    ensures { (buffer.new
        ≡ patch buffer.old at (bytes_of (tail_at image.entry.bytes.now s p from most_height)))
        × (length (bytes_of (tail_at image.entry.bytes.now s p from most_height)) ≡ entry_size * k) }
{
    let mut a = p;
    let mut l = 0;
    let mut r = k;
    // A `while`: each turn goes back to an anchor, any number of columns before, so no range runs over a.
    while from < a {
        let m = a - 1;
        let h = image.height(m);
        let q = put_slots(buffer, at, r, s, l, h as usize);
        let i = plan::anchor(image, h, m);
        r = q - 1;
        put_right(image, buffer, at + ENTRY * r, i, m, h);
        a = i;
        l = h as usize;
    }
    put_slots(buffer, at, r, s, l, MOST_HEIGHT as usize);
}

#[tactic(auto, using(crate::proofs::EntryLaws::lent))]
fn put_header(buffer: &mut [u8], at: usize, k: usize)
    requires { (at + header_size ≤ length buffer.old) × (k ≤ most_entries) }
    ensures { buffer.new ≡ patch buffer.old at (header_bytes k) }
{
    write::header(&mut buffer[at..at + HEADER], k as u64);
}

#[tactic(auto, using(crate::proofs::EntryLaws::lent))]
// own is a number: it goes into the bytes as it is.
pub fn put_stop(buffer: &mut [u8], at: usize, own: u64, tag: [u8; 32], right: Side)
    requires { (at + stop_size ≤ length buffer.old) × (length tag ≡ digest_bytes)
        × (length right.label ≡ digest_bytes) }
    ensures { buffer.new
        ≡ patch buffer.old at (stop_fields own tag right.rank right.label) }
{
    write::stop(
        &mut buffer[at..at + STOP],
        own,
        tag,
        right.rank,
        right.label,
    );
}

// The proof of position p with its k entries, from `at` on.
pub fn put_proof(image: Image<'_>, p: usize, buffer: &mut [u8], at: usize, k: usize)
    requires { (p ≤ count_of image.bytes.now) × (k ≡ entries_at image.bytes.now p) × (k ≤ most_entries)
        × (at + proof_size k ≤ length buffer.old) }
    ensures { buffer.new ≡ patch buffer.old at (proof_at image.entry.bytes.now p) }
{
    let s = runs::columns(image, p, image.count());
    let first = at + HEADER;
    put_header(buffer, at, k);
    put_entries(image, buffer, first, k, 0, p, s);
    put_stop(
        buffer,
        first + ENTRY * k,
        runs::own(p),
        runs::tag(image, p),
        s[0],
    );
}
