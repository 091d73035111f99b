// A joint proof read. Its pieces are found by the records' kinds alone, one after the other; where an entry of a spelled-out proof stands
// is found by going through the pieces again, so that nothing is kept of them and proofs of any length can be judged.
ghost use Rattle.std.specs.Prelude.{◌≡◌, cond, ◌&&◌, ◌+◌, ◌-◌, ◌*◌, ◌≤◌, ◌<◌, leb, ltb, length, get_or};
ghost use Rattle.proofbytes.specs.Layout.{entry_size, stop_kind};
ghost use Rattle.jointbytes.specs.Layout.{joint_header, shared_bytes};
ghost use Rattle.jointbytes.specs.Reading.{ahead as ahead_is, piece_at, piece_of, stop_at, end_of, spelled_entries};
ghost use Rattle.jointbytes.specs.Reading.{next_of, stop_stands};
ghost use Rattle.jointbytes.specs.Working.{holder_of, Stands};
ghost use Rattle.jointbytes.specs.Form.{head_fits, shares_most, later_fit, joint_fits};

use crate::{HEADER, SHARED, VERSION};
use proofbytes::{ENTRY, STOP, STOP_KIND};

// A proof's piece: its shared number, where its remaining entries begin, and how many they are.
// It is read before the form of the whole is known, so each function asks for the bytes that it reads.
#[derive(Clone, Copy)]
pub struct Piece {
    pub shared: usize,
    pub from: usize,
    pub own: usize,
}

// An entry that ends within the bytes.
fn is_entry(s: &[u8], at: usize) -> bool
    requires { at ≤ length s.now }
    ensures { result ≡ leb (at + entry_size) (length s.now) && ltb (get_or s.now at 0) stop_kind }
{
    ENTRY <= s.len() - at && s[at] < STOP_KIND
}

// The entries from `from` on.
fn ahead(s: &[u8], from: usize) -> usize
    requires { from ≤ length s.now }
    ensures { (result ≡ ahead_is (length s.now) s.now from)
        × (from + entry_size * result ≤ length s.now) }
{
    let mut k = 0;

    // A `while`: each entry is looked at where it stands, and the first that is none ends the count.
    while is_entry(s, from + ENTRY * k) {
        k += 1;
    }
    k
}

fn begin(s: &[u8], shared: usize, from: usize) -> Piece
    requires { from ≤ length s.now }
    ensures { (result ≡ piece_at s.now shared from) × (stop_at result ≤ length s.now) }
{
    Piece {
        shared,
        from,
        own: ahead(s, from),
    }
}

// The first piece.
#[tactic(auto, unfolding(crate::specs::Reading::piece_of))]
pub fn first(s: &[u8]) -> Piece
    requires { joint_header ≤ length s.now }
    ensures { (result ≡ piece_of s.now 0) × (stop_at result ≤ length s.now) }
{
    begin(s, 0, HEADER)
}

// Does a piece's stop stand whole after its entries?
#[tactic(auto, unfolding(crate::specs::Reading::stop_stands))]
fn stands(s: &[u8], q: Piece) -> bool
    requires { stop_at q ≤ length s.now }
    ensures { result ≡ stop_stands s.now q }
{
    let at = q.from + ENTRY * q.own;
    STOP <= s.len() - at && s[at] == STOP_KIND
}

// Where a piece ends.
pub fn end(s: &[u8], q: Piece) -> usize
    requires { end_of q ≤ length s.now }
    ensures { result ≡ end_of q }
{
    q.from + ENTRY * q.own + STOP
}

// The piece after one.
pub fn next(s: &[u8], q: Piece) -> Piece
    requires { end_of q + shared_bytes ≤ length s.now }
    ensures { (result ≡ next_of s.now q) × (stop_at result ≤ length s.now) × (result.shared < 65536) }
{
    let at = end(s, q);
    let shared = octets::number_at::<2>(s, at) as usize;
    begin(s, shared, at + SHARED)
}

// Of two pieces the later one q, where it shares no more than j.
fn later(h: Piece, q: Piece, j: usize) -> Piece
    ensures { result ≡ cond (leb q.shared j) q h }
{
    if q.shared <= j { q } else { h }
}

// The piece that holds the entry with j entries before it, of the i-th proof: the last that shares no more than j.
fn holder(s: &[u8], i: usize, j: usize) -> Piece
    requires { (joint_header ≤ length s.now) × Stands s.now i }
    ensures { result ≡ holder_of s.now i j }
{
    let mut q = first(s);
    let mut h = q;
    for _b in 0..i {
        q = next(s, q);
        h = later(h, q, j);
    }
    h
}

// Is the shared number of the piece q after the i-th the largest? The i-th proof has k entries. Where both go on after the shared entries,
// they differ at once.
fn shares_most(s: &[u8], i: usize, k: usize, q: Piece) -> bool
    requires { (joint_header ≤ length s.now) × Stands s.now i × (k ≡ length (spelled_entries s.now i))
        × (q ≡ piece_of s.now (i + 1)) × (stop_at q ≤ length s.now) }
    ensures { result ≡ shares_most s.now i }
{
    if k < q.shared {
        return false;
    }
    if k == q.shared || q.own == 0 {
        return true;
    }
    let h = holder(s, i, q.shared);
    let at = h.from + ENTRY * (q.shared - h.shared);
    octets::bytes_at::<ENTRY>(s, at) != octets::bytes_at::<ENTRY>(s, q.from)
}

// Version, length and number.
#[tactic(auto, using(octets::proofs::NumberLaws::read_one), unfolding(crate::specs::Form::head_fits))]
fn head_fits(s: &[u8], m: usize) -> bool
    ensures { result ≡ head_fits m s.now }
{
    HEADER <= s.len()
        && s[0] == VERSION
        && octets::number_at::<4>(s, 1) == (s.len() - 5) as u64
        && octets::number_at::<1>(s, 5) == m as u64
}

// The pieces after the first, to the end of the bytes.
fn later_fit(s: &[u8], m: usize) -> bool
    requires { (joint_header ≤ length s.now) × Stands s.now 0 }
    ensures { result ≡ later_fit s.now 0 (m - 1) }
{
    let mut q = first(s);
    let mut k = q.own;
    for i in 1..m {
        if s.len() - end(s, q) < SHARED {
            return false;
        }
        q = next(s, q);
        if !stands(s, q) || !shares_most(s, i - 1, k, q) {
            return false;
        }
        k = q.shared + q.own;
    }
    end(s, q) == s.len()
}

// The form of any bytes as a joint proof of m positions.
#[tactic(auto, using(crate::proofs::Rejoined::head_long), unfolding(crate::specs::Form::joint_fits, crate::specs::Working::Stands))]
pub fn form(s: &[u8], m: usize) -> bool
    ensures { result ≡ joint_fits m s.now }
{
    head_fits(s, m) && stands(s, first(s)) && later_fit(s, m)
}
