// Proof bytes read. An entry is read from any bytes, by its place among the entries; whether the bytes keep the rules
// of document 01's proof section is judged apart from that, in one walk from the root that also adds up the proved
// position and rank.
ghost use Rattle.std.specs.Prelude.{◌≡◌, ◌+◌, ◌*◌, ◌≤◌, ◌<◌, length};
ghost use Rattle.octets.specs.Runs.{part, same};
ghost use Rattle.skiplist.specs.Label.{rank_bound};
ghost use Rattle.proofbytes.specs.Reading.{at, fields_at, beside_at, count_of};
ghost use Rattle.proofbytes.specs.Form.{ahead_of, down_of, right_of, pass_of, judged_of, leaf_fits, beside_fits};
ghost use Rattle.proofbytes.specs.Form.{stop_fits, header_fits, formed_of, walked_of};
ghost use Rattle.proofbytes.specs.Layout.{entry_size, stop_size, most_entries};

use crate::{DOWN, ENTRY, HEADER, MOST_ENTRIES, RIGHT, STOP, STOP_KIND, VERSION};

const LENGTH_PLACE: usize = 1;

const LEVEL_PLACE: usize = 1;

const NUMBER_PLACE: usize = 2;

const BYTES_PLACE: usize = 6;

const RIGHT_RANK_PLACE: usize = 38;

const RIGHT_LABEL_PLACE: usize = 42;

// The most that a rank and a level can be in a good proof.
const MOST_RANK: u64 = 4096;

const MOST_LEVEL: u8 = 15;

// An entry: kind byte, level byte, four-byte rank or own, 32 bytes of label or tag. The stop begins with the same
// fields.
#[derive(Clone, Copy)]
pub struct Fields {
    pub kind: u8,
    pub level: u8,
    pub number: u64,
    pub bytes: [u8; 32],
}

// The stop's right side.
#[derive(Clone, Copy)]
pub struct Beside {
    pub rank: u64,
    pub label: [u8; 32],
}

// What a proof of good form proves: a position and a rank.
#[derive(Clone, Copy, Debug, PartialEq, Eq)]
pub struct Proven {
    pub position: u64,
    pub rank: u64,
}

// How many entries bytes of this length have room for, beside header and stop.
pub fn entry_count(s: &[u8]) -> usize
    ensures { result ≡ count_of s.now }
{
    s.len().saturating_sub(HEADER + STOP) / ENTRY
}

// The entry with i entries before it; after the last entry, the stop's first fields.
// Bytes and a place, not a type of good proofs: an entry is read before the form is judged.
#[tactic(auto, unfolding(crate::specs::Reading::fields_at))]
pub fn entry_at(s: &[u8], i: usize) -> Fields
    requires { at i + entry_size ≤ length s.now }
    ensures { (result ≡ fields_at s.now i) × (result.number < rank_bound) }
{
    let from = HEADER + ENTRY * i;
    Fields {
        kind: s[from],
        level: s[from + LEVEL_PLACE],
        number: octets::number_at::<4>(s, from + NUMBER_PLACE),
        bytes: octets::bytes_at(s, from + BYTES_PLACE),
    }
}

// The right side in a stop that k entries come before.
#[tactic(auto, unfolding(crate::specs::Reading::beside_at))]
pub fn beside_at(s: &[u8], k: usize) -> Beside
    requires { at k + stop_size ≤ length s.now }
    ensures { (result ≡ beside_at s.now k) × (result.rank < rank_bound) }
{
    let from = HEADER + ENTRY * k;
    Beside {
        rank: octets::number_at::<4>(s, from + RIGHT_RANK_PLACE),
        label: octets::bytes_at(s, from + RIGHT_LABEL_PLACE),
    }
}

// Are the i-th entries of two proofs equal, byte for byte? As arrays they are compared to their end. Apart, so that their 76 bytes stand
// in no caller's frame.
#[inline(never)]
pub fn same_entry(a: &[u8], b: &[u8], i: usize) -> bool
    requires { (at i + entry_size ≤ length a.now) × (at i + entry_size ≤ length b.now) }
    ensures { result ≡ same (part a.now (at i) entry_size) (part b.now (at i) entry_size) }
{
    let from = HEADER + ENTRY * i;
    octets::bytes_at::<ENTRY>(a, from) == octets::bytes_at::<ENTRY>(b, from)
}

// The rules on one entry answer the greatest level that the next one may have, or nothing where it is refused. One
// function for each rule of document 01.

// A down entry of level 1 to 15: a rank of at least 1, and the next level is lower.
#[tactic(auto, unfolding(crate::specs::Form::down_of))]
fn down(level: u8, rank: u64, most: u8) -> Option<u8>
    requires { 1 ≤ level }
    ensures { result ≡ down_of level rank most }
{
    match rank {
        1..=MOST_RANK if level <= most => Some(level - 1),
        _ => None,
    }
}

// A right entry of level 1 to 15: the next level is no higher.
#[tactic(auto, unfolding(crate::specs::Form::right_of))]
fn right(level: u8, rank: u64, most: u8) -> Option<u8>
    ensures { result ≡ right_of level rank most }
{
    match rank {
        0..=MOST_RANK if level <= most => Some(level),
        _ => None,
    }
}

// A leaf's own and tag field: own 0 or 1, and the tag field all zero if own is 0.
// own is a number: it is added to the rank, and the bytes may hold any.
#[tactic(auto, unfolding(crate::specs::Form::leaf_fits))]
fn leaf_fits(own: u64, tag: [u8; 32]) -> bool
    ensures { result ≡ leaf_fits own tag }
{
    if own == 0 {
        octets::zeros(&tag)
    } else {
        own == 1
    }
}

#[tactic(auto, unfolding(crate::specs::Form::pass_of))]
fn pass(own: u64, tag: [u8; 32]) -> Option<u8>
    ensures { result ≡ pass_of own tag }
{
    if leaf_fits(own, tag) { Some(0) } else { None }
}

// "Each entry is read by its kind and level"; its level is to be at most `most`.
#[tactic(auto, unfolding(crate::specs::Form::judged_of))]
fn judge(e: Fields, most: u8) -> Option<u8>
    ensures { result ≡ judged_of e most }
{
    match e.kind {
        DOWN => match e.level {
            1..=MOST_LEVEL => down(e.level, e.number, most),
            _ => None,
        },
        RIGHT => match e.level {
            0 => pass(e.number, e.bytes),
            1..=MOST_LEVEL => right(e.level, e.number, most),
            _ => None,
        },
        _ => None,
    }
}

// What an entry adds to the proved position.
#[tactic(auto, unfolding(crate::specs::Form::ahead_of))]
fn ahead(e: Fields) -> u64
    ensures { result ≡ ahead_of e }
{
    if e.kind == DOWN { 0 } else { e.number }
}

// The stop's right side: the label all zero if the rank is 0.
#[tactic(auto, unfolding(crate::specs::Form::beside_fits))]
fn beside_fits(rank: u64, label: [u8; 32]) -> bool
    ensures { result ≡ beside_fits rank label }
{
    if rank == 0 {
        octets::zeros(&label)
    } else {
        rank <= MOST_RANK
    }
}

#[tactic(auto, unfolding(crate::specs::Form::stop_fits))]
fn stop_fits(e: Fields, b: Beside) -> bool
    ensures { result ≡ stop_fits e b }
{
    e.kind == STOP_KIND
        && e.level == 0
        && leaf_fits(e.number, e.bytes)
        && beside_fits(b.rank, b.label)
}

// Exactly 77 + 38k bytes for some k from 0 to 200, version 1, and that length stated.
#[tactic(auto, unfolding(crate::specs::Form::header_fits))]
fn header_fits(s: &[u8]) -> bool
    ensures { result ≡ header_fits s.now }
{
    let n = s.len();
    HEADER + STOP <= n
        && n <= HEADER + ENTRY * MOST_ENTRIES + STOP
        && (n - (HEADER + STOP)) % ENTRY == 0
        && s[0] == VERSION
        && octets::number_at::<2>(s, LENGTH_PLACE) == (n - HEADER) as u64
}

// The entries from the root and the stop, where there are bytes for k entries and a stop.
// k counts the entries; it is worked out once and handed down.
#[tactic(auto, using(crate::proofs::Walks::start, crate::proofs::Walks::ahead_small))]
fn walk(s: &[u8], k: usize) -> Option<Proven>
    requires { (k ≤ most_entries) × (at k + stop_size ≤ length s.now) }
    ensures { result ≡ walked_of s.now k }
{
    let mut most = MOST_LEVEL;
    let mut position = 0;
    let mut rank = 0;
    for i in 0..k {
        let e = entry_at(s, i);
        most = judge(e, most)?;
        position += ahead(e);
        rank += e.number;
    }
    let e = entry_at(s, k);
    let b = beside_at(s, k);
    if stop_fits(e, b) {
        Some(Proven {
            position: position + e.number,
            rank: rank + (e.number + b.rank),
        })
    } else {
        None
    }
}

// The form of any bytes: what they prove, or nothing, for refusal 7.
#[tactic(auto, using(crate::proofs::FormLaws::form_few, crate::proofs::FormLaws::form_long), unfolding(crate::specs::Form::formed_of, crate::specs::Form::well_formed, crate::specs::Form::walked_of))]
pub fn form(s: &[u8]) -> Option<Proven>
    ensures { result ≡ formed_of s.now }
{
    if header_fits(s) {
        walk(s, entry_count(s))
    } else {
        None
    }
}
