//! What comes back when a call will not (document 01, "What comes back when it will not", and document 02's asks): one refusal for each
//! number of the table, 7, 8 and 9 with the proof that they speak of.
#![tactic(auto)]

ghost use Rattle.std.specs.Prelude.{◌≡◌, Some};
ghost use Rattle.refusals.specs.Numbers.{number_of, name_of, proof_of, proof_number, verdict_number};

use std::error::Error;
use std::fmt;

/// Which proof of a command: Delete carries two, the others one, their First. Of a joint proof the spelled-out proof by its place, from
/// 1 on; 0 is the joint proof's own form.
#[derive(Clone, Copy, Debug, PartialEq, Eq)]
pub enum Which {
    First,
    Second,
    Place(u8),
}

/// Why a call refuses.
#[derive(Clone, Copy, Debug, PartialEq, Eq)]
pub enum Refusal {
    BadImage,
    BadPosition,
    BadHeight,
    Full,
    NoRoom,
    TooDeep,
    BadProof(Which),
    WrongPosition(Which),
    WrongLabel(Which),
    NotNeighbours,
    LongMessage,
    BadMetadata,
    BadSet,
    Repeated,
    OutOfTime,
    WrongBlock,
}

/// Nothing, or the first refusal that is due.
pub type Verdict = Result<(), Refusal>;

/// The refusal's number in document 01's table, from 13 on in document 02's asks.
impl From<Refusal> for u8 {
    ghost from_gives = { λ r n. n ≡ number_of r };

    fn from(r: Refusal) -> u8 {
        match r {
            Refusal::BadImage => 1,
            Refusal::BadPosition => 2,
            Refusal::BadHeight => 3,
            Refusal::Full => 4,
            Refusal::NoRoom => 5,
            Refusal::TooDeep => 6,
            Refusal::BadProof(_) => 7,
            Refusal::WrongPosition(_) => 8,
            Refusal::WrongLabel(_) => 9,
            Refusal::NotNeighbours => 10,
            Refusal::LongMessage => 11,
            Refusal::BadMetadata => 12,
            Refusal::BadSet => 13,
            Refusal::Repeated => 14,
            Refusal::OutOfTime => 15,
            Refusal::WrongBlock => 16,
        }
    }
}

/// 1 the first, 2 the second; of a joint proof the place.
impl From<Which> for u8 {
    ghost from_gives = { λ w n. n ≡ proof_number w };

    fn from(w: Which) -> u8 {
        match w {
            Which::First => 1,
            Which::Second => 2,
            Which::Place(n) => n,
        }
    }
}

/// The refusal's name in the table.
impl fmt::Display for Refusal {
    ghost output = { λ r. Some (name_of r) };

    fn fmt<W: fmt::Write>(&self, f: &mut fmt::Formatter<W>) -> fmt::Result {
        f.write_str(match self {
            Refusal::BadImage => "BAD IMAGE",
            Refusal::BadPosition => "BAD POSITION",
            Refusal::BadHeight => "BAD HEIGHT",
            Refusal::Full => "FULL",
            Refusal::NoRoom => "NO ROOM",
            Refusal::TooDeep => "TOO DEEP",
            Refusal::BadProof(_) => "BAD PROOF",
            Refusal::WrongPosition(_) => "WRONG POSITION",
            Refusal::WrongLabel(_) => "WRONG LABEL",
            Refusal::NotNeighbours => "NOT NEIGHBOURS",
            Refusal::LongMessage => "LONG MESSAGE",
            Refusal::BadMetadata => "BAD METADATA",
            Refusal::BadSet => "BAD SET",
            Refusal::Repeated => "REPEATED",
            Refusal::OutOfTime => "OUT OF TIME",
            Refusal::WrongBlock => "WRONG BLOCK",
        })
    }
}

impl Error for Refusal {}

/// 0 where nothing was refused, else the refusal's number.
/// A function and no From, since neither u8 nor Result is this crate's.
pub fn verdict_number(v: Verdict) -> u8
    ensures { result ≡ verdict_number v }
{
    match v {
        Ok(()) => 0,
        Err(r) => u8::from(r),
    }
}

/// The proof that a refusal speaks of: 1 the first, 2 the second, 0 none; of a joint proof the place.
/// A number and no Option, as C and the frames have it.
pub fn proof(r: Refusal) -> u8
    ensures { result ≡ proof_of r }
{
    match r {
        Refusal::BadProof(w) | Refusal::WrongPosition(w) | Refusal::WrongLabel(w) => u8::from(w),
        _ => 0,
    }
}
