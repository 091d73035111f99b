// What C passes and gets, as plain numbers and bytes, and what it means to the calls below. No struct has padding, but for the
// ends of an answer to save and of one to matches. An array is named before it goes into a literal.
ghost use Rattle.std.specs.Prelude.{◌≡◌};
ghost use Rattle.quaythistle.specs.Plain.{plain_verdict, held_metadata, shown_metadata, operation_of, height_of, position_of, command_of, filing_of};

use commands::{Command, Metadata, Operation};
use filer::Filing;
use refusals::Verdict;

// The numbers of the operations. Read's is 0; one over Delete's names none.
const REPLACE: u32 = 1;

const INSERT: u32 = 2;

const DELETE: u32 = 3;

// A digest, a tag or a label.
#[repr(C)]
#[derive(Clone, Copy)]
pub struct QtDigest {
    pub bytes: [u8; 32],
}

// The refusal's number in documents 01 and 02, 0 where the call is done, and the proof that it speaks of: 1 the first, 2 the second,
// 0 none; of a joint proof the place.
#[repr(C)]
#[derive(Clone, Copy)]
pub struct QtVerdict {
    pub refusal: u32,
    pub proof: u32,
}

#[repr(C)]
#[derive(Clone, Copy)]
pub struct QtMetadata {
    pub count: u64,
    pub label: QtDigest,
}

// An operation, 0 Read, 1 Replace, 2 Insert, 3 Delete, at a position.
#[repr(C)]
#[derive(Clone, Copy)]
pub struct QtCommand {
    pub operation: u32,
    pub height: u32,
    pub position: u64,
    pub tag: QtDigest,
}

// The place that the store proposes, the new block's height and time, and the times of the blocks at the place and after it.
#[repr(C)]
#[derive(Clone, Copy)]
pub struct QtFiling {
    pub position: u64,
    pub height: u32,
    pub time: u32,
    pub left_time: u32,
    pub right_time: u32,
}

impl From<Verdict> for QtVerdict {
    ghost from_gives = { λ v r. r ≡ plain_verdict v };

    // Apart, so that its two cases are not copied into every call.
    #[inline(never)]
    fn from(v: Verdict) -> QtVerdict {
        match v {
            Ok(()) => QtVerdict {
                refusal: 0,
                proof: 0,
            },
            Err(r) => QtVerdict {
                refusal: u32::from(u8::from(r)),
                proof: u32::from(refusals::proof(r)),
            },
        }
    }
}

impl From<QtMetadata> for Metadata {
    ghost from_gives = { λ m r. r ≡ held_metadata m };

    fn from(m: QtMetadata) -> Metadata {
        let label = m.label.bytes;
        Metadata {
            count: m.count,
            label,
        }
    }
}

impl From<Metadata> for QtMetadata {
    ghost from_gives = { λ m r. r ≡ shown_metadata m };

    fn from(m: Metadata) -> QtMetadata {
        let bytes = m.label;
        QtMetadata {
            count: m.count,
            label: QtDigest { bytes },
        }
    }
}

// A number that names no operation is read as Read.
#[tactic(auto, unfolding(crate::specs::Plain::operation_of))]
fn operation(n: u32) -> Operation
    ensures { result ≡ operation_of n }
{
    match n {
        REPLACE => Operation::Replace,
        INSERT => Operation::Insert,
        DELETE => Operation::Delete,
        _ => Operation::Read,
    }
}

// A number that names no operation is read as Read's at position 0, which is outside its range.
#[tactic(auto, unfolding(crate::specs::Plain::position_of))]
fn position(n: u32, p: u64) -> u64
    ensures { result ≡ position_of n p }
{
    if DELETE < n { 0 } else { p }
}

// Every height over 15 is refused alike, so one over 255 is read as 255.
#[tactic(auto, unfolding(crate::specs::Plain::height_of))]
fn height(h: u32) -> u8
    ensures { result ≡ height_of h }
{
    u8::try_from(h).unwrap_or(u8::MAX)
}

impl From<QtCommand> for Command {
    ghost from_gives = { λ k r. r ≡ command_of k };

    fn from(k: QtCommand) -> Command {
        let tag = k.tag.bytes;
        Command {
            operation: operation(k.operation),
            position: position(k.operation, k.position),
            height: height(k.height),
            tag,
        }
    }
}

impl From<QtFiling> for Filing {
    ghost from_gives = { λ f r. r ≡ filing_of f };

    fn from(f: QtFiling) -> Filing {
        Filing {
            position: f.position,
            height: height(f.height),
            time: f.time,
            left: f.left_time,
            right: f.right_time,
        }
    }
}
