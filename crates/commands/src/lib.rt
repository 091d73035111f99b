// The words that store and gateway share: metadata, commands, and the refusals that need no image and no proof, or no more of them
// than a tag.
#![tactic(auto)]

ghost use Rattle.std.specs.Prelude.{◌≡◌};
ghost use Rattle.skiplist.specs.Commands.{repeats_at};
ghost use Rattle.commands.specs.Admission.{least_of, insertable_of, admitted_of};

use refusals::{Refusal, Verdict};

// Count and root label.
#[derive(Clone, Copy, Debug, PartialEq, Eq)]
pub struct Metadata {
    pub count: u64,
    pub label: [u8; 32],
}

#[derive(Clone, Copy, Debug, PartialEq, Eq)]
pub enum Operation {
    Read,
    Replace,
    Insert,
    Delete,
}

// An operation at a position. The height is Insert's, the tag Replace's and Insert's; with the others they are not looked at.
// One struct for the four, as C passes it.
#[derive(Clone, Copy, Debug, PartialEq, Eq)]
pub struct Command {
    pub operation: Operation,
    pub position: u64,
    pub height: u8,
    pub tag: [u8; 32],
}

pub const MOST_BLOCKS: u64 = 4096;

// A byte, as a command holds it; `archive` reads heights as numbers, and neither crate is above the other.
const MOST_HEIGHT: u8 = 15;

// The least position that an operation takes.
fn least(o: Operation) -> u64
    ensures { result ≡ least_of o }
{
    match o {
        Operation::Insert => 0,
        Operation::Read | Operation::Replace | Operation::Delete => 1,
    }
}

// Refusals 3 and 4 of Insert, for n blocks.
#[tactic(auto, unfolding(crate::specs::Admission::insertable_of))]
fn insertable(height: u8, n: u64) -> Verdict
    ensures { result ≡ insertable_of height n }
{
    if MOST_HEIGHT < height {
        Err(Refusal::BadHeight)
    } else if n == MOST_BLOCKS {
        Err(Refusal::Full)
    } else {
        Ok(())
    }
}

// Refusals 2, 3 and 4 of a command, for n blocks.
#[tactic(auto, unfolding(crate::specs::Admission::admitted_of, crate::specs::Admission::insertable_of))]
pub fn admitted(k: Command, n: u64) -> Verdict
    ensures { result ≡ admitted_of k n }
{
    if k.position < least(k.operation) || n < k.position {
        Err(Refusal::BadPosition)
    } else if k.operation == Operation::Insert {
        insertable(k.height, n)
    } else {
        Ok(())
    }
}

// Refusal 14 of Insert after p: is the new tag the one that stands at p? At position 0 there is none to repeat.
pub fn repeated(p: u64, new: [u8; 32], there: [u8; 32]) -> bool
    ensures { result ≡ repeats_at p new there }
{
    p >= 1 && new == there
}
