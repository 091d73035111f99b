// Sixteen slots, one for each level, by value: a run of columns labelled in one pass from its right end. Slot l above 0
// holds the right side of a node of level l that still waits for its lower side, slot 0 the right side at level 0. A
// height is an index into them.
ghost use Rattle.std.specs.Prelude.{◌≡◌, ◌≤◌};
ghost use Rattle.skiplist.specs.Limits.{most_height};
ghost use Rattle.skiplist.specs.Blocks.{block_item};
ghost use Rattle.store.specs.Passes.{no_slots_of, sealed_of, shut_of, with_column_of};

use labels::Side;

#[tactic(auto, unfolding(skiplist::specs::Slots::no_slots))]
pub fn no_slots() -> [Side; 16]
    ensures { result ≡ no_slots_of }
{
    [labels::no_side(); 16]
}

// The side t below the nodes of the open slots 1 to h.
#[tactic(auto, using(crate::proofs::SlotLaws::sealed_next), unfolding(skiplist::specs::Slots::sealed))]
pub fn sealed(s: [Side; 16], h: usize, t: Side) -> Side
    requires { h ≤ most_height }
    ensures { result ≡ sealed_of s h t }
{
    let mut x = t;
    for l in 1..h + 1 {
        if !s[l].empty {
            x = labels::node(l as u8, x, s[l]);
        }
    }
    x
}

// The slots 0 to h shut.
#[tactic(auto, using(crate::proofs::SlotLaws::filled))]
fn shut(s: [Side; 16], h: usize) -> [Side; 16]
    requires { h ≤ most_height }
    ensures { result ≡ shut_of s h }
{
    let mut x = s;
    x[..=h].fill(labels::no_side());
    x
}

// A block's column of height h in front: its leaf, below what is open up to h, waits in slot h.
#[tactic(auto, using(crate::proofs::SlotLaws::with_column_is))]
pub fn with_column(s: [Side; 16], h: usize, tag: [u8; 32]) -> [Side; 16]
    requires { h ≤ most_height }
    ensures { result ≡ with_column_of s h (block_item tag) }
{
    let t = sealed(s, h, labels::leaf(1, tag, s[0]));
    let mut x = shut(s, h);
    x[h] = t;
    x
}
