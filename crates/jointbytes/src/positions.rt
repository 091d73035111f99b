// The positions that a joint proof is asked for, whatever they are.
// Two tests and no type of good sets: some calls need one of them, some both.
ghost use Rattle.std.specs.Prelude.{◌≡◌};
ghost use Rattle.jointbytes.specs.Positions.{rising as rising_is, is_set, within as within_is};

use crate::MOST_POSITIONS;

// Is each above the one before?
fn rising(ps: &[u64]) -> bool
    ensures { result ≡ rising_is ps.now }
{
    ps.windows(2).all(|w| w[0] < w[1])
}

// Not 13: 1 to 32 of them, rising.
pub fn is_set(ps: &[u64]) -> bool
    ensures { result ≡ is_set ps.now }
{
    (1..=MOST_POSITIONS).contains(&ps.len()) && rising(ps)
}

// Not 2: each is 1 to n.
#[tactic(auto, unfolding(crate::specs::Positions::within))]
pub fn within(n: u64, ps: &[u64]) -> bool
    ensures { result ≡ within_is n ps.now }
{
    ps.iter().all(|p| (1..=n).contains(p))
}
