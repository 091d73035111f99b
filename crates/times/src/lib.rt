//! Sample times in the order of an archive: the place where a late block belongs, found by the store from its own times.
#![tactic(auto)]

ghost use Rattle.std.specs.Prelude.{◌≡◌};
ghost use Rattle.times.specs.Times.{place_for};

// The place after which a block of this time belongs: how many times stand before the first that is later.
pub fn place(times: &[u32], time: u32) -> u64
    ensures { result ≡ place_for times.now time }
{
    times.iter().position(|t| time < *t).unwrap_or(times.len()) as u64
}
