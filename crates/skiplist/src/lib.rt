//! The rank-based authenticated skip list as mathematics: `specs/` defines it and `proofs/` has the theorems. The
//! functions here do nothing: each has a theorem as its contract.
#![tactic(auto)]

ghost use Rattle.skiplist.specs.Commands.{AlwaysTrusted};

/// Demand 3 over entries and stops, for every digest of 32 bytes.
#[tactic(auto, using(crate::proofs::Trust::trusted))]
pub fn accepted_is_trusted()
    ensures { AlwaysTrusted }
{}
