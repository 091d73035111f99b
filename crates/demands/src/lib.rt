//! The demands over the calls: `specs/` states them and `proofs/` proves them. A function here does nothing: its
//! contract is a demand, so that the check proves it.
#![tactic(auto)]

ghost use Rattle.std.specs.Prelude.{ℕ, List};
ghost use Rattle.demands.specs.FirstDemand.{FirstDemand};
ghost use Rattle.demands.specs.SecondDemand.{SecondDemand};
ghost use Rattle.demands.specs.Placed.{Placed};
ghost use Rattle.demands.specs.ThirdDemand.{ThirdDemand};
ghost use Rattle.demands.specs.TaggedBlocks.{TaggedBlocks};
ghost use Rattle.demands.specs.MorningCheck.{MorningCheck};
ghost use Rattle.demands.specs.SentTwice.{SentTwice};
ghost use Rattle.demands.specs.LateFiler.{LateFiler};
ghost use Rattle.demands.specs.RowOfFive.{RowOfFive};
ghost use Rattle.demands.specs.Uniqueness.{Uniqueness};

/// A refusal hands back what it was given, changes no lent byte, and has one of the numbers of its call.
#[tactic(auto, using(crate::proofs::Theorems::first_demand))]
pub fn first_demand()
    ensures { FirstDemand }
{}

/// What store and gateway answer over a row within the limits, in one run of all the calls.
#[tactic(auto, using(crate::proofs::Theorems::second_demand))]
pub fn second_demand()
    ensures { SecondDemand }
{}

/// Every refusal stands where its rule puts it.
#[tactic(auto, using(crate::proofs::Theorems::all_placed))]
pub fn all_placed()
    ensures { Placed }
{}

/// What the gateway accepts is right, or two messages clash; 10 comes only with a clash.
#[tactic(auto, using(crate::proofs::Theorems::third_demand))]
pub fn third_demand()
    ensures { ThirdDemand }
{}

/// A block that matches the tag that the gateway reports is the one that stands there.
#[tactic(auto, using(crate::proofs::Theorems::tagged_blocks))]
pub fn tagged_blocks()
    ensures { TaggedBlocks }
{}

/// The joint proof, its spelling out, and what the store and the gateway make of it.
#[tactic(auto, using(crate::proofs::Theorems::morning_check))]
pub fn morning_check()
    ensures { MorningCheck }
{}

/// A block that comes again is refused by store and gateway alike.
#[tactic(auto, using(crate::proofs::Theorems::sent_twice))]
pub fn sent_twice()
    ensures { SentTwice }
{}

/// The late filer keeps the archive in time order, and takes the place that the store finds.
#[tactic(auto, using(crate::proofs::Theorems::late_filer))]
pub fn late_filer()
    ensures { LateFiler }
{}

/// The ten marked cases on the row of five, with any tags.
pub fn row_of_five()
    ensures { (A B C D E X : List ℕ) → RowOfFive A B C D E X }
{}

/// Two outcomes that satisfy a pledge are equal.
#[tactic(auto, using(crate::proofs::Theorems::uniqueness))]
pub fn one_outcome()
    ensures { Uniqueness }
{}
