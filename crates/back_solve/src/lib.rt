//! The weights of a chain's states, from the entries that an elimination leaves, and their laws.
#![tactic(auto)]

ghost use Rattle.back_solve.specs.Laws.{AreWeightsDetermined, DependOnEntries, NextWeightFits, WeightsEnclose, WeightsInRange};

mod solve;

pub use solve::solve_back;

/// The weights enclose, up to one common factor, all masses that the entries hold.
///
/// While they are made, each new weight has its ends in order and is below `2^100` before its shift, if the
/// matrix has at most 4,096 states, entries up to `2^62`, and each state but the first has entries to earlier
/// states that sum to at least `2^26`.
pub fn law_weights()
    ensures encloses { WeightsEnclose }
    ensures in_range { WeightsInRange }
    ensures next { NextWeightFits }
{}

/// A matrix has one list of weights, and it depends on the entries between different states only.
pub fn law_weights_determined()
    ensures one { AreWeightsDetermined }
    ensures entries { DependOnEntries }
{}
