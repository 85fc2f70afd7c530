ghost use Rattle.std.specs.Prelude.{◌≡◌, ℕ, ◌+◌, ◌^◌, ◌≤◌, IsFalse, IsTrue, List, [], ◌++◌, length};
ghost use Rattle.fixed_interval.specs.Ends.{between, shifted_ends};
ghost use Rattle.fixed_interval.specs.WeightList.{EnclosesAll};
ghost use Rattle.hyper_model.specs.declared.kinds.Line.TheVariants as line;
ghost use Rattle.hyper_model.specs.Plans.{all_calls};
ghost use Rattle.hyper_model.specs.Solutions.{mass_in};
ghost use Rattle.crew_stations.specs.Stations.{fleet_service, states};
ghost use Rattle.queue_tail.specs.Tail.{IsTailOf};
ghost use Rattle.state_certificate.specs.Masses.{AreOrdered};
ghost use Rattle.station_flows.specs.CertifiedStates.{AreCertifiedStateWeights, AreWidestStateWeights, EncloseEverySolution, GainsWaiting, places, tail_masses, weights_between};

use crate::StateFlows;
use crate::solver::FleetWeights;
use crew_stations::{Fleet, law_fleet};
use fixed_interval::Wide;
use hyper_model::Line;
use queue_tail::add_tail;
use state_certificate::bound_solutions;

/// Weighs the states in the order of their numbers, and if calls wait all states in which one does. Answers whether the
/// weights are certified.
pub(crate) fn weigh_states(
    flows: &StateFlows,
    masses: &mut [u64],
    room: &mut [u64],
    low: &mut [u64],
    high: &mut [u64],
    weights: &mut FleetWeights,
) -> bool
    requires masses { length masses.old ≡ states flows.now.numbers }
    requires room { length room.old ≡ states flows.now.numbers }
    requires low { length low.old ≡ states flows.now.numbers }
    requires high { length high.old ≡ states flows.now.numbers }
    requires empty { weights.old.items ≡ [] }
    requires spare { states flows.now.numbers + 1 ≤ weights.old.spare }
    ensures certified { IsTrue result → AreCertifiedStateWeights flows.now.numbers weights.new.items }
    ensures widest { IsFalse result → AreWidestStateWeights flows.now.numbers weights.new.items }
    ensures one_each { length weights.new.items ≡ places flows.now.numbers }
    ensures encloses { EncloseEverySolution flows.now.numbers weights.new.items }
{
    let certified = bound_solutions(flows, masses, room, low, high);
    push_states(low, high, weights);
    push_waiting(flows.numbers.fleet(), weights);
    certified
}

/// Puts the weight of each state into the list.
fn push_states(low: &[u64], high: &[u64], weights: &mut FleetWeights)
    requires masses { AreOrdered (length low.now) (2 ^ 62) low.now high.now }
    requires empty { weights.old.items ≡ [] }
    requires room { length low.now ≤ weights.old.spare }
    ensures items { weights.new.items ≡ weights_between (mass_in low.now) (mass_in high.now) (length low.now) }
    ensures spare { weights.new.spare + length low.now ≡ weights.old.spare }
{
    for state in 0..low.len() {
        weights.push_shifting(weight_between(low[state], high[state]));
    }
}

/// The weight from the low to the high mass, in a unit of `2^10`: so its high end is at most `2^52`, and no weight is
/// shifted.
fn weight_between(low: u64, high: u64) -> Wide
    requires ordered { low ≤ high }
    requires in_range { high ≤ 2 ^ 62 }
    ensures ends { result ≡ shifted_ends 10 (between low high) }
    ensures most { result.hi ≤ 2 ^ 52 }
{
    Wide::new(
        u128::from(low >> 10),
        u128::from((high + ((1 << 10) - 1)) >> 10),
    )
}

/// Puts the weight of the waiting calls after the others, if calls wait.
fn push_waiting(fleet: &Fleet, weights: &mut FleetWeights)
    requires some { 1 ≤ length weights.old.items }
    requires room { 1 ≤ weights.old.spare }
    ensures items { GainsWaiting fleet.now.parts.line fleet.now weights.old.items weights.new.items }
    ensures encloses { (masses : List ℕ) (z : ℕ)
        → (fleet.now.parts.line ≡ line.Infinite → IsTailOf (all_calls fleet.now.parts) (fleet_service fleet.now) masses z)
        → EnclosesAll weights.old.items masses → EnclosesAll weights.new.items (masses ++ tail_masses fleet.now.parts.line z) }
{
    law_fleet(fleet);
    match fleet.parts().line {
        Line::Zero => {}
        Line::Infinite => add_tail(weights, fleet.calls(), fleet.service()),
    }
}
