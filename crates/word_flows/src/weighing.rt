ghost use Rattle.std.specs.Prelude.{◌≡◌, ℕ, ◌+◌, ◌^◌, ◌≤◌, IsTrue, List, [], ◌++◌, length};
ghost use Rattle.fixed_interval.specs.Ends.{between, shifted_ends};
ghost use Rattle.fixed_interval.specs.WeightList.{EnclosesAll};
ghost use Rattle.hyper_model.specs.declared.kinds.Line.TheVariants as line;
ghost use Rattle.hyper_model.specs.Plans.{all_calls, all_service, IsStable};
ghost use Rattle.hyper_model.specs.Solutions.{IsSolution, mass_in};
ghost use Rattle.hyper_model.specs.Words.{words};
ghost use Rattle.busy_words.specs.WeightParts.{EnclosesSolution, IsOrderOf, places, tail_masses};
ghost use Rattle.queue_tail.specs.Tail.{IsTailOf};
ghost use Rattle.state_certificate.specs.Masses.{AreOrdered};
ghost use Rattle.word_flows.specs.CertifiedWeights.{AreCertifiedWeights, GainsWaiting, weights_between};

use crate::WordFlows;
use busy_words::Order;
use fixed_interval::{Weights, Wide};
use hyper_model::{Line, Plan, law_accepted};
use queue_tail::add_tail;
use state_certificate::bound_solutions;

/// Weighs the words in their order, and if calls wait the states in which one does. Answers whether the weights are
/// certified.
pub(crate) fn weigh_words(
    flows: &WordFlows,
    order: &Order,
    masses: &mut [u64],
    room: &mut [u64],
    low: &mut [u64],
    high: &mut [u64],
    weights: &mut Weights,
) -> bool
    requires order { IsOrderOf flows.now.plan.now order.now }
    requires masses { length masses.old ≡ words flows.now.plan.now }
    requires room { length room.old ≡ words flows.now.plan.now }
    requires low { length low.old ≡ words flows.now.plan.now }
    requires high { length high.old ≡ words flows.now.plan.now }
    requires empty { weights.old.items ≡ [] }
    requires spare { words flows.now.plan.now + 1 ≤ weights.old.spare }
    ensures certified { IsTrue result → AreCertifiedWeights flows.now.plan.now order.now weights.new.items }
    ensures one_each { length weights.new.items ≡ places flows.now.plan.now }
    ensures encloses { (xs : List ℕ) (z : ℕ) → IsSolution flows.now.plan.now xs z
        → EnclosesSolution flows.now.plan.now order.now weights.new.items xs z }
{
    law_accepted(flows.plan);
    let certified = bound_solutions(flows, masses, room, low, high);
    push_words(order, low, high, weights);
    push_waiting(flows.plan, weights);
    certified
}

/// Puts the weight of each word into the list, in the order of the words.
fn push_words(order: &Order, low: &[u64], high: &[u64], weights: &mut Weights)
    requires masses { AreOrdered (2 ^ order.now.units) (2 ^ 62) low.now high.now }
    requires empty { weights.old.items ≡ [] }
    requires room { 2 ^ order.now.units ≤ weights.old.spare }
    ensures items { weights.new.items ≡ weights_between (mass_in low.now) (mass_in high.now) order.now.words }
    ensures spare { weights.new.spare + 2 ^ order.now.units ≡ weights.old.spare }
{
    for rank in 0..order.len() {
        let word = usize::from(order.word(rank));
        weights.push_shifting(weight_between(low[word], high[word]));
    }
}

/// The weight from the low to the high mass, in a unit of `2^10`: so its high end is at most `2^52`, and no weight is
/// shifted.
fn weight_between(low: u64, high: u64) -> Wide
    requires ordered { low ≤ high }
    requires in_range { high ≤ 2 ^ 62 }
    ensures ends { result ≡ shifted_ends 10 (between low high) }
    ensures most { result.hi ≤ 2 ^ 52 }
{
    Wide::new(
        u128::from(low >> 10),
        u128::from((high + ((1 << 10) - 1)) >> 10),
    )
}

/// Puts the weight of the waiting calls after the others, if calls wait.
fn push_waiting(plan: &Plan, weights: &mut Weights)
    requires some { 1 ≤ length weights.old.items }
    requires room { 1 ≤ weights.old.spare }
    ensures items { GainsWaiting plan.now.line plan.now weights.old.items weights.new.items }
    ensures encloses { (masses : List ℕ) (z : ℕ)
        → (plan.now.line ≡ line.Infinite → IsTailOf (all_calls plan.now) (all_service plan.now) masses z)
        → EnclosesAll weights.old.items masses → EnclosesAll weights.new.items (masses ++ tail_masses plan.now.line z) }
{
    law_accepted(plan);
    match plan.line() {
        Line::Zero => {}
        Line::Infinite => add_tail(weights, plan.calls(), plan.service()),
    }
}
