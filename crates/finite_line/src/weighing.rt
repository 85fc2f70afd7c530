ghost use Rattle.std.specs.Prelude.{◌≡◌, ◌+◌, ◌<◌, ◌≤◌, [], IfOk, length};
ghost use Rattle.fixed_interval.specs.WeightList.{ends_at};
ghost use Rattle.finite_line.specs.FiniteWeights.{AreFiniteWeights, GainsQueue};
ghost use Rattle.finite_line.specs.Refusals.{IsFinitePlan};
ghost use Rattle.finite_line.specs.declared.TheConstants.{MOST_PLACES};

use fixed_interval::Weights;
use hyper_model::{Plan, law_accepted};
use plan_solver::{Solver, Weighed};
use queue_tail::add_multiple;
use std::alloc::{AllocError, Global};

/// The weights of a plan's words, and after them those of the states in which 1 to `places` calls wait.
pub(crate) fn weigh_queue(alloc: Global, plan: &Plan, places: u32) -> Result<Weighed, AllocError>
    requires possible { IsFinitePlan plan.now }
    requires most { places ≤ MOST_PLACES }
    ensures { IfOk result (λ weighed. AreFiniteWeights plan.now places weighed.order weighed.weights.items) }
{
    law_accepted(plan);
    let Weighed {
        order,
        weights: words,
    } = Solver::reserved(alloc, plan)?.weigh();
    let mut weights = Weights::reserved(alloc, words.len() + places as usize)?;
    copy_weights(&mut weights, &words);
    add_queue(&mut weights, plan.calls(), plan.service(), places);
    Ok(Weighed { order, weights })
}

// Puts the same weights into an empty list.
fn copy_weights(copy: &mut Weights, weights: &Weights)
    requires empty { copy.old.items ≡ [] }
    requires room { length weights.now.items ≤ copy.old.spare }
    ensures items { copy.new.items ≡ weights.now.items }
    ensures spare { copy.new.spare + length weights.now.items ≡ copy.old.spare }
{
    for place in 0..weights.len() {
        copy.push_shifting(weights.get(place).wide());
    }
}

// Puts the weights of the states in which 1 to `places` calls wait after those of the words.
fn add_queue(weights: &mut Weights, calls: u32, service: u32, places: u32)
    requires served { 1 ≤ service }
    requires some { 1 ≤ length weights.old.items }
    requires room { places ≤ weights.old.spare }
    ensures { GainsQueue calls service places weights.old.items weights.new.items }
{
    for _place in 0..places {
        add_multiple(weights, calls, service);
    }
}
