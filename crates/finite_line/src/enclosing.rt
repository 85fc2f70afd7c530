ghost use Rattle.std.specs.Prelude.{◌≡◌, ◌+◌, ◌≤◌, ◌++◌, All, IfOk, List, length};
ghost use Rattle.hyper_model.specs.Plans.{units};
ghost use Rattle.hyper_model.specs.Words.{words};
ghost use Rattle.busy_words.specs.WeightParts.{IsOrderOf};
ghost use Rattle.finite_line.specs.FiniteMeasures.{ContainsFiniteSolutions, IsFiniteInRange};
ghost use Rattle.finite_line.specs.FiniteSolutions.{HasFiniteSolution};
ghost use Rattle.finite_line.specs.PrintedEnds.{IsFiniteEnclosureOf, finite_items, workload_items};
ghost use Rattle.finite_line.specs.Refusals.{IsFinitePlan};
ghost use Rattle.finite_line.specs.declared.TheConstants.{MOST_PLACES};
ghost use Rattle.finite_line.specs.declared.kinds.FiniteEnds.{FiniteEnds};

use crate::measuring::found_of;
use crate::weighing::weigh_queue;
use crate::{FiniteFound, FiniteMeasure};
use hyper_model::{Plan, law_accepted};
use plan_solver::Weighed;
use std::alloc::{AllocError, Global};

/// All measures of a plan with 1 to 1000 waiting places, in the order in which they are printed, each with ends that contain
/// its value for every solution of the balance equations.
///
/// A call that finds all units busy waits if a place is free, and else is lost (Larson and Odoni, Urban Operations Research,
/// chapter 5). [`check_finite`](crate::check_finite) says whether a plan can have waiting places. There is only one such
/// list. There is an error only for lack of memory.
pub fn enclose_finite(alloc: Global, plan: &Plan, places: u32) -> Result<FiniteFound, AllocError>
    requires possible { IsFinitePlan plan.now }
    requires least { 1 ≤ places }
    requires most { places ≤ MOST_PLACES }
    ensures solvable { HasFiniteSolution plan.now places }
    ensures exact { IfOk result (IsFiniteEnclosureOf plan.now places) }
    ensures alone { IfOk result (λ found. (others : List FiniteEnds) → IsFiniteEnclosureOf plan.now places others
        → others ≡ found) }
    ensures contains { IfOk result (ContainsFiniteSolutions plan.now places) }
    ensures in_range { IfOk result (All (λ e. IsFiniteInRange (units plan.now) e.measure)) }
{
    law_accepted(plan);
    let weighed = weigh_queue(alloc, plan, places)?;
    measures(alloc, plan, places, &weighed)
}

// The measures with the ends that the weights give.
fn measures(
    alloc: Global,
    plan: &Plan,
    places: u32,
    weighed: &Weighed,
) -> Result<FiniteFound, AllocError>
    requires possible { IsFinitePlan plan.now }
    requires most { places ≤ MOST_PLACES }
    requires order { IsOrderOf plan.now weighed.now.order }
    requires one_each { length weighed.now.weights.items ≡ words plan.now + places }
    ensures { IfOk result (λ found. found ≡ finite_items plan.now places weighed.now.order weighed.now.weights.items) }
{
    let mut found = FiniteFound::of(alloc)?;
    found.push(found_of(plan, places, weighed, FiniteMeasure::Lost));
    found.push(found_of(plan, places, weighed, FiniteMeasure::Delayed));
    found.push(found_of(plan, places, weighed, FiniteMeasure::Busy));
    found.push(found_of(plan, places, weighed, FiniteMeasure::Queue));
    found.push(found_of(plan, places, weighed, FiniteMeasure::Wait));
    push_workloads(&mut found, plan, places, weighed);
    Ok(found)
}

// The workload of each unit, after the other measures.
fn push_workloads(found: &mut FiniteFound, plan: &Plan, places: u32, weighed: &Weighed)
    requires possible { IsFinitePlan plan.now }
    requires most { places ≤ MOST_PLACES }
    requires order { IsOrderOf plan.now weighed.now.order }
    requires one_each { length weighed.now.weights.items ≡ words plan.now + places }
    requires room { length found.old ≤ 5 }
    ensures { found.new ≡ found.old ++ workload_items plan.now places weighed.now.order weighed.now.weights.items }
{
    for unit in 0..plan.units() {
        found.push(found_of(plan, places, weighed, FiniteMeasure::Workload(unit as u8)));
    }
}
