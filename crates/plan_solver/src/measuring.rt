ghost use Rattle.std.specs.Prelude.{◌≡◌, ◌+◌, ◌≤◌, ◌++◌, All, IfOk, length};
ghost use Rattle.hyper_model.specs.declared.TheConstants.{MOST_DISPATCHES, MOST_TIMES};
ghost use Rattle.hyper_model.specs.Enclosures.{IsOrderedEnclosed};
ghost use Rattle.busy_words.specs.WeightParts.{IsOrderOf, places};
ghost use Rattle.workload_measures.specs.LoadEnds.{line_measures};
ghost use Rattle.dispatch_fractions.specs.PartLists.{AreSizedFor};
ghost use Rattle.dispatch_fractions.specs.Fractions.{fractions_of, interdistrict_of};
ghost use Rattle.travel_measures.specs.TravelEnds.{travel_times_of};
ghost use Rattle.plan_solver.specs.Enclosures.{measures_of};

use crate::Weighed;
use dispatch_fractions::{Parts, fractions, interdistrict};
use fixed_interval::Weights;
use hyper_model::{Enclosed, Enclosures, Line, MOST_MEASURES, Plan, law_accepted};
use std::alloc::{AllocError, Global};
use travel_measures::{atom_times, district_times, region_time, unit_times};
use workload_measures::{loss_or_delay, mean_wait, queue_length, workloads};

/// All measures of a plan, in the order in which a report prints them.
pub(crate) fn measures(
    alloc: Global,
    plan: &Plan,
    weighed: &Weighed,
) -> Result<Enclosures, AllocError>
    requires order { IsOrderOf plan.now weighed.now.order }
    requires one_each { length weighed.now.weights.items ≡ places plan.now }
    ensures { IfOk result (λ found. found.items ≡ measures_of plan.now weighed.now.order weighed.now.weights.items) }
{
    law_accepted(plan);
    let mut found = Enclosures::reserved(alloc, MOST_MEASURES)?;
    push_line(&mut found, plan, &weighed.weights);
    push_all(
        &mut found,
        &workloads(alloc, plan, &weighed.order, &weighed.weights)?,
    );
    let parts = Parts::of(alloc, plan, &weighed.order, &weighed.weights)?;
    push_dispatches(&mut found, alloc, plan, &parts)?;
    push_travel(&mut found, alloc, plan, &parts)?;
    Ok(found)
}

/// What is found of the calls that come while all units are busy.
fn push_line(found: &mut Enclosures, plan: &Plan, weights: &Weights)
    requires one_each { length weights.now.items ≡ places plan.now }
    requires room { 3 ≤ found.old.spare }
    ensures items { found.new.items ≡ found.old.items ++ line_measures plan.now.line plan.now weights.now.items }
    ensures room { found.old.spare ≤ found.new.spare + 3 }
{
    found.push(loss_or_delay(plan, weights));
    if plan.line() == Line::Infinite {
        found.push(queue_length(plan, weights));
        found.push(mean_wait(plan, weights));
    }
}

/// Dispatches, and those that lead out of a district.
fn push_dispatches(
    found: &mut Enclosures,
    alloc: Global,
    plan: &Plan,
    parts: &Parts,
) -> Result<(), AllocError>
    requires sized { AreSizedFor plan.now parts.now }
    requires room { MOST_DISPATCHES ≤ found.old.spare }
    ensures items { IfOk result (λ _. found.new.items
        ≡ found.old.items ++ fractions_of plan.now parts.now ++ interdistrict_of plan.now parts.now) }
    ensures room { IfOk result (λ _. found.old.spare ≤ found.new.spare + MOST_DISPATCHES) }
{
    law_accepted(plan);
    push_all(found, &fractions(alloc, plan, parts)?);
    push_all(found, &interdistrict(alloc, plan, parts)?);
    Ok(())
}

/// Travel times: of the region, of atoms, of units, and of districts.
fn push_travel(
    found: &mut Enclosures,
    alloc: Global,
    plan: &Plan,
    parts: &Parts,
) -> Result<(), AllocError>
    requires sized { AreSizedFor plan.now parts.now }
    requires room { MOST_TIMES ≤ found.old.spare }
    ensures { IfOk result (λ _. found.new.items ≡ found.old.items ++ travel_times_of plan.now parts.now) }
{
    law_accepted(plan);
    found.push(region_time(plan, parts));
    push_all(found, &atom_times(alloc, plan, parts)?);
    push_all(found, &unit_times(alloc, plan, parts)?);
    push_all(found, &district_times(alloc, plan, parts)?);
    Ok(())
}

fn push_all(found: &mut Enclosures, items: &[Enclosed])
    requires room { length items.now ≤ found.old.spare }
    requires ordered { All IsOrderedEnclosed items.now }
    ensures items { found.new.items ≡ found.old.items ++ items.now }
    ensures room { found.new.spare + length items.now ≡ found.old.spare }
{
    for item in items {
        found.push(*item);
    }
}
