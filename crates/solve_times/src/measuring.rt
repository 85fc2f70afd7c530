ghost use Rattle.std.specs.Prelude.{◌≡◌, length};
ghost use Rattle.busy_words.specs.WeightParts.{IsOrderOf, places};
ghost use Rattle.dispatch_fractions.specs.PartLists.{AreSizedFor};

use dispatch_fractions::{Parts, fractions, interdistrict};
use hyper_model::{Line, Plan};
use plan_solver::Weighed;
use std::alloc::{AllocError, Global};
use travel_measures::{atom_times, district_times, region_time, unit_times};
use workload_measures::{loss_or_delay, mean_wait, queue_length, workloads};

/// Finds all measures of a plan from the weights of its states, and keeps none.
pub(crate) fn measure(alloc: Global, plan: &Plan, weighed: &Weighed) -> Result<(), AllocError>
    requires order { IsOrderOf plan.now weighed.now.order }
    requires one_each { length weighed.now.weights.items ≡ places plan.now }
{
    let (order, weights) = (&weighed.order, &weighed.weights);
    let _lost = loss_or_delay(plan, weights);
    if plan.line() == Line::Infinite {
        let _waiting = queue_length(plan, weights);
        let _wait = mean_wait(plan, weights);
    }
    workloads(alloc, plan, order, weights)?;
    measure_calls(alloc, plan, &Parts::of(alloc, plan, order, weights)?)
}

// Dispatches and travel times.
fn measure_calls(alloc: Global, plan: &Plan, parts: &Parts) -> Result<(), AllocError>
    requires { AreSizedFor plan.now parts.now }
{
    fractions(alloc, plan, parts)?;
    interdistrict(alloc, plan, parts)?;
    let _region = region_time(plan, parts);
    atom_times(alloc, plan, parts)?;
    unit_times(alloc, plan, parts)?;
    district_times(alloc, plan, parts)?;
    Ok(())
}
