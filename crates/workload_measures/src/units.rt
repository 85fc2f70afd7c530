ghost use Rattle.std.specs.Prelude.{◌≡◌, ◌<◌, All, IfOk, length};
ghost use Rattle.hyper_model.specs.Enclosures.{IsOrderedEnclosed};
ghost use Rattle.hyper_model.specs.Plans.{units};
ghost use Rattle.busy_words.specs.WeightParts.{IsOrderOf, places};
ghost use Rattle.workload_measures.specs.LoadEnds.{workload_of, workloads_of};

use crate::rounding::share;
use busy_words::{Order, busy_part};
use fixed_interval::Weights;
use hyper_model::{Enclosed, Measure, Plan, push_each};
use std::alloc::{AllocError, Global};

/// The share of time that each unit is busy, in millionths, in the order of the units.
pub fn workloads(
    alloc: Global,
    plan: &Plan,
    order: &Order,
    weights: &Weights,
) -> Result<Vec<Enclosed>, AllocError>
    requires order { IsOrderOf plan.now order.now }
    requires one_each { length weights.now.items ≡ places plan.now }
    ensures exact { IfOk result (λ found. found.items ≡ workloads_of plan.now order.now weights.now.items) }
    ensures ordered { IfOk result (λ found. All IsOrderedEnclosed found.items) }
{
    let mut found = Vec::new(alloc);
    push_each(&mut found, plan.units(), |unit| {
        workload(plan, order, weights, unit as u8)
    })?;
    Ok(found)
}

fn workload(plan: &Plan, order: &Order, weights: &Weights, unit: u8) -> Enclosed
    requires order { IsOrderOf plan.now order.now }
    requires one_each { length weights.now.items ≡ places plan.now }
    requires unit { unit < units plan.now }
    ensures exact { result ≡ workload_of plan.now order.now weights.now.items unit }
    ensures ordered { IsOrderedEnclosed result }
{
    share(
        Measure::Workload(unit),
        busy_part(plan, order, weights, unit),
    )
}
