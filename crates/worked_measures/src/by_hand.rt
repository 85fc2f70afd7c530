ghost use Rattle.std.specs.Prelude.{◌≡◌, ◌≤◌, IfOk, IsTrue, length};
ghost use Rattle.busy_words.specs.WeightParts.{IsOrderOf, places};
ghost use Rattle.dispatch_fractions.specs.PartLists.{AreSizedFor};

use busy_words::Order;
use dispatch_fractions::{Parts, fractions, interdistrict};
use fixed_interval::{Iv, Weights};
use hyper_model::{Enclosed, Line, Plan};
use std::alloc::{AllocError, Global};
use std::process::Abort;
use std::test::Fail;
use travel_measures::{atom_times, district_times, region_time, unit_times};
use workload_measures::{loss_or_delay, mean_wait, queue_length, workloads};

/// All measures of a plan with these masses, in the order of its report.
pub(crate) fn measures(
    rt: &impl Abort,
    alloc: Global,
    plan: &Plan,
    masses: &[u64],
) -> Result<Vec<Enclosed>, Fail> {
    let weights = weights_of(rt, alloc, masses)?;
    assert!(rt; has_each(plan, &weights));
    Ok(measures_by(alloc, plan, &weights)?)
}

fn measures_by(alloc: Global, plan: &Plan, weights: &Weights) -> Result<Vec<Enclosed>, AllocError>
    requires { length weights.now.items ≡ places plan.now }
{
    let mut found = Vec::new(alloc);
    push_measures(&mut found, alloc, plan, weights)?;
    Ok(found)
}

fn push_measures(
    found: &mut Vec<Enclosed>,
    alloc: Global,
    plan: &Plan,
    weights: &Weights,
) -> Result<(), AllocError>
    requires { length weights.now.items ≡ places plan.now }
{
    push_calls(found, plan, weights)?;
    let order = order_of(alloc, plan)?;
    push_all(found, workloads(alloc, plan, &order, weights))?;
    let parts = Parts::of(alloc, plan, &order, weights)?;
    push_answers(found, alloc, plan, &parts)
}

/// 2^52 for the first mass, and the others in its proportion.
fn weights_of(rt: &impl Abort, alloc: Global, masses: &[u64]) -> Result<Weights, Fail> {
    assert!(rt; 1 <= masses.len() && masses.len() <= 4097);
    let unit = masses[0];
    assert!(rt; 1 <= unit);
    let mut weights = Weights::reserved(alloc, masses.len())?;
    for mass in masses {
        let weight = Iv::exact(1 << 52).wide().ratio(*mass, unit);
        assert!(rt; weight.hi() < 1 << 100);
        weights.push_shifting(weight);
    }
    Ok(weights)
}

/// Whether there is a weight for each word, and on the infinite line one more.
fn has_each(plan: &Plan, weights: &Weights) -> bool
    ensures { IsTrue result → length weights.now.items ≡ places plan.now }
{
    let words: usize = 1 << plan.units();
    match plan.line() {
        Line::Zero => weights.len() == words,
        Line::Infinite => weights.len() == words + 1,
    }
}

/// The words of the plan's units in their order.
fn order_of(alloc: Global, plan: &Plan) -> Result<Order, AllocError>
    ensures { IfOk result (λ order. IsOrderOf plan.now order) }
{
    Order::of(alloc, plan.units() as u8)
}

/// What becomes of the calls.
fn push_calls(found: &mut Vec<Enclosed>, plan: &Plan, weights: &Weights) -> Result<(), AllocError>
    requires { length weights.now.items ≡ places plan.now }
{
    found.push(loss_or_delay(plan, weights))?;
    match plan.line() {
        Line::Zero => Ok(()),
        Line::Infinite => {
            found.extend_from_slice(&[queue_length(plan, weights), mean_wait(plan, weights)])
        }
    }
}

/// Who answers whose calls, and how long the units travel.
fn push_answers(
    found: &mut Vec<Enclosed>,
    alloc: Global,
    plan: &Plan,
    parts: &Parts,
) -> Result<(), AllocError>
    requires { AreSizedFor plan.now parts.now }
{
    push_all(found, fractions(alloc, plan, parts))?;
    push_all(found, interdistrict(alloc, plan, parts))?;
    found.push(region_time(plan, parts))?;
    push_all(found, atom_times(alloc, plan, parts))?;
    push_all(found, unit_times(alloc, plan, parts))?;
    push_all(found, district_times(alloc, plan, parts))
}

fn push_all(
    found: &mut Vec<Enclosed>,
    more: Result<Vec<Enclosed>, AllocError>,
) -> Result<(), AllocError> {
    found.extend_from_slice(&more?)
}
