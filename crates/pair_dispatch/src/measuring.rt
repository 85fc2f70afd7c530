ghost use Rattle.std.specs.Prelude.{◌≡◌, ◌^◌, ◌*◌, ◌<◌, ◌≤◌, ◌++◌, IfOk, length, map};
ghost use Rattle.std.specs.List.{flat_map, range_with_len};
ghost use Rattle.fixed_interval.specs.WeightList.{ends_at};
ghost use Rattle.hyper_model.specs.Plans.{units};
ghost use Rattle.hyper_model.specs.Words.{words};
ghost use Rattle.busy_words.specs.WeightParts.{IsOrderOf};
ghost use Rattle.pair_dispatch.specs.PairEnds as spec;
ghost use Rattle.pair_dispatch.specs.PairEnds.{IsSetOf, both_sent_ends, measures_of, pairs_from};

use crate::sums::part_of;
use crate::word_set::WordSet;
use crate::{PairEnds, PairFound, PairMeasure};
use busy_words::Order;
use fixed_interval::{Weights, Wide};
use hyper_model::Plan;
use std::alloc::{AllocError, Global};

/// All measures with the ends that the weights give, in the order in which they are printed.
pub(crate) fn measures(
    alloc: Global,
    plan: &Plan,
    order: &Order,
    weights: &Weights,
) -> Result<PairFound, AllocError>
    requires order { IsOrderOf plan.now order.now }
    requires one_each { length weights.now.items ≡ words plan.now }
    ensures { IfOk result (λ found. found.items ≡ measures_of plan.now order.now weights.now.items) }
{
    let mut found = Vec::new(alloc);
    let loss = share_of(plan, order, weights, PairMeasure::Loss, WordSet::Full);
    found.push(loss)?;
    let short = share_of(plan, order, weights, PairMeasure::Short, WordSet::OneFree);
    found.push(short)?;
    push_workloads(&mut found, plan, order, weights)?;
    push_pairs(&mut found, plan, order, weights)?;
    Ok(found)
}

fn push_workloads(
    found: &mut Vec<PairEnds>,
    plan: &Plan,
    order: &Order,
    weights: &Weights,
) -> Result<(), AllocError>
    requires order { IsOrderOf plan.now order.now }
    requires one_each { length weights.now.items ≡ words plan.now }
    ensures { IfOk result (λ _. found.new.items ≡ found.old.items
        ++ map (spec.workload_of plan.now order.now weights.now.items) (range_with_len 0 (units plan.now))) }
{
    for unit in 0..plan.units() as u8 {
        let workload = share_of(
            plan,
            order,
            weights,
            PairMeasure::Workload(unit),
            WordSet::Busy(unit),
        );
        found.push(workload)?;
    }
    Ok(())
}

fn push_pairs(
    found: &mut Vec<PairEnds>,
    plan: &Plan,
    order: &Order,
    weights: &Weights,
) -> Result<(), AllocError>
    requires order { IsOrderOf plan.now order.now }
    requires one_each { length weights.now.items ≡ words plan.now }
    ensures { IfOk result (λ _. found.new.items ≡ found.old.items
        ++ flat_map (pairs_from plan.now order.now weights.now.items) (range_with_len 0 (units plan.now))) }
{
    for first in 0..plan.units() as u8 {
        push_pairs_from(found, plan, order, weights, first)?;
    }
    Ok(())
}

// The unit with each unit after it.
fn push_pairs_from(
    found: &mut Vec<PairEnds>,
    plan: &Plan,
    order: &Order,
    weights: &Weights,
    first: u8,
) -> Result<(), AllocError>
    requires order { IsOrderOf plan.now order.now }
    requires one_each { length weights.now.items ≡ words plan.now }
    requires first { first < units plan.now }
    ensures { IfOk result (λ _. found.new.items
        ≡ found.old.items ++ pairs_from plan.now order.now weights.now.items first) }
{
    let units = plan.units() as u8;
    for second in first + 1..units {
        found.push(pair_of(plan, order, weights, first, second))?;
    }
    Ok(())
}

// A measure that is the part of a set of words.
fn share_of(
    plan: &Plan,
    order: &Order,
    weights: &Weights,
    measure: PairMeasure,
    set: WordSet,
) -> PairEnds
    requires order { IsOrderOf plan.now order.now }
    requires one_each { length weights.now.items ≡ words plan.now }
    requires set { IsSetOf plan.now set }
    ensures { result ≡ spec.share_of plan.now order.now weights.now.items measure set }
{
    let (lo, hi) = part_of(plan, order, weights, set).outward(1_000_000);
    PairEnds { measure, lo, hi }
}

fn pair_of(plan: &Plan, order: &Order, weights: &Weights, first: u8, second: u8) -> PairEnds
    requires order { IsOrderOf plan.now order.now }
    requires one_each { length weights.now.items ≡ words plan.now }
    requires first { first < units plan.now }
    requires second { second < units plan.now }
    ensures { result ≡ spec.pair_of plan.now order.now weights.now.items first second }
{
    let all = u128::from(plan.calls()) << 62;
    let millionths = both_sent(plan, order, weights, first, second).scaled(1_000_000);
    let share = millionths.over(Wide::new(all, all), 1_000_000);
    PairEnds {
        measure: PairMeasure::Pair(first, second),
        lo: share.lo() as u64,
        hi: share.hi() as u64,
    }
}

// The parts of the words in which both units are sent to a call of an atom, each times the rate of its calls.
fn both_sent(plan: &Plan, order: &Order, weights: &Weights, first: u8, second: u8) -> Wide
    requires order { IsOrderOf plan.now order.now }
    requires one_each { length weights.now.items ≡ words plan.now }
    requires first { first < units plan.now }
    requires second { second < units plan.now }
    ensures ends { result ≡ both_sent_ends plan.now order.now (ends_at weights.now.items) first second }
    ensures most { result.hi ≤ 200 * (1000000 * 2 ^ 62) }
{
    let mut sum = Wide::new(0, 0);
    for atom in 0..plan.atoms() {
        let part = part_of(
            plan,
            order,
            weights,
            WordSet::BothSent(atom as u16, first, second),
        );
        sum = sum.plus(part.wide().scaled(u64::from(plan.atom(atom).rate)));
    }
    sum
}
