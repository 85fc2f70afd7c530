ghost use Rattle.std.specs.Prelude.{◌≡◌, ◌+◌, ◌^◌, ◌<◌, ◌≤◌, length};
ghost use Rattle.fixed_interval.specs.Ends.{outward_ends};
ghost use Rattle.hyper_model.specs.Plans.{units};
ghost use Rattle.hyper_model.specs.Words.{full_word, words};
ghost use Rattle.busy_words.specs.WeightParts.{IsOrderOf};
ghost use Rattle.finite_line.specs.FiniteMeasures.{IsFiniteInRange};
ghost use Rattle.finite_line.specs.PrintedEnds.{finite_item, item_of, queue_ends, wait_ends};
ghost use Rattle.finite_line.specs.Refusals.{IsFinitePlan};
ghost use Rattle.finite_line.specs.declared.TheConstants.{MOST_PLACES};

use crate::sums::{queued_sum, sum_of_first};
use crate::{FiniteEnds, FiniteMeasure};
use busy_words::{part_between, unit_part};
use fixed_interval::{Iv, Weights, Wide};
use hyper_model::Plan;
use plan_solver::Weighed;

/// A measure of a plan with so many waiting places, with the ends that its weights give.
pub(crate) fn found_of(
    plan: &Plan,
    places: u32,
    weighed: &Weighed,
    measure: FiniteMeasure,
) -> FiniteEnds
    requires possible { IsFinitePlan plan.now }
    requires most { places ≤ MOST_PLACES }
    requires order { IsOrderOf plan.now weighed.now.order }
    requires one_each { length weighed.now.weights.items ≡ words plan.now + places }
    requires in_range { IsFiniteInRange (units plan.now) measure }
    ensures { result ≡ item_of plan.now places weighed.now.order weighed.now.weights.items measure }
{
    let weights = &weighed.weights;
    let full = full_place(plan);
    let last = full + places as usize;
    match measure {
        FiniteMeasure::Lost => share(measure, part_between(weights, last, last + 1)),
        FiniteMeasure::Delayed => share(measure, part_between(weights, full, last)),
        FiniteMeasure::Busy => share(measure, part_between(weights, full, last + 1)),
        FiniteMeasure::Queue => of_wide(measure, queue(plan, places, weights)),
        FiniteMeasure::Wait => of_wide(measure, wait(plan, places, weights)),
        FiniteMeasure::Workload(unit) => share(measure, unit_part(&weighed.order, weights, unit)),
    }
}

// The place of the full word, after all others.
fn full_place(plan: &Plan) -> usize
    requires { IsFinitePlan plan.now }
    ensures place { result ≡ full_word plan.now }
    ensures most { result ≤ 2047 }
{
    (1 << plan.units()) - 1
}

// The mean number of calls that wait.
fn queue(plan: &Plan, places: u32, weights: &Weights) -> Wide
    requires possible { IsFinitePlan plan.now }
    requires most { places ≤ MOST_PLACES }
    requires one_each { length weights.now.items ≡ words plan.now + places }
    ensures ends { result ≡ queue_ends plan.now places weights.now.items }
    ensures most { result.hi < 2 ^ 64 }
{
    let queued = queued_sum(weights, full_place(plan)).scaled(1_000_000);
    let all = sum_of_first(weights, weights.len());
    queued.over(all, 1_000_000 * u128::from(places))
}

// The mean wait of the calls that are not lost, who find one of all states but the last.
fn wait(plan: &Plan, places: u32, weights: &Weights) -> Wide
    requires possible { IsFinitePlan plan.now }
    requires most { places ≤ MOST_PLACES }
    requires one_each { length weights.now.items ≡ words plan.now + places }
    ensures ends { result ≡ wait_ends plan.now places weights.now.items }
    ensures most { result.hi < 2 ^ 64 }
{
    let period = 1000 * u64::from(plan.period());
    let queued = queued_sum(weights, full_place(plan)).scaled(period);
    let answered = sum_of_first(weights, weights.len() - 1).scaled(u64::from(plan.calls()));
    let cap = (period * u64::from(places)).div_ceil(u64::from(plan.service()));
    queued.over(answered, u128::from(cap))
}

// A measure that is a part, in millionths.
fn share(measure: FiniteMeasure, part: Iv) -> FiniteEnds
    ensures { result ≡ finite_item measure (outward_ends 1000000 part) }
{
    let (lo, hi) = part.outward(1_000_000);
    FiniteEnds { measure, lo, hi }
}

// A measure that is in its own units.
fn of_wide(measure: FiniteMeasure, ends: Wide) -> FiniteEnds
    requires { ends.hi < 2 ^ 64 }
    ensures { result ≡ finite_item measure ends }
{
    FiniteEnds {
        measure,
        lo: ends.lo() as u64,
        hi: ends.hi() as u64,
    }
}
