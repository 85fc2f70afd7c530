ghost use Rattle.std.specs.Prelude.{◌≡◌, ◌-◌, ◌*◌, ◌^◌, ◌≤◌, length};
ghost use Rattle.hyper_model.specs.declared.TheConstants.{MOST_RATE};
ghost use Rattle.hyper_model.specs.Enclosures.{IsOrderedEnclosed};
ghost use Rattle.hyper_model.specs.Plans.{all_calls, all_service};
ghost use Rattle.busy_words.specs.MeasureEnds.{measure_ends};
ghost use Rattle.busy_words.specs.WeightParts.{places};
ghost use Rattle.workload_measures.specs.LoadEnds.{loss_ends, loss_or_delay_on, queue_ends, wait_ends};

use crate::rounding::{multiple, share};
use busy_words::{full_part, tail_part};
use fixed_interval::Weights;
use hyper_model::{Enclosed, Line, Measure, Plan, law_accepted};

/// The share of calls that are lost, or on the infinite line that wait, in millionths.
pub fn loss_or_delay(plan: &Plan, weights: &Weights) -> Enclosed
    requires { length weights.now.items ≡ places plan.now }
    ensures exact { result ≡ measure_ends (loss_or_delay_on plan.now.line) (loss_ends plan.now weights.now.items) }
    ensures ordered { IsOrderedEnclosed result }
{
    share(loss_or_delay_measure(plan), full_part(plan, weights))
}

/// The mean number of calls that wait, in millionths of a call.
pub fn queue_length(plan: &Plan, weights: &Weights) -> Enclosed
    requires infinite { plan.now.line ≡ Line.Infinite }
    requires one_each { length weights.now.items ≡ places plan.now }
    ensures exact { result ≡ measure_ends Measure.Queue (queue_ends plan.now weights.now.items) }
    ensures ordered { IsOrderedEnclosed result }
{
    let service = u64::from(plan.service());
    multiple(
        Measure::Queue,
        tail_part(plan, weights),
        1_000_000 * service,
        spare_service(plan),
    )
}

/// The mean time that a call waits, over all calls, in thousandths of a second.
pub fn mean_wait(plan: &Plan, weights: &Weights) -> Enclosed
    requires infinite { plan.now.line ≡ Line.Infinite }
    requires one_each { length weights.now.items ≡ places plan.now }
    ensures exact { result ≡ measure_ends Measure.Wait (wait_ends plan.now weights.now.items) }
    ensures ordered { IsOrderedEnclosed result }
{
    multiple(
        Measure::Wait,
        tail_part(plan, weights),
        service_time(plan),
        spare_service(plan) * u64::from(plan.calls()),
    )
}

fn loss_or_delay_measure(plan: &Plan) -> Measure
    ensures { result ≡ loss_or_delay_on plan.now.line }
{
    match plan.line() {
        Line::Zero => Measure::Loss,
        Line::Infinite => Measure::Delay,
    }
}

// The rate of service that the calls leave.
fn spare_service(plan: &Plan) -> u64
    requires { plan.now.line ≡ Line.Infinite }
    ensures spare { result ≡ all_service plan.now - all_calls plan.now }
    ensures least { 1 ≤ result }
    ensures most { result ≤ MOST_RATE }
{
    law_accepted(plan);
    u64::from(plan.service() - plan.calls())
}

// The period in thousandths of a second, times the rate of all service.
fn service_time(plan: &Plan) -> u64
    ensures time { result ≡ 1000 * plan.now.period * all_service plan.now }
    ensures most { result ≤ 2 ^ 60 }
{
    1000 * u64::from(plan.period()) * u64::from(plan.service())
}
