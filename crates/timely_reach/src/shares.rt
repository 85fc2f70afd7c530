ghost use Rattle.std.specs.Prelude.{◌≡◌, false};
ghost use Rattle.hyper_model.specs.Plans.{IsAccepted};
ghost use Rattle.dispatch_fractions.specs.PartLists.{AreSizedFor};
ghost use Rattle.dispatch_fractions.specs.Fractions.{is_absent};
ghost use Rattle.timely_reach.specs.Reach.{IsReachInRange, has_no_calls};
ghost use Rattle.timely_reach.specs.ReachEnds.{answered_part as answered_part_of, prompt_part as prompt_part_of};
ghost use Rattle.timely_reach.specs.ReachRows.{share_in};

use crate::ReachMeasure;
use crate::kinds::TimelyPlan;
use dispatch_fractions::Parts;
use fixed_interval::{Iv, Wide};
use hyper_model::{Found, Line, Value, law_accepted};
use travel_measures::{all_trips, atom_time, district_time, region_time, unit_time};

/// The ends of a share, made of the timely plan of a limit and the parts of the plan's weights.
pub(crate) fn share_of(timely: &TimelyPlan, parts: &Parts, measure: ReachMeasure) -> Value
    requires sized { AreSizedFor timely.now parts.now }
    requires in_range { IsReachInRange timely.now measure }
    requires called { has_no_calls timely.now measure ≡ false }
    ensures { result ≡ share_in parts.now measure timely.now }
{
    let TimelyPlan { plan, totals } = timely;
    law_accepted(plan);
    match measure {
        ReachMeasure::Region => region_share(timely, parts),
        ReachMeasure::All => all_share(timely, parts),
        ReachMeasure::AtOnce => at_once_share(timely, parts),
        ReachMeasure::Atom(atom) => ends_of(atom_time(plan, parts, *totals, atom).found),
        ReachMeasure::Unit(unit) => ends_of(unit_time(plan, parts, *totals, unit).found),
        ReachMeasure::District(unit) => ends_of(district_time(plan, parts, *totals, unit).found),
    }
}

fn region_share(timely: &TimelyPlan, parts: &Parts) -> Value
    requires { AreSizedFor timely.now parts.now }
    ensures { result ≡ share_in parts.now ReachMeasure.Region timely.now }
{
    ends_of(region_time(&timely.plan, parts).found)
}

// If calls are lost nobody waits, and if they wait all are answered.
fn all_share(timely: &TimelyPlan, parts: &Parts) -> Value
    requires { AreSizedFor timely.now parts.now }
    ensures { result ≡ share_in parts.now ReachMeasure.All timely.now }
{
    match timely.plan.line() {
        Line::Zero => at_once_share(timely, parts),
        Line::Infinite => region_share(timely, parts),
    }
}

fn at_once_share(timely: &TimelyPlan, parts: &Parts) -> Value
    requires { AreSizedFor timely.now parts.now }
    ensures { result ≡ share_in parts.now ReachMeasure.AtOnce timely.now }
{
    law_accepted(&timely.plan);
    let part = prompt_part(timely, parts).times_part(answered_part(timely, parts));
    let (lo, hi) = part.outward(1_000_000);
    Value { lo, hi }
}

// The part of the answered calls that a free unit reaches in time.
fn prompt_part(timely: &TimelyPlan, parts: &Parts) -> Iv
    requires accepted { IsAccepted timely.now }
    requires sized { AreSizedFor timely.now parts.now }
    ensures { result ≡ prompt_part_of timely.now parts.now }
{
    let whole = 1_000_000 * u128::from(timely.totals.calls);
    let part = all_trips(&timely.plan, parts, None).over(Wide::new(whole, whole), 1 << 62);
    Iv::new(part.lo() as u64, part.hi() as u64).unwrap()
}

// The part of the states in which a call that comes is answered.
fn answered_part(timely: &TimelyPlan, parts: &Parts) -> Iv
    ensures { result ≡ answered_part_of timely.now.line parts.now.full }
{
    let full = parts.d();
    match timely.plan.line() {
        Line::Zero => Iv::new((1 << 62) - full.hi(), (1 << 62) - full.lo()).unwrap(),
        Line::Infinite => Iv::exact(1 << 62),
    }
}

fn ends_of(found: Found) -> Value
    requires { is_absent found ≡ false }
    ensures { found ≡ Found.Ends result.lo result.hi }
{
    match found {
        Found::Ends(lo, hi) => Value { lo, hi },
        Found::Without => unreachable!(),
    }
}
