ghost use Rattle.std.specs.Prelude.{◌≡◌, ◌*◌, ◌^◌, ◌<◌, ◌≤◌};
ghost use Rattle.fixed_interval.specs.Ends.{product_ends, scaled_ends};
ghost use Rattle.hyper_model.specs.declared.TheConstants.{MOST_UNITS, MOST_ATOMS, MOST_RATE, MOST_TRAVEL};
ghost use Rattle.hyper_model.specs.Plans.{IsAccepted, atoms, calls_of, units};
ghost use Rattle.hyper_model.specs.Measures.{mean_travel};
ghost use Rattle.busy_words.specs.Algebra.{where_ends};
ghost use Rattle.dispatch_fractions.specs.PartLists.{AreSizedFor, taken_by};
ghost use Rattle.travel_measures.specs.TravelEnds.{all_trip_ends, is_among as is_among_of, trip_ends, trips_to_ends, taken_ends};

use crate::table_sums::{is_among, mean_time_to};
use dispatch_fractions::Parts;
use fixed_interval::{Iv, Wide};
use hyper_model::Plan;

/// The flow of the calls that all units take at once in a district, or in the region if none is given, each times the
/// unit's mean travel time to it in thousandths of a second: a rate of calls times a part of `2^62` times a time.
pub fn all_trips(plan: &Plan, parts: &Parts, district: Option<usize>) -> Wide
    requires accepted { IsAccepted plan.now }
    requires sized { AreSizedFor plan.now parts.now }
    ensures ends { result ≡ all_trip_ends plan.now parts.now district }
    ensures most { result.hi ≤ MOST_UNITS * (MOST_RATE * (1000 * MOST_TRAVEL * 2 ^ 62)) }
{
    let mut total = Wide::new(0, 0);
    for unit in 0..plan.units() {
        total = total.plus(unit_trips(plan, parts, district, unit));
    }
    total
}

/// That of one unit.
pub(crate) fn unit_trips(plan: &Plan, parts: &Parts, district: Option<usize>, unit: usize) -> Wide
    requires accepted { IsAccepted plan.now }
    requires sized { AreSizedFor plan.now parts.now }
    requires unit { unit < units plan.now }
    ensures ends { result ≡ trip_ends plan.now parts.now district unit }
    ensures most { result.hi ≤ MOST_RATE * (1000 * MOST_TRAVEL * 2 ^ 62) }
{
    let mut total = Wide::new(0, 0);
    for atom in 0..plan.atoms() {
        total = total.plus(trips_where(plan, parts, district, unit, atom));
    }
    total
}

// That of one unit to one atom, if it is among those of the district, else 0.
fn trips_where(
    plan: &Plan,
    parts: &Parts,
    district: Option<usize>,
    unit: usize,
    atom: usize,
) -> Wide
    requires accepted { IsAccepted plan.now }
    requires sized { AreSizedFor plan.now parts.now }
    requires unit { unit < units plan.now }
    requires atom { atom < atoms plan.now }
    ensures ends { result ≡ where_ends (is_among_of plan.now district atom)
        (scaled_ends (calls_of plan.now atom * mean_travel plan.now unit atom) (taken_by parts.now unit atom)) }
    ensures most { result.hi ≤ calls_of plan.now atom * (1000 * MOST_TRAVEL * 2 ^ 62) }
{
    if is_among(plan, district, atom) {
        trips(plan, parts, unit, atom)
    } else {
        Wide::new(0, 0)
    }
}

fn trips(plan: &Plan, parts: &Parts, unit: usize, atom: usize) -> Wide
    requires accepted { IsAccepted plan.now }
    requires sized { AreSizedFor plan.now parts.now }
    requires unit { unit < units plan.now }
    requires atom { atom < atoms plan.now }
    ensures ends { result ≡ scaled_ends (calls_of plan.now atom * mean_travel plan.now unit atom) (taken_by parts.now unit atom) }
    ensures most { result.hi ≤ calls_of plan.now atom * (1000 * MOST_TRAVEL * 2 ^ 62) }
{
    let part = parts.e(unit, atom).wide();
    let calls = u64::from(plan.atom(atom).rate);
    part.scaled(calls * mean_time_to(plan, unit, atom))
}

/// The part of the atom's calls that each unit takes at once, times its mean travel time there, of all units.
pub(crate) fn trips_to(plan: &Plan, parts: &Parts, atom: usize) -> Wide
    requires accepted { IsAccepted plan.now }
    requires sized { AreSizedFor plan.now parts.now }
    requires atom { atom < atoms plan.now }
    ensures ends { result ≡ trips_to_ends plan.now parts.now atom }
    ensures most { result.hi ≤ MOST_UNITS * (1000 * MOST_TRAVEL * 2 ^ 62) }
{
    let mut total = Wide::new(0, 0);
    for unit in 0..plan.units() {
        total = total.plus(part_trips(plan, parts, unit, atom));
    }
    total
}

fn part_trips(plan: &Plan, parts: &Parts, unit: usize, atom: usize) -> Wide
    requires accepted { IsAccepted plan.now }
    requires sized { AreSizedFor plan.now parts.now }
    requires unit { unit < units plan.now }
    requires atom { atom < atoms plan.now }
    ensures ends { result ≡ scaled_ends (mean_travel plan.now unit atom) (taken_by parts.now unit atom) }
    ensures most { result.hi ≤ 1000 * MOST_TRAVEL * 2 ^ 62 }
{
    let part = parts.e(unit, atom).wide();
    part.scaled(mean_time_to(plan, unit, atom))
}

/// The flow of the calls that the unit takes at once.
pub(crate) fn taken_calls(plan: &Plan, parts: &Parts, unit: usize) -> Wide
    requires sized { AreSizedFor plan.now parts.now }
    requires unit { unit < units plan.now }
    ensures ends { result ≡ taken_ends plan.now parts.now unit }
    ensures most { result.hi ≤ MOST_ATOMS * (MOST_RATE * 2 ^ 62) }
{
    let mut total = Wide::new(0, 0);
    for atom in 0..plan.atoms() {
        total = total.plus(calls_taken(plan, parts, unit, atom));
    }
    total
}

fn calls_taken(plan: &Plan, parts: &Parts, unit: usize, atom: usize) -> Wide
    requires sized { AreSizedFor plan.now parts.now }
    requires unit { unit < units plan.now }
    requires atom { atom < atoms plan.now }
    ensures ends { result ≡ scaled_ends (calls_of plan.now atom) (taken_by parts.now unit atom) }
    ensures most { result.hi ≤ MOST_RATE * 2 ^ 62 }
{
    let part = parts.e(unit, atom).wide();
    part.scaled(u64::from(plan.atom(atom).rate))
}

/// The product of a part and a time.
pub(crate) fn product(part: Iv, time: Wide) -> Wide
    requires { time.hi ≤ 2 ^ 59 }
    ensures ends { result ≡ product_ends part time }
    ensures most { result.hi ≤ 2 ^ 121 }
{
    Wide::new(
        u128::from(part.lo()) * time.lo(),
        u128::from(part.hi()) * time.hi(),
    )
}
