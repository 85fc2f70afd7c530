ghost use Rattle.std.specs.Prelude.{◌≡◌, ◌*◌, ◌^◌, ◌<◌, ◌≤◌, if◌then◌else◌, None, Some};
ghost use Rattle.hyper_model.specs.declared.TheConstants.{MOST_TRAVEL};
ghost use Rattle.hyper_model.specs.Plans.{IsAccepted, all_calls, atoms, calls_of, units};
ghost use Rattle.hyper_model.specs.Measures.{mean_travel, travel_from_calls};
ghost use Rattle.travel_measures.specs.TravelEnds.{is_among, late_travel_ends, longest_mean, longest_to, travel_to_calls};

use dispatch_fractions::is_inside;
use fixed_interval::Wide;
use hyper_model::{Plan, mean_thousandths};

/// Whether the atom is in this unit's district, or of the region if no district is given.
pub(crate) fn is_among(plan: &Plan, district: Option<usize>, atom: usize) -> bool
    requires { atom < atoms plan.now }
    ensures { result ≡ is_among plan.now district atom }
{
    match district {
        None => true,
        Some(unit) => is_inside(plan, unit, atom),
    }
}

/// The mean travel time of the unit, free, to the atom, in thousandths of a second.
pub(crate) fn mean_time_to(plan: &Plan, unit: usize, atom: usize) -> u64
    requires accepted { IsAccepted plan.now }
    requires unit { unit < units plan.now }
    requires atom { atom < atoms plan.now }
    ensures mean { result ≡ mean_travel plan.now unit atom }
    ensures most { result ≤ 1000 * MOST_TRAVEL }
{
    mean_thousandths(plan.located_table(), plan.travel_table(), unit, atom)
}

/// What no mean travel time exceeds: the longest travel time, in thousandths of a second.
pub(crate) fn longest_mean(plan: &Plan) -> u64
    ensures longest { result ≡ longest_mean plan.now }
    ensures most { result ≤ 1000 * MOST_TRAVEL }
{
    let mut longest = 0;
    for atom in 0..plan.atoms() {
        longest = longest.max(longest_to(plan, atom));
    }
    1000 * longest
}

fn longest_to(plan: &Plan, atom: usize) -> u64
    requires { atom < atoms plan.now }
    ensures longest { result ≡ longest_to plan.now atom }
    ensures most { result ≤ MOST_TRAVEL }
{
    let mut longest = 0;
    for from in 0..plan.atoms() {
        longest = longest.max(u64::from(plan.travel(from, atom)));
    }
    longest
}

/// The seconds of travel to the atom, summed over the atoms that a call comes from, each times its calls.
pub(crate) fn travel_from_calls(plan: &Plan, atom: usize) -> u64
    requires accepted { IsAccepted plan.now }
    requires atom { atom < atoms plan.now }
    ensures travel { result ≡ travel_from_calls plan.now atom }
    ensures most { result ≤ all_calls plan.now * MOST_TRAVEL }
{
    let mut total = 0;
    for from in 0..plan.atoms() {
        total += u64::from(plan.atom(from).rate) * u64::from(plan.travel(from, atom));
    }
    total
}

/// The same summed over the atoms of a district, or of the region, each times its calls.
pub(crate) fn travel_to_calls(plan: &Plan, district: Option<usize>) -> u64
    requires { IsAccepted plan.now }
    ensures travel { result ≡ travel_to_calls plan.now district }
    ensures most { result ≤ all_calls plan.now * (all_calls plan.now * MOST_TRAVEL) }
{
    let mut total = 0;
    for atom in 0..plan.atoms() {
        total += travel_where(plan, district, atom);
    }
    total
}

fn travel_where(plan: &Plan, district: Option<usize>, atom: usize) -> u64
    requires accepted { IsAccepted plan.now }
    requires atom { atom < atoms plan.now }
    ensures travel { result ≡ (if is_among plan.now district atom
        then calls_of plan.now atom * travel_from_calls plan.now atom else 0) }
    ensures most { result ≤ calls_of plan.now atom * (all_calls plan.now * MOST_TRAVEL) }
{
    if is_among(plan, district, atom) {
        u64::from(plan.atom(atom).rate) * travel_from_calls(plan, atom)
    } else {
        0
    }
}

/// That sum over all calls, in thousandths of a second and counted in `1 / 4096`.
pub(crate) fn late_travel(plan: &Plan, district: Option<usize>, calls: u32) -> Wide
    requires accepted { IsAccepted plan.now }
    requires calls { calls ≡ all_calls plan.now }
    ensures ends { result ≡ late_travel_ends plan.now district }
    ensures most { result.hi ≤ 2 ^ 59 }
{
    let travel = u128::from(travel_to_calls(plan, district));
    Wide::new(travel, travel).ratio(4_096_000, u64::from(calls))
}
