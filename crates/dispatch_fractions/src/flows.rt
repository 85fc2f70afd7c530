ghost use Rattle.std.specs.Prelude.{◌≡◌, ◌*◌, ◌^◌, ◌<◌, ◌≤◌, ◌==◌, true, not};
ghost use Rattle.hyper_model.specs.declared.TheConstants.{MOST_UNITS, MOST_ATOMS, MOST_RATE};
ghost use Rattle.hyper_model.specs.Plans.{units, atoms};
ghost use Rattle.hyper_model.specs.Enclosures.{IsOrderedFound};
ghost use Rattle.busy_words.specs.Algebra.{where_ends};
ghost use Rattle.busy_words.specs.MeasureEnds.{found_ends};
ghost use Rattle.dispatch_fractions.specs.PartLists.{AreSizedFor};
ghost use Rattle.dispatch_fractions.specs.Fractions.{is_on_side, others_ends, region_ends, flow_ends, side_ends};

use crate::Parts;
use crate::districts::is_inside;
use fixed_interval::Wide;
use hyper_model::{Found, Plan};

/// The flow of the atom's calls that the unit answers, at once or out of the queue: a rate of calls times a part
/// of `2^62`.
pub(crate) fn dispatch_flow(plan: &Plan, parts: &Parts, unit: usize, atom: usize) -> Wide
    requires sized { AreSizedFor plan.now parts.now }
    requires unit { unit < units plan.now }
    requires atom { atom < atoms plan.now }
    ensures ends { result ≡ flow_ends plan.now parts.now unit atom }
    ensures most { result.hi ≤ MOST_RATE * 2 ^ 63 }
{
    let part = parts.e(unit, atom).wide().plus(parts.h(unit).wide());
    part.scaled(u64::from(plan.atom(atom).rate))
}

/// The flow of the calls that the unit answers inside this district, or outside of it.
pub(crate) fn flow_to_side(
    plan: &Plan,
    parts: &Parts,
    inside: bool,
    unit: usize,
    district: usize,
) -> Wide
    requires sized { AreSizedFor plan.now parts.now }
    requires unit { unit < units plan.now }
    ensures ends { result ≡ side_ends plan.now parts.now inside unit district }
    ensures most { result.hi ≤ MOST_ATOMS * (MOST_RATE * 2 ^ 63) }
{
    let mut total = Wide::new(0, 0);
    for atom in 0..plan.atoms() {
        total = total.plus(flow_where(plan, parts, inside, unit, district, atom));
    }
    total
}

// That of one atom, if it is on this side of the district's border, else 0.
fn flow_where(
    plan: &Plan,
    parts: &Parts,
    inside: bool,
    unit: usize,
    district: usize,
    atom: usize,
) -> Wide
    requires sized { AreSizedFor plan.now parts.now }
    requires unit { unit < units plan.now }
    requires atom { atom < atoms plan.now }
    ensures ends { result ≡ where_ends (is_on_side plan.now district inside atom) (flow_ends plan.now parts.now unit atom) }
    ensures most { result.hi ≤ MOST_RATE * 2 ^ 63 }
{
    if is_inside(plan, district, atom) == inside {
        dispatch_flow(plan, parts, unit, atom)
    } else {
        Wide::new(0, 0)
    }
}

/// The flow of all calls that are answered inside the district of the unit that answers, or outside of it.
pub(crate) fn flow_in_region(plan: &Plan, parts: &Parts, inside: bool) -> Wide
    requires { AreSizedFor plan.now parts.now }
    ensures ends { result ≡ region_ends plan.now parts.now inside }
    ensures most { result.hi ≤ MOST_UNITS * (MOST_ATOMS * (MOST_RATE * 2 ^ 63)) }
{
    let mut total = Wide::new(0, 0);
    for unit in 0..plan.units() {
        total = total.plus(flow_to_side(plan, parts, inside, unit, unit));
    }
    total
}

/// The flow of the calls of this unit's district that other units answer.
pub(crate) fn flow_by_others(plan: &Plan, parts: &Parts, district: usize) -> Wide
    requires { AreSizedFor plan.now parts.now }
    ensures ends { result ≡ others_ends plan.now parts.now district }
    ensures most { result.hi ≤ MOST_UNITS * (MOST_ATOMS * (MOST_RATE * 2 ^ 63)) }
{
    let mut total = Wide::new(0, 0);
    for unit in 0..plan.units() {
        total = total.plus(flow_by_other(plan, parts, unit, district));
    }
    total
}

// That of one unit, if it is not the district's own, else 0.
fn flow_by_other(plan: &Plan, parts: &Parts, unit: usize, district: usize) -> Wide
    requires sized { AreSizedFor plan.now parts.now }
    requires unit { unit < units plan.now }
    ensures ends { result ≡ where_ends (not (unit == district)) (side_ends plan.now parts.now true unit district) }
    ensures most { result.hi ≤ MOST_ATOMS * (MOST_RATE * 2 ^ 63) }
{
    if unit != district {
        flow_to_side(plan, parts, true, unit, district)
    } else {
        Wide::new(0, 0)
    }
}

/// An interval, as what was found of a measure.
pub fn found_of(ends: Wide) -> Found
    requires { ends.hi < 2 ^ 64 }
    ensures exact { result ≡ found_ends ends }
    ensures ordered { IsOrderedFound result }
{
    Found::Ends(ends.lo() as u64, ends.hi() as u64)
}
