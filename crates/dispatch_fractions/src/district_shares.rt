ghost use Rattle.std.specs.Prelude.{◌≡◌, ◌*◌, ◌^◌, ◌<◌, ◌≤◌, All, IfOk};
ghost use Rattle.hyper_model.specs.declared.TheConstants.{MOST_UNITS, MOST_ATOMS, MOST_RATE};
ghost use Rattle.hyper_model.specs.Plans.{units};
ghost use Rattle.hyper_model.specs.Enclosures.{IsOrderedEnclosed, IsOrderedFound};
ghost use Rattle.dispatch_fractions.specs.PartLists.{AreSizedFor};
ghost use Rattle.dispatch_fractions.specs.Fractions.{district_share, interdistrict_of, region_share, share_found, unit_share};

use crate::Parts;
use crate::districts::calls_inside;
use crate::flows::{flow_by_others, flow_in_region, flow_to_side, found_of};
use fixed_interval::Wide;
use hyper_model::{Enclosed, Found, Measure, Plan, push_each};
use std::alloc::{AllocError, Global};

/// The shares of dispatches that lead from one district into another, in millionths: of all dispatches, of those
/// of each unit, and of those to each unit's district.
///
/// The share of a district that no call comes from is `Without`.
pub fn interdistrict(alloc: Global, plan: &Plan, parts: &Parts) -> Result<Vec<Enclosed>, AllocError>
    requires { AreSizedFor plan.now parts.now }
    ensures exact { IfOk result (λ found. found.items ≡ interdistrict_of plan.now parts.now) }
    ensures ordered { IfOk result (λ found. All IsOrderedEnclosed found.items) }
{
    let mut found = Vec::new(alloc);
    found.push(region_share(plan, parts))?;
    push_each(&mut found, plan.units(), |unit| {
        unit_share(plan, parts, unit as u8)
    })?;
    push_each(&mut found, plan.units(), |unit| {
        district_share(plan, parts, unit as u8)
    })?;
    Ok(found)
}

fn region_share(plan: &Plan, parts: &Parts) -> Enclosed
    requires { AreSizedFor plan.now parts.now }
    ensures exact { result ≡ region_share plan.now parts.now }
    ensures ordered { IsOrderedEnclosed result }
{
    Enclosed {
        measure: Measure::Interdistrict,
        found: share(
            flow_in_region(plan, parts, false),
            flow_in_region(plan, parts, true),
        ),
    }
}

fn unit_share(plan: &Plan, parts: &Parts, unit: u8) -> Enclosed
    requires sized { AreSizedFor plan.now parts.now }
    requires unit { unit < units plan.now }
    ensures exact { result ≡ unit_share plan.now parts.now unit }
    ensures ordered { IsOrderedEnclosed result }
{
    let own = usize::from(unit);
    Enclosed {
        measure: Measure::InterdistrictUnit(unit),
        found: share(
            flow_to_side(plan, parts, false, own, own),
            flow_to_side(plan, parts, true, own, own),
        ),
    }
}

fn district_share(plan: &Plan, parts: &Parts, unit: u8) -> Enclosed
    requires sized { AreSizedFor plan.now parts.now }
    requires unit { unit < units plan.now }
    ensures exact { result ≡ district_share plan.now parts.now unit }
    ensures ordered { IsOrderedEnclosed result }
{
    Enclosed {
        measure: Measure::InterdistrictDistrict(unit),
        found: found_of_share(plan, parts, usize::from(unit)),
    }
}

fn found_of_share(plan: &Plan, parts: &Parts, unit: usize) -> Found
    requires sized { AreSizedFor plan.now parts.now }
    requires unit { unit < units plan.now }
    ensures exact { result ≡ (district_share plan.now parts.now unit).found }
    ensures ordered { IsOrderedFound result }
{
    if calls_inside(plan, unit) == 0 {
        return Found::Without;
    }
    share(
        flow_by_others(plan, parts, unit),
        flow_to_side(plan, parts, true, unit, unit),
    )
}

// The share of one flow in two, in millionths.
fn share(flow: Wide, rest: Wide) -> Found
    requires few { flow.hi ≤ MOST_UNITS * (MOST_ATOMS * (MOST_RATE * 2 ^ 63)) }
    requires rest_few { rest.hi ≤ MOST_UNITS * (MOST_ATOMS * (MOST_RATE * 2 ^ 63)) }
    ensures exact { result ≡ share_found flow rest }
    ensures ordered { IsOrderedFound result }
{
    found_of(flow.share_of(rest, 1_000_000))
}
