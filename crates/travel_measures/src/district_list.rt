ghost use Rattle.std.specs.Prelude.{◌≡◌, ◌<◌, All, IfOk};
ghost use Rattle.hyper_model.specs.Plans.{IsAccepted, units};
ghost use Rattle.hyper_model.specs.Enclosures.{IsOrderedEnclosed, IsOrderedFound};
ghost use Rattle.dispatch_fractions.specs.PartLists.{AreSizedFor};
ghost use Rattle.travel_measures.specs.TravelEnds.{district_time, district_times_of};
ghost use Rattle.travel_measures.specs.Totals.{AreTravelTotals};

use crate::TravelTotals;
use crate::means::mean_time;
use dispatch_fractions::{Parts, calls_inside};
use hyper_model::{Enclosed, Found, Measure, Plan, law_accepted, push_each};
use std::alloc::{AllocError, Global};

/// The mean travel time to a call of each unit's district, in thousandths of a second, whichever unit answers it.
///
/// That of a district that no call comes from is `Without`.
pub fn district_times(
    alloc: Global,
    plan: &Plan,
    parts: &Parts,
) -> Result<Vec<Enclosed>, AllocError>
    requires { AreSizedFor plan.now parts.now }
    ensures exact { IfOk result (λ found. found.items ≡ district_times_of plan.now parts.now) }
    ensures ordered { IfOk result (λ found. All IsOrderedEnclosed found.items) }
{
    law_accepted(plan);
    let totals = TravelTotals::of(plan);
    let mut found = Vec::new(alloc);
    push_each(&mut found, plan.units(), |unit| {
        district_time(plan, parts, totals, unit as u8)
    })?;
    Ok(found)
}

/// That of one unit's district.
pub fn district_time(plan: &Plan, parts: &Parts, totals: TravelTotals, unit: u8) -> Enclosed
    requires accepted { IsAccepted plan.now }
    requires sized { AreSizedFor plan.now parts.now }
    requires totals { AreTravelTotals plan.now totals }
    requires unit { unit < units plan.now }
    ensures exact { result ≡ district_time plan.now parts.now unit }
    ensures ordered { IsOrderedEnclosed result }
{
    Enclosed {
        measure: Measure::TravelDistrict(unit),
        found: time_in(plan, parts, totals, usize::from(unit)),
    }
}

fn time_in(plan: &Plan, parts: &Parts, totals: TravelTotals, unit: usize) -> Found
    requires accepted { IsAccepted plan.now }
    requires sized { AreSizedFor plan.now parts.now }
    requires totals { AreTravelTotals plan.now totals }
    requires unit { unit < units plan.now }
    ensures exact { result ≡ (district_time plan.now parts.now unit).found }
    ensures ordered { IsOrderedFound result }
{
    let calls = calls_inside(plan, unit);
    if calls == 0 {
        return Found::Without;
    }
    mean_time(plan, parts, totals, Some(unit), calls)
}
