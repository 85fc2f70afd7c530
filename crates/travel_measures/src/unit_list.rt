ghost use Rattle.std.specs.Prelude.{◌≡◌, ◌<◌, All, IfOk, None};
ghost use Rattle.hyper_model.specs.Plans.{IsAccepted, units};
ghost use Rattle.hyper_model.specs.Enclosures.{IsOrderedEnclosed, IsOrderedFound};
ghost use Rattle.busy_words.specs.MeasureEnds.{found_ends};
ghost use Rattle.dispatch_fractions.specs.PartLists.{AreSizedFor};
ghost use Rattle.travel_measures.specs.TravelEnds.{unit_ends, unit_time, unit_times_of};
ghost use Rattle.travel_measures.specs.Totals.{AreTravelTotals};

use crate::TravelTotals;
use crate::table_sums::late_travel;
use crate::trips::{product, taken_calls, unit_trips};
use dispatch_fractions::{Parts, found_of};
use hyper_model::{Enclosed, Found, Measure, Plan, law_accepted, push_each};
use std::alloc::{AllocError, Global};

/// The mean travel time of each unit to the calls that it answers, in thousandths of a second.
pub fn unit_times(alloc: Global, plan: &Plan, parts: &Parts) -> Result<Vec<Enclosed>, AllocError>
    requires { AreSizedFor plan.now parts.now }
    ensures exact { IfOk result (λ found. found.items ≡ unit_times_of plan.now parts.now) }
    ensures ordered { IfOk result (λ found. All IsOrderedEnclosed found.items) }
{
    law_accepted(plan);
    let totals = TravelTotals::of(plan);
    let mut found = Vec::new(alloc);
    push_each(&mut found, plan.units(), |unit| {
        unit_time(plan, parts, totals, unit as u8)
    })?;
    Ok(found)
}

/// That of one unit.
pub fn unit_time(plan: &Plan, parts: &Parts, totals: TravelTotals, unit: u8) -> Enclosed
    requires accepted { IsAccepted plan.now }
    requires sized { AreSizedFor plan.now parts.now }
    requires totals { AreTravelTotals plan.now totals }
    requires unit { unit < units plan.now }
    ensures exact { result ≡ unit_time plan.now parts.now unit }
    ensures ordered { IsOrderedEnclosed result }
{
    Enclosed {
        measure: Measure::TravelUnit(unit),
        found: time_of(plan, parts, totals, usize::from(unit)),
    }
}

fn time_of(plan: &Plan, parts: &Parts, totals: TravelTotals, unit: usize) -> Found
    requires accepted { IsAccepted plan.now }
    requires sized { AreSizedFor plan.now parts.now }
    requires totals { AreTravelTotals plan.now totals }
    requires unit { unit < units plan.now }
    ensures exact { result ≡ found_ends (unit_ends plan.now parts.now unit) }
    ensures ordered { IsOrderedFound result }
{
    let at_once = unit_trips(plan, parts, None, unit).scaled(4096);
    let waited = product(parts.h(unit), late_travel(plan, None, totals.calls));
    let taken = taken_calls(plan, parts, unit);
    let answered = taken
        .plus(parts.h(unit).wide().scaled(u64::from(totals.calls)))
        .scaled(4096);
    let longest = u128::from(totals.longest);
    found_of(at_once.plus(waited).over(answered, longest))
}
