ghost use Rattle.std.specs.Prelude.{◌≡◌, ◌*◌, ◌≤◌, None};
ghost use Rattle.hyper_model.specs.declared.TheConstants.{MOST_ATOMS, MOST_RATE};
ghost use Rattle.hyper_model.specs.Plans.{IsAccepted};
ghost use Rattle.hyper_model.specs.Enclosures.{IsOrderedEnclosed, IsOrderedFound};
ghost use Rattle.busy_words.specs.MeasureEnds.{found_ends};
ghost use Rattle.dispatch_fractions.specs.PartLists.{AreSizedFor};
ghost use Rattle.travel_measures.specs.TravelEnds.{mean_ends, region_time_of};
ghost use Rattle.travel_measures.specs.Totals.{AreTravelTotals};

use crate::TravelTotals;
use crate::table_sums::late_travel;
use crate::trips::{all_trips, product};
use dispatch_fractions::{Parts, found_of};
use fixed_interval::Wide;
use hyper_model::{Enclosed, Found, Measure, Plan, law_accepted};

/// The mean travel time to a call of the region, in thousandths of a second.
pub fn region_time(plan: &Plan, parts: &Parts) -> Enclosed
    requires { AreSizedFor plan.now parts.now }
    ensures exact { result ≡ region_time_of plan.now parts.now }
    ensures ordered { IsOrderedEnclosed result }
{
    law_accepted(plan);
    let totals = TravelTotals::of(plan);
    Enclosed {
        measure: Measure::Travel,
        found: mean_time(plan, parts, totals, None, u64::from(totals.calls)),
    }
}

/// The mean travel time to a call of a district, or of the region, from which so many of all calls come.
pub(crate) fn mean_time(
    plan: &Plan,
    parts: &Parts,
    totals: TravelTotals,
    district: Option<usize>,
    calls: u64,
) -> Found
    requires accepted { IsAccepted plan.now }
    requires sized { AreSizedFor plan.now parts.now }
    requires totals { AreTravelTotals plan.now totals }
    requires few { calls ≤ MOST_ATOMS * MOST_RATE }
    ensures exact { result ≡ found_ends (mean_ends plan.now parts.now district calls) }
    ensures ordered { IsOrderedFound result }
{
    let at_once = all_trips(plan, parts, district).scaled(4096);
    let waited = product(
        parts.waiting(plan),
        late_travel(plan, district, totals.calls),
    );
    let whole = 4096 * u128::from(calls) * (1 << 62);
    let longest = u128::from(totals.longest);
    found_of(at_once.plus(waited).over(Wide::new(whole, whole), longest))
}
