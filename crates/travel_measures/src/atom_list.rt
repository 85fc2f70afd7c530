ghost use Rattle.std.specs.Prelude.{◌≡◌, ◌<◌, All, IfOk};
ghost use Rattle.hyper_model.specs.Plans.{IsAccepted, atoms};
ghost use Rattle.hyper_model.specs.Enclosures.{IsOrderedEnclosed, IsOrderedFound};
ghost use Rattle.busy_words.specs.MeasureEnds.{found_ends};
ghost use Rattle.dispatch_fractions.specs.PartLists.{AreSizedFor};
ghost use Rattle.travel_measures.specs.TravelEnds.{atom_ends, atom_time, atom_times_of};
ghost use Rattle.travel_measures.specs.Totals.{AreTravelTotals};

use crate::TravelTotals;
use crate::table_sums::travel_from_calls;
use crate::trips::trips_to;
use dispatch_fractions::{Parts, found_of};
use fixed_interval::Wide;
use hyper_model::{Enclosed, Found, Measure, Plan, law_accepted, push_each};
use std::alloc::{AllocError, Global};

/// The mean travel time to a call of each atom, in thousandths of a second.
pub fn atom_times(alloc: Global, plan: &Plan, parts: &Parts) -> Result<Vec<Enclosed>, AllocError>
    requires { AreSizedFor plan.now parts.now }
    ensures exact { IfOk result (λ found. found.items ≡ atom_times_of plan.now parts.now) }
    ensures ordered { IfOk result (λ found. All IsOrderedEnclosed found.items) }
{
    law_accepted(plan);
    let totals = TravelTotals::of(plan);
    let mut found = Vec::new(alloc);
    push_each(&mut found, plan.atoms(), |atom| {
        atom_time(plan, parts, totals, atom as u16)
    })?;
    Ok(found)
}

/// That of one atom.
pub fn atom_time(plan: &Plan, parts: &Parts, totals: TravelTotals, atom: u16) -> Enclosed
    requires accepted { IsAccepted plan.now }
    requires sized { AreSizedFor plan.now parts.now }
    requires totals { AreTravelTotals plan.now totals }
    requires atom { atom < atoms plan.now }
    ensures exact { result ≡ atom_time plan.now parts.now atom }
    ensures ordered { IsOrderedEnclosed result }
{
    Enclosed {
        measure: Measure::TravelAtom(atom),
        found: time_to(plan, parts, totals, usize::from(atom)),
    }
}

fn time_to(plan: &Plan, parts: &Parts, totals: TravelTotals, atom: usize) -> Found
    requires accepted { IsAccepted plan.now }
    requires sized { AreSizedFor plan.now parts.now }
    requires totals { AreTravelTotals plan.now totals }
    requires atom { atom < atoms plan.now }
    ensures exact { result ≡ found_ends (atom_ends plan.now parts.now atom) }
    ensures ordered { IsOrderedFound result }
{
    let at_once = trips_to(plan, parts, atom).scaled(u64::from(totals.calls));
    let waited = parts
        .waiting(plan)
        .wide()
        .scaled(1000 * travel_from_calls(plan, atom));
    let whole = u128::from(totals.calls) * (1 << 62);
    let longest = u128::from(totals.longest);
    found_of(at_once.plus(waited).over(Wide::new(whole, whole), longest))
}
