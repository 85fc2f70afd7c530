ghost use Rattle.std.specs.Prelude.{◌≡◌, ◌<◌, IfOk, map};
ghost use Rattle.std.specs.List.{range_with_len};
ghost use Rattle.crew_stations.specs.Stations.{stations};
ghost use Rattle.fleet_measures.specs.Pooled as spec;

use crew_stations::{Fleet, law_fleet};
use hyper_model::{Plan, PlanParts, Unit, Units};
use std::alloc::{AllocError, Global};

/// The plan with one unit for each station, which serves as all crews of the station together do. Its atoms, lists of
/// preference, locations and travel times are the fleet's.
pub(crate) fn pooled(alloc: Global, fleet: &Fleet) -> Result<Plan, AllocError>
    ensures { IfOk result (λ plan. plan ≡ spec.pooled fleet.now) }
{
    law_fleet(fleet);
    let parts = pooled_parts(alloc, fleet)?;
    Ok(Plan::of_accepted(parts))
}

fn pooled_parts(alloc: Global, fleet: &Fleet) -> Result<PlanParts, AllocError>
    ensures { IfOk result (λ parts. parts ≡ spec.pooled fleet.now) }
{
    let parts = fleet.parts();
    Ok(PlanParts {
        line: parts.line,
        rule: parts.rule,
        period: parts.period,
        units: pooled_units(alloc, fleet)?,
        atoms: parts.atoms.copied(alloc)?,
        lists: parts.lists.copied(alloc)?,
        located: parts.located.copied(alloc)?,
        travel: parts.travel.copied(alloc)?,
    })
}

fn pooled_units(alloc: Global, fleet: &Fleet) -> Result<Units, AllocError>
    ensures { IfOk result (λ units. units ≡ map (spec.pooled_unit fleet.now) (range_with_len 0 (stations fleet.now))) }
{
    let mut units = Units::of(alloc)?;
    for k in 0..fleet.stations() {
        units.push(pooled_unit(alloc, fleet, k)?);
    }
    Ok(units)
}

/// The unit that serves as all crews of station k do: its rate is the sum of theirs, per period.
fn pooled_unit(alloc: Global, fleet: &Fleet, k: usize) -> Result<Unit, AllocError>
    requires { k < stations fleet.now }
    ensures { IfOk result (λ unit. unit ≡ spec.pooled_unit fleet.now k) }
{
    let station = fleet.station(k);
    Ok(Unit {
        name: station.name.copied(alloc)?,
        rate: fleet.crews(k) * station.rate,
    })
}
