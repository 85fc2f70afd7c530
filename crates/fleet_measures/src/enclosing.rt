ghost use Rattle.std.specs.Prelude.{All, IfOk};
ghost use Rattle.hyper_model.specs.Solutions.{HasSolution};
ghost use Rattle.crew_stations.specs.Expanded.{expanded};
ghost use Rattle.fleet_measures.specs.FleetEnclosures.{IsFleetEnclosure};
ghost use Rattle.fleet_measures.specs.FleetMeasures.{AreInFleet, ContainsCrews, ContainsEachCrew, IsOrderedFleetEnds};

use crate::listing::fleet_measures;
use crate::{FleetEnds, law_fleet_measures};
use crew_stations::{Fleet, law_crews, law_fleet};
use station_flows::StationSolver;
use std::alloc::{AllocError, Global};

/// All measures of a fleet of stations in the order in which a report prints them, each with ends that contain its value.
///
/// The value is the one that Larson's formulas give for any solution of the balance equations of the plan with a unit for
/// each crew, summed over the crews of a station, and there is one (Larson 1974; Larson and Odoni, Urban Operations Research,
/// chapter 5). The ends of a station's workload and mean travel time contain those of each of its crews. The two measures of a district from which no call comes have no value, and no ends. There is an error only for
/// lack of memory.
pub fn enclose_fleet(alloc: Global, fleet: &Fleet) -> Result<Vec<FleetEnds>, AllocError>
    ensures solvable { HasSolution (expanded fleet.now) }
    ensures exact { IfOk result (λ found. IsFleetEnclosure fleet.now found.items) }
    ensures contains { IfOk result (λ found. ContainsCrews fleet.now found.items) }
    ensures each_crew { IfOk result (λ found. ContainsEachCrew fleet.now found.items) }
    ensures in_range { IfOk result (λ found. AreInFleet fleet.now found.items) }
    ensures ordered { IfOk result (λ found. All IsOrderedFleetEnds found.items) }
{
    law_fleet(fleet);
    law_crews();
    law_fleet_measures();
    let weighed = StationSolver::reserved(alloc, fleet)?.weigh();
    fleet_measures(alloc, fleet, &weighed.weights)
}
