//! What follows from the ends of these measures. The call answers nothing: its contract is a theorem.
ghost use Rattle.std.specs.Prelude.{List};
ghost use Rattle.fixed_interval.specs.Ends.{Ends};
ghost use Rattle.crew_stations.specs.Fleets.{IsFleet};
ghost use Rattle.crew_stations.specs.Stations.{StationPlan};
ghost use Rattle.fleet_measures.specs.declared.kinds.FleetEnds.{FleetEnds};
ghost use Rattle.fleet_measures.specs.FleetEnclosures.{AreFleetMeasures};
ghost use Rattle.fleet_measures.specs.FleetMeasures.{AreInFleet, ContainsCrews, ContainsEachCrew, HavePositiveFleetDenominators};
ghost use Rattle.fleet_measures.specs.Pooled.{EncloseCrews};
ghost use Rattle.station_flows.specs.CertifiedStates.{EncloseEverySolution};

/// If the weights of the states enclose each solution of the plan with a unit for each crew, the ends contain its measures:
/// Larson's formulas, summed over the crews of a station. Weights that enclose every plan at these stations do. Ends of
/// a station's workload and mean travel time contain those of each of its crews. Each measure is of one of the fleet's
/// stations and atoms, or of the region. No measure that has a value is a ratio over 0.
pub fn law_fleet_measures()
    ensures contains { (s : StationPlan) → IsFleet s → (items : List Ends) (list : List FleetEnds)
        → AreFleetMeasures s items list → EncloseCrews s items → ContainsCrews s list }
    ensures encloses { (s : StationPlan) → IsFleet s → (items : List Ends)
        → EncloseEverySolution s items → EncloseCrews s items }
    ensures each_crew { (s : StationPlan) → IsFleet s → (list : List FleetEnds)
        → ContainsCrews s list → ContainsEachCrew s list }
    ensures in_range { (s : StationPlan) (items : List Ends) (list : List FleetEnds)
        → AreFleetMeasures s items list → AreInFleet s list }
    ensures positive { (s : StationPlan) → IsFleet s → HavePositiveFleetDenominators s }
{}
