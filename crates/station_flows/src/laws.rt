ghost use Rattle.std.specs.Prelude.{List};
ghost use Rattle.fixed_interval.specs.Ends.{Ends};
ghost use Rattle.crew_stations.specs.Stations.{StationPlan};
ghost use Rattle.station_flows.specs.CertifiedStates.{AreCertifiedStateWeights, EncloseEverySolution};

/// Weights of a fleet that have a certificate enclose every solution of every plan whose units stand at its stations, up to
/// one common factor, however they were found.
///
/// It answers nothing: its contract is the theorem.
pub fn law_state_weights()
    ensures { (s : StationPlan) (items : List Ends) → AreCertifiedStateWeights s items → EncloseEverySolution s items }
{}
