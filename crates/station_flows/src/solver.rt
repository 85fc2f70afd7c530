use crate::StateFlows;
use crate::weighing::weigh_states;
use crew_stations::{Fleet, MOST_STATES};
use fixed_interval::WeightsUpTo;
use std::alloc::{AllocError, Global};
use std::marker::Model;

/// The most weights of a fleet: one for each state, and one more.
pub const MOST_STATE_WEIGHTS: usize = MOST_STATES + 1;

/// The weights of a fleet.
pub type FleetWeights = WeightsUpTo<MOST_STATE_WEIGHTS>;

/// The states of a fleet with all rates between them, and all the memory that weighing them by a certificate takes.
///
/// Contracts see the plan of the stations.
#[derive(Drop)]
pub struct StationSolver<'a> {
    flows: StateFlows<'a>,
    masses: Vec<u64>,
    room: Vec<u64>,
    low: Vec<u64>,
    high: Vec<u64>,
    weights: FleetWeights,
}

impl<'a> Model for StationSolver<'a> {
    ghost use Rattle.crew_stations.specs.Stations.{StationPlan};
    ghost use Rattle.station_flows.specs.CertifiedStates.{IsReady};

    ghost Value = { StationPlan };

    ghost view = { λ a. a.flows.numbers };

    ghost invariant = { λ a. IsReady a.flows.numbers a.masses.items a.room.items a.low.items a.high.items a.weights };
}

/// The weights of a fleet in the order of its states' numbers, and whether they are certified. On the infinite line one more
/// stands after them, for all states in which a call waits.
#[derive(Debug, Drop)]
pub struct StateWeights {
    pub weights: FleetWeights,
    pub is_certified: bool,
}

impl<'a> StationSolver<'a> {
    ghost use Rattle.std.specs.Prelude.{◌≡◌, IfOk, IsFalse, IsTrue, length};
    ghost use Rattle.station_flows.specs.CertifiedStates.{AreCertifiedStateWeights, AreWidestStateWeights, EncloseEverySolution, places};

    /// The solver of this fleet. All memory is taken here.
    pub fn reserved(alloc: Global, fleet: &'a Fleet) -> Result<StationSolver<'a>, AllocError>
        ensures { IfOk result (λ solver. solver ≡ fleet.now) }
    {
        let states = fleet.states();
        Ok(StationSolver {
            flows: StateFlows::of(alloc, fleet)?,
            masses: vec![in alloc; 0; states]?,
            room: vec![in alloc; 0; states]?,
            low: vec![in alloc; 0; states]?,
            high: vec![in alloc; 0; states]?,
            weights: FleetWeights::reserved(alloc, states + 1)?,
        })
    }

    /// Weighs the states: for every plan whose units stand at the stations they enclose every solution, up to one common
    /// factor. No memory is taken.
    ///
    /// Weights that are not certified are the widest, from 0 to 1.
    pub fn weigh(self) -> StateWeights
        ensures one_each { length result.weights.items ≡ places self.entry }
        ensures certified { IsTrue result.is_certified → AreCertifiedStateWeights self.entry result.weights.items }
        ensures widest { IsFalse result.is_certified → AreWidestStateWeights self.entry result.weights.items }
        ensures encloses { EncloseEverySolution self.entry result.weights.items }
    {
        let StationSolver {
            flows,
            mut masses,
            mut room,
            mut low,
            mut high,
            mut weights,
        } = self;
        let is_certified = weigh_states(
            &flows,
            &mut masses,
            &mut room,
            &mut low,
            &mut high,
            &mut weights,
        );
        StateWeights {
            weights,
            is_certified,
        }
    }
}
