//! Weights of the states of a fleet of stations by a certificate: the rates between states in two lists, their flows, and
//! the weights that enclose every solution over the words of the crews.
#![tactic(auto)]

mod digits;
mod flows;
mod laws;
mod levels;
mod numbers;
mod rates;
mod solver;
mod weighing;

pub use flows::StateFlows;
pub use laws::law_state_weights;
pub use solver::{FleetWeights, MOST_STATE_WEIGHTS, StateWeights, StationSolver};
