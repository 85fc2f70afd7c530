//! The measures of a fleet whose crews stand at stations, with ends that contain them, from weights of its states: of each
//! station what a plan has of each unit, and the share of time in which none of its crews is free.
#![tactic(auto)]

mod enclosing;
mod gather;
mod kinds;
mod laws;
mod listing;
mod pool;
mod workload;

pub use enclosing::enclose_fleet;
pub use kinds::{FleetEnds, FleetMeasure};
pub use laws::law_fleet_measures;
