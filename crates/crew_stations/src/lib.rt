//! The laws of fleets whose crews stand at stations: crews of one station are alike, and Larson's chain over the words
//! of the busy crews is that of the numbers of busy crews at the stations.
#![tactic(auto)]

mod fleet;
mod laws;

pub use fleet::{Crews, Fleet, law_fleet};
pub use laws::{
    law_alike, law_crews, law_exchange, law_expanded, law_flows, law_lumping, law_lumps,
    law_one_crew_each, law_state_measures, law_stations,
};

/// The most crews of a fleet whose states are weighed.
pub const MOST_CREWS: usize = 200;

/// The most states of a fleet whose states are weighed.
pub const MOST_STATES: usize = 65_536;
