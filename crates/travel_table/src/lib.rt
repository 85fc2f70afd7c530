//! The seconds of travel between the atoms of a plan's records.
#![tactic(auto)]

mod refusal;
mod sharing;
mod table;
mod trips;

pub use refusal::TravelRefusal;
pub use table::TravelTable;
