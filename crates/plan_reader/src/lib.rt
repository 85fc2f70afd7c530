//! The plan of a text, read by the crates for its parts one after the other; and the fleet of a text, a plan whose units are
//! stations, with how many crews each of them has.
#![tactic(auto)]

mod crews;
mod fleet;
mod fleet_limits;
mod fleet_refusal;
mod plan;
mod refusal;
mod settings;

pub use fleet::read_fleet;
pub use fleet_refusal::FleetRefusal;
pub use plan::{law_first_condition, law_plan, read_plan};
pub use refusal::PlanRefusal;
