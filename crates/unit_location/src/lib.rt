//! Where the units of a plan's records are, and how long they travel from there.
#![tactic(auto)]

mod locations;
mod mean_time;
mod refusal;
mod share_sums;
mod shares;
mod sharing;

pub use locations::Locations;
pub use mean_time::mean_thousandths;
pub use refusal::LocationRefusal;
