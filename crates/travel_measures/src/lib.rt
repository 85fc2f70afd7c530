//! Mean travel times to calls: in the region, to each atom, of each unit and in each unit's district (Larson 1974;
//! Larson and Odoni, Urban Operations Research, chapter 5).
//!
//! A unit that is free travels from where it spends its free time. One that takes a call out of the queue travels
//! from the place of its last call.
#![tactic(auto)]

mod atom_list;
mod district_list;
mod laws;
mod means;
mod table_sums;
mod totals;
mod trips;
mod unit_list;

pub use atom_list::{atom_time, atom_times};
pub use district_list::{district_time, district_times};
pub use laws::law_travel_times;
pub use means::region_time;
pub use totals::TravelTotals;
pub use trips::all_trips;
pub use unit_list::{unit_time, unit_times};
