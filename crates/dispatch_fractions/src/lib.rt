//! Which unit answers whose calls: the fraction of all dispatches that go from each unit to each atom, and how
//! many of them lead out of the units' own districts (Larson 1974; Larson and Odoni, Urban Operations Research,
//! chapter 5).
//!
//! [`Parts`] are made of the weights of a plan's states once. All measures of dispatches, and those of travel
//! times, are made of them.
#![tactic(auto)]

mod district_shares;
mod districts;
mod flows;
mod fraction_list;
mod laws;
mod part_list;
mod part_making;
mod sharing;

pub use district_shares::interdistrict;
pub use districts::{calls_inside, is_inside};
pub use flows::found_of;
pub use fraction_list::fractions;
pub use laws::{law_dispatches, law_parts};
pub use part_list::Parts;
