//! The share of calls whose unit is at the scene in time: of the region, of each atom, of each unit and of each district, for
//! up to 16 limits in seconds (Larson 1974; Larson and Odoni, Urban Operations Research, chapter 5).
//!
//! A share is a mean travel time of the plan whose trips take 1000 seconds if they are timely and none if they are not. So
//! one weighing of the plan's words serves all limits.
#![tactic(auto)]

mod kinds;
mod laws;
mod reaching;
mod rows;
mod shares;
mod text;
mod timely;

pub use kinds::{ReachMeasure, ReachRow, ReachRows};
pub use laws::{law_reach, law_reached};
pub use reaching::{reach, reach_with};
pub use text::reach_text;

/// The most rows of an answer: of the region three, and one for each atom, each unit and each district.
pub const MOST_REACH_ROWS: usize = 3 + 200 + 2 * 12;
