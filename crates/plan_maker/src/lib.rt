//! Plans for trials: a number of units and a number to begin with give the same text each time.
//!
//! Each plan has four atoms for each unit, with rates and points that look as if they were drawn by
//! chance. The units answer by distance, so no preference lists are in the text.
#![tactic(auto)]

mod atoms;
mod generator;
mod making;
mod records;
mod refusal;
mod rows;

pub use making::{LEAST_MADE_UNITS, MOST_MADE_UNITS, MOST_PLAN_NUMBER, make};
pub use refusal::MakeRefusal;
