//! A fleet with a limited number of waiting places: a call that finds all units busy waits if a place is free, and else is
//! lost (Larson and Odoni, Urban Operations Research, chapter 5).
#![tactic(auto)]

mod enclosing;
mod kinds;
mod laws;
mod measuring;
mod refusal;
mod sums;
mod text;
mod weighing;

pub use enclosing::enclose_finite;
pub use kinds::{FiniteEnds, FiniteFound, FiniteMeasure};
pub use laws::law_finite;
pub use refusal::{FiniteRefusal, check_finite};
pub use text::finite_text;

/// The most places in which calls wait.
pub const MOST_PLACES: u32 = 1000;

/// The most units of a plan with waiting places: twelve have so many words that their weights leave no room for others.
pub const MOST_FINITE_UNITS: usize = 11;

/// The most measures of a plan with waiting places: five, and the workloads.
pub const MOST_FINITE_MEASURES: usize = 5 + MOST_FINITE_UNITS;
