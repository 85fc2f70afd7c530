//! The hypercube queueing model (Larson 1974; Larson and Odoni, Urban Operations Research, chapter 5):
//! plain types of a plan and of its measures, and the definitions and laws on which all proofs stand.
#![tactic(auto)]

mod acceptance;
mod acceptance_tables;
mod bounded;
mod descriptions;
mod enclosure_list;
mod grid;
mod kinds;
mod laws;
mod name;
mod own_names;
mod parts;
mod place_list;
mod plan_sums;
mod plans;
mod preference;
mod sharing;
mod travel_time;
mod values;

pub use acceptance_tables::places_of;
pub use bounded::Bounded;
pub use descriptions::{measure_named, scale};
pub use enclosure_list::Enclosures;
pub use grid::Table;
pub use kinds::{Enclosed, Found, Limits, Line, Measure, Method, Rule, Subject};
pub use laws::{
    law_accepted, law_any_units, law_existence, law_levels, law_positive, law_proportion, law_tail,
};
pub use name::{MOST_NAME_BYTES, Name, NameEnd};
pub use own_names::HasName;
pub use parts::{Atom, Atoms, Names, PlanParts, Unit, Units};
pub use place_list::push_each;
pub use plans::Plan;
pub use preference::Lists;
pub use travel_time::mean_thousandths;
pub use values::{Value, value_in};

/// The most units that a plan has.
pub const MOST_UNITS: usize = 12;

/// The most atoms that a plan has.
pub const MOST_ATOMS: usize = 200;

/// The highest rate of a unit, of an atom, of all units and of all atoms, per period.
pub const MOST_RATE: u32 = 1_000_000;

/// The highest coordinate of an atom's point.
pub const MOST_COORDINATE: u32 = 1_000_000;

/// The longest period, in seconds.
pub const MOST_PERIOD: u32 = 100_000_000;

/// The longest travel, in seconds.
pub const MOST_TRAVEL: u32 = 100_000;

/// The most numbers of seconds for which one command finds the calls that are reached in time.
pub const MOST_LIMITS: usize = 16;

/// The thousandths of a unit's free time.
pub const WHOLE_TIME: u32 = 1000;

/// The most measures that a list has room for.
pub const MOST_ENCLOSURES: usize = 4000;

/// What all rates are multiplied by if a group has two units or more: each number of units divides it.
pub const SHARES: u32 = 27_720;

/// The most fractions of dispatches and shares of districts that a plan has.
pub const MOST_DISPATCHES: usize = MOST_UNITS * MOST_ATOMS + 1 + 2 * MOST_UNITS;

/// The most mean travel times that a plan has.
pub const MOST_TIMES: usize = 1 + MOST_ATOMS + 2 * MOST_UNITS;

/// The most measures that a plan has: with those of the calls that find all units busy, and the workloads.
pub const MOST_MEASURES: usize = 3 + MOST_UNITS + MOST_DISPATCHES + MOST_TIMES;
