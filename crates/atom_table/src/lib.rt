//! The units and atoms of a plan's records, with their names looked up in maps.
#![tactic(auto)]

mod atom_step;
mod name_index;
mod name_step;
mod named;
mod pair_values;
mod refusal;
mod sharing;
mod sum_step;
mod table;
mod unit_step;

pub use name_index::NameIndex;
pub use pair_values::PairValues;
pub use refusal::AtomRefusal;
pub use table::AtomTable;

/// The most that the call rates of all atoms, or the service rates of all units, may sum to.
pub const MOST_RATE_SUM: u64 = 1_000_000;
