//! The preference lists of a plan's atoms: those that its records give, or the nearest unit first.
#![tactic(auto)]

mod centre;
mod draft;
mod given;
mod order;
mod points;
mod preference;
mod refusal;
mod rows;

pub use centre::centred;
pub use given::law_given_groups;
pub use order::law_centre_list;
pub use preference::preferences;
pub use refusal::ListRefusal;
