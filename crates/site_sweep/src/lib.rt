//! Where to put one unit: it is placed wholly at each atom in turn, and the sites that no other site strictly beats are
//! kept.
#![tactic(auto)]

mod enclosing;
mod finding;
mod laws;
mod placing;
mod refusal;
mod site_list;
mod sweeping;
mod writing;

pub use finding::find_unit;
pub use laws::{law_placed, law_sites};
pub use placing::placed;
pub use refusal::SweepRefusal;
pub use site_list::{Site, Sites};
pub use sweeping::{MOST_PLACED, sweep, sweep_with};
pub use writing::sweep_text;
