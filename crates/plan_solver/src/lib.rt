//! One plan solved: the weights of its states, and the ends of all its measures.
#![tactic(auto)]

mod certified;
mod enclosing;
mod laws;
mod measuring;
mod methods;
mod sharing;
mod solver;
mod weighing;

pub use certified::enclose_certified;
pub use enclosing::{enclose, enclose_with};
pub use laws::{law_enclosure, law_sound, law_weights};
pub use methods::enclose_by;
pub use solver::{Solver, Weighed};
