//! Calls that need two units: of a hundred calls of each atom so many do. They take the first two free units of the
//! atom's list, or the only free one, and each unit serves by itself.
//!
//! This rule is this project's own. The fleet is that of Larson's hypercube model (Larson 1974; Larson and Odoni,
//! Urban Operations Research, chapter 5), on the zero line: a call that finds all units busy is lost.
#![tactic(auto)]

mod chain;
mod check;
mod enclosing;
mod laws;
mod measure;
mod measuring;
mod refusal;
mod sending;
mod sums;
mod texts;
mod weighing;
mod word_set;

pub use chain::PairChain;
pub use check::{MOST_PAIR_UNITS, check_pairs};
pub use enclosing::enclose_pairs;
pub use laws::{law_pair_solutions, law_pairs};
pub use measure::{PairEnds, PairFound, PairMeasure};
pub use refusal::PairRefusal;
pub use texts::pair_text;
