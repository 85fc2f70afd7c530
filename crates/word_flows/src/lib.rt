//! Weights of a plan's words by a certificate: all rates between words in one list, their flows, and the weights that
//! enclose every solution.
#![tactic(auto)]

mod flows;
mod laws;
mod levels;
mod rates;
mod solver;
mod weighing;

pub use flows::WordFlows;
pub use laws::law_certified_weights;
pub use solver::{CertificateSolver, WordWeights};
