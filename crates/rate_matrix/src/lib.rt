//! Rates between the states of a chain, in intervals.
#![tactic(auto)]

mod band;
mod chain;
mod dense;
mod gate;
mod matrix;
mod packed;
mod rows;
mod sharing;
mod update;
mod words;

pub use chain::{Chain, law_descending};
pub use gate::{Gate, OpenGate};
pub use matrix::RateMatrix;
pub use words::WordChain;
