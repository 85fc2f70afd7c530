//! Intervals with whole ends, rounded outward, and lists of weights.
//!
//! An [`Iv`] has two ends of 64 bits and a [`Wide`] two of 128. Each operation has its ends exactly,
//! the low one rounded down and the high one up, and whenever the intervals that go in contain
//! numbers, the one that comes out contains the result. Numbers are fractions over whole numbers
//! without bound, so "contains" is said by cross-multiplication.
//!
//! [`Weights`] holds numbers that matter only up to one common factor, as the stationary weights of
//! a chain do, and so may shift them all so that a new one fits.
#![tactic(auto)]

mod iv;
mod sharing;
mod weights;
mod wide;

pub use iv::Iv;
pub use weights::{Weights, WeightsUpTo, least_shift};
pub use wide::Wide;

/// The most weights of a list: one for each of `2^12` states, and one more.
pub const MOST_WEIGHTS: usize = 4097;
