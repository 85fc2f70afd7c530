//! How busy a fleet is, from the weights of its plan: the calls that are lost or wait, the queue, the mean wait
//! and each unit's workload (Larson 1974; Larson and Odoni, Urban Operations Research, chapter 5).
//!
//! A plan has one weight for each word and, if calls wait, one more for all states in which a call waits.
//! Each call has the exact ends of its answer, and by [`law_loads`] these ends contain the measure of every solution
//! that the weights enclose.
#![tactic(auto)]

mod calls;
mod laws;
mod rounding;
mod units;

pub use busy_words::full_part;
pub use calls::{loss_or_delay, mean_wait, queue_length};
pub use laws::law_loads;
pub use units::workloads;
