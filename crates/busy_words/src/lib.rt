//! The words of a fleet: which units are busy, in the order in which they are solved, who takes a call in
//! each of them, and the parts of a solution that its weights enclose.
//!
//! A word of `units` units is a `u16` below `2^units`; unit n is busy in it if bit n is set.
#![tactic(auto)]

mod dispatch;
mod orders;
mod sharing;
mod sums;
mod words;

pub use dispatch::{first_free, portion, takers, up};
pub use orders::Order;
pub use sums::{busy_part, full_part, part_between, tail_part, taken_part, unit_part};
pub use words::{is_busy, level};
