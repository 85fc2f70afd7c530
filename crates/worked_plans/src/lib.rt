//! The texts of worked plans, each once, for tests over several crates and for programs that take times.
#![tactic(auto)]

mod few;
mod fleets;
mod grids;
mod many;
mod streets;
mod wide;

pub use few::{
    ALL_BUT_FULL, BETWEEN, BOTH_AT_ONE, HALF_LOAD, LITTLE_MORE, ONE_GROUP, ONE_LIST, TEN_LOADS,
    THIRD_LOAD, THIRD_LOAD_WITH_A_QUEUE, THREE_IN_TURN, THREE_UNITS, THREE_UNLIKE, TWO_UNITS,
    TWO_UNITS_WITH_A_QUEUE, WITHOUT_CALLS,
};
pub use fleets::{
    FIVE_CREWS, FIVE_CREWS_APART, FIVE_CREWS_APART_WITH_A_QUEUE, FIVE_CREWS_WITH_A_QUEUE,
    SEVEN_CREWS,
};
pub use grids::grid;
pub use many::{ELEVEN_UNITS, SEVEN_OVERLOADED, SEVEN_SWAMPED, SIX_IN_GROUPS, SIX_WITH_A_QUEUE};
pub use streets::street;
pub use wide::widest;
