//! What a planner is told on standard error after a run that did not end well: what is wrong, where, and what to do.
//!
//! The messages are made after the run, of what its shelf gave it. They change neither its outcome nor a byte of its text.
#![tactic(auto)]

mod arguments;
mod at;
mod command_faults;
mod commands;
mod day_faults;
mod ended;
mod endings;
mod fleet_faults;
mod form_faults;
mod forms;
mod grouped;
mod help;
mod kept;
mod limit_faults;
mod lines;
mod list_faults;
mod location_faults;
mod messages;
mod name_faults;
mod near;
mod number_advice;
mod quoted;
mod refusals;
mod rows;
mod setting_faults;
mod study_faults;
mod travel_faults;
mod unsaid;
mod usage;
mod version;
mod wide;

pub use ended::{Ended, Ending};
pub use kept::{KeepingShelf, Kept};
pub use messages::{message, plain_message};
