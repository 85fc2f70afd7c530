//! A recorded day replayed: which unit goes to each call by the plan's lists, beside what the model says.
#![tactic(auto)]

mod busy_times;
mod day_list;
mod day_names;
mod day_refusal;
mod day_rows;
mod dispatch_counts;
mod fleet;
mod laws;
mod played_list;
mod replay_rows;
mod replay_texts;
mod replaying;

pub use day_list::{Day, DayRecord};
pub use day_refusal::DayRefusal;
pub use day_rows::read_day;
pub use laws::{law_model_ends, law_sends};
pub use played_list::{Played, Send};
pub use replay_texts::replay_text;
pub use replaying::{ReplayEnd, replay};

/// The latest second of a record.
pub const MOST_SECOND: u32 = 999_999_999;
