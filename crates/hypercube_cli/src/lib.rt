//! The command line: its arguments in, one outcome and one text out.
#![tactic(auto)]

mod answer;
mod enclosing;
mod lines;
mod outcome;
mod reading;
mod refusal;
mod stop;
mod tasks;
mod top;

pub use command_words::{Command, Name255, WordsEnd, read_words};
pub use outcome::{Outcome, status};
pub use refusal::{Refusal, RefusalFields};
pub use top::hypercube;
