//! The command that the arguments of the program give.
#![tactic(auto)]

mod argument;
mod argument_lists;
mod command;
mod limit_list;
mod limits;
mod name;
mod options;
mod plain;
mod reading;

pub use command::{Command, USAGE, WordsEnd};
pub use limit_list::LimitList;
pub use name::Name255;
pub use reading::read_words;
