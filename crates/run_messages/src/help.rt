use crate::commands::{COMMANDS, OPTIONS};
use std::alloc::{AllocError, Global};

/// Each command and option, with its ranges and what stands if it is left out.
pub(crate) fn help(alloc: Global) -> Result<String, AllocError> {
    let mut text = String::from_str(alloc, "Write hypercube, a command and its options:\n")?;
    for command in COMMANDS {
        push_row(&mut text, command.pattern, command.about)?;
    }
    text.push_str("Options of solve, compare and fleet, in any place:\n")?;
    for option in OPTIONS {
        push_row(&mut text, option.pattern, option.about)?;
    }
    text.push_str(END)?;
    Ok(text)
}

/// What ends the help.
const END: &str = "\
A width is written --width 500 or --width=500. After -- a word that begins with a dash is a name.
Names of files begin in the current folder. The report goes to standard output, all else to standard error.
The exit status is 0 for a report, 1 for words that are no command, 2 for a text or a number that is refused,
3 for a measure that is wider than was asked, 4 for a file that is not there, 5 for one that was not read,
6 for output that was not written, and 7 for lack of memory.
";

fn push_row(text: &mut String, pattern: &str, about: &str) -> Result<(), AllocError> {
    write!(text, "  {pattern:<26}{about}\n")
}
