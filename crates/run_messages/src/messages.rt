use crate::ended::{Ended, Ending};
use crate::endings::{NO_MEMORY, UNWRITTEN, absent, constant, unread};
use crate::help::help;
use crate::kept::Kept;
use crate::refusals::refusal;
use crate::unsaid::Unsaid;
use crate::usage::usage_fault;
use crate::version::PROVED_WITH;
use crate::wide::{fleet_too_wide, too_wide};
use std::alloc::{AllocError, Global};

/// What is said of a run that is over, in lines of standard error.
///
/// It is nothing if the texts that it would speak of were not kept.
pub fn message(alloc: Global, ended: &Ended<'_>, kept: &Kept) -> Result<String, AllocError> {
    let said = match ended.ending {
        Ending::NotText => Ok(not_text(alloc)?),
        Ending::Usage => Ok(usage(alloc, ended.arguments)?),
        Ending::Refused(_, code) => Ok(refusal(alloc, ended, kept, code)?),
        Ending::TooWide(place, measure, low, high) => {
            too_wide(alloc, kept, place, measure, (low, high))
        }
        Ending::FleetTooWide(measure, low, high) => {
            fleet_too_wide(alloc, kept, measure, (low, high))
        }
        Ending::Absent => absent(alloc, kept),
        Ending::ReadFault => unread(alloc, kept),
        Ending::WriteFault => Ok(constant(alloc, UNWRITTEN)?),
        Ending::NoMemory => Ok(constant(alloc, NO_MEMORY)?),
    };
    match said {
        Ok(text) => Ok(text),
        Err(Unsaid::Unknown) => Ok(String::new(alloc)),
        Err(Unsaid::NoMemory) => Err(AllocError),
    }
}

/// What is said if there is no memory for more.
pub fn plain_message(ending: Ending) -> &'static str {
    match ending {
        Ending::WriteFault => UNWRITTEN,
        Ending::NoMemory => NO_MEMORY,
        _ => "",
    }
}

fn not_text(alloc: Global) -> Result<String, AllocError> {
    let help = help(alloc)?;
    format!(in alloc;
        "hypercube: a word is not UTF-8, and no command has such a word: rename the file.\n{help}"
    )
}

fn usage(alloc: Global, words: &[String]) -> Result<String, AllocError> {
    match asked_of(words) {
        Asked::Help => help(alloc),
        Asked::Version => { format!(in alloc; "hypercube: proved with {PROVED_WITH}\n") }
        Asked::Command => {
            let fault = usage_fault(alloc, words)?;
            let help = help(alloc)?;
            format!(in alloc; "hypercube: {fault}\n{help}")
        }
    }
}

/// What words that are no command ask for.
#[derive(Clone, Copy)]
enum Asked {
    Help,
    Version,
    Command,
}

fn asked_of(words: &[String]) -> Asked {
    if words.first().is_some_and(|word| word.as_str() == "help") {
        return Asked::Help;
    }
    for word in words {
        match word.as_str() {
            "--help" | "-h" => return Asked::Help,
            "--version" | "-V" => return Asked::Version,
            "--" => return Asked::Command,
            _ => {}
        }
    }
    Asked::Command
}
