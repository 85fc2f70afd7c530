//! The program: the arguments of the command line over real files and standard output, and a message on standard error.
#![tactic(auto)]

mod progress;
mod saying;

use hypercube_cli::{Outcome, hypercube, status};
use outer_world::{FileShelf, StdoutSink};
use progress::Progress;
use run_messages::KeepingShelf;
use saying::{say, say_no_memory};
use std::alloc::AllocError;
use std::env;
use std::io::ErrorKind;
use std::process::ExitCode;

/// The arguments after the program's name; none if one of them is not UTF-8, since no command has such a word.
fn arguments_of(rt: &HostRuntime) -> Result<Option<Vec<String>>, AllocError> {
    match env::args(rt) {
        Ok(all) => Ok(Some(all.skip(1).collect(rt.alloc())?)),
        Err(error) => match error.kind() {
            ErrorKind::OutOfMemory => Err(AllocError),
            _ => Ok(None),
        },
    }
}

fn main(rt: HostRuntime) -> ExitCode {
    let Ok(arguments) = arguments_of(&rt) else {
        say_no_memory(&rt);
        return ExitCode::from(status(&Outcome::NoMemory))
    };
    let arguments = arguments.as_deref();
    let words = arguments.unwrap_or(&[]);
    let mut shelf = KeepingShelf::of(rt.alloc(), FileShelf::of(&rt));
    let mut sink = StdoutSink::of(&rt);
    let gate = Progress::of(&rt, words);
    let outcome = hypercube(&rt, rt.alloc(), words, &mut shelf, &mut sink, &gate);
    say(&rt, outcome, arguments, shelf.kept());
    ExitCode::from(status(&outcome))
}
