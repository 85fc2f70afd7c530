use hypercube_cli::Outcome;
use run_messages::{Ended, Ending, Kept, message, plain_message};

/// Says on standard error what became of a run over these arguments, if they are text, unless it ended well.
///
/// Where it cannot be said, nothing else changes.
pub(crate) fn say(rt: &HostRuntime, outcome: Outcome, arguments: Option<&[String]>, kept: &Kept) {
    let Some(ending) = ending_of(outcome, arguments.is_some()) else {
        return
    };
    let ended = Ended {
        ending,
        arguments: arguments.unwrap_or(&[]),
    };
    let _ = match message(rt.alloc(), &ended, kept) {
        Ok(text) => rt.eprint(text.as_str()),
        Err(_) => rt.eprint(plain_message(ending)),
    };
}

/// Says that there was no memory for the arguments.
pub(crate) fn say_no_memory(rt: &HostRuntime) {
    let _ = rt.eprint(plain_message(Ending::NoMemory));
}

/// How a run ended that calls for a message.
fn ending_of(outcome: Outcome, are_text: bool) -> Option<Ending> {
    match outcome {
        Outcome::Done => None,
        Outcome::Usage if !are_text => Some(Ending::NotText),
        Outcome::Usage => Some(Ending::Usage),
        Outcome::Refused(refusal) => {
            let fields = refusal.fields();
            Some(Ending::Refused(fields.place, fields.code))
        }
        Outcome::TooWide(place, measure, low, high) => {
            Some(Ending::TooWide(place, measure, low, high))
        }
        Outcome::FleetTooWide(measure, low, high) => {
            Some(Ending::FleetTooWide(measure, low, high))
        }
        Outcome::Absent(_) => Some(Ending::Absent),
        Outcome::ReadFault => Some(Ending::ReadFault),
        Outcome::WriteFault => Some(Ending::WriteFault),
        Outcome::NoMemory => Some(Ending::NoMemory),
    }
}
