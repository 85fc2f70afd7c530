ghost use Rattle.std.specs.Prelude.{◌≡◌};
ghost use Rattle.hypercube_cli.specs.Outcomes.{status_of};

use crate::Refusal;
use fleet_measures::FleetMeasure;
use hyper_model::Measure;

/// How a run ended.
#[derive(Clone, Copy, Debug, PartialEq, Eq)]
pub enum Outcome {
    /// The text of the command was written whole.
    Done,
    /// The arguments are no command, and the usage line was written.
    Usage,
    /// A text was refused, and the line that says so was written.
    Refused(Refusal),
    /// Of the plan at this place, this measure has a low and a high end, in units of its last printed digit, that lie
    /// further apart than was asked, and the line that says so was written.
    TooWide(u32, Measure, u64, u64),
    /// Of the fleet, this measure has such ends, and the line that says so was written.
    FleetTooWide(FleetMeasure, u64, u64),
    /// There is no text of the name that the command asks for at this place, 0 for a study and from 1 on for plans, and
    /// nothing was written.
    Absent(u32),
    /// A text was not read, for a fault, and nothing was written.
    ReadFault,
    /// The text was not written whole, for a fault.
    WriteFault,
    /// There was no memory for it.
    NoMemory,
}

/// The status that a program ends with.
pub fn status(outcome: &Outcome) -> u8
    ensures { result ≡ status_of outcome.now }
{
    match outcome {
        Outcome::Done => 0,
        Outcome::Usage => 1,
        Outcome::Refused(_) => 2,
        Outcome::TooWide(_, _, _, _) | Outcome::FleetTooWide(_, _, _) => 3,
        Outcome::Absent(_) => 4,
        Outcome::ReadFault => 5,
        Outcome::WriteFault => 6,
        Outcome::NoMemory => 7,
    }
}
