use crate::Refusal;
use std::alloc::AllocError;

/// Why a command comes to no text of its own.
#[derive(Clone, Copy, Debug, PartialEq, Eq)]
pub(crate) enum Stop {
    /// The arguments are no command.
    Usage,
    /// A text is refused.
    Refused(Refusal),
    /// No text has the name that is asked at this place.
    Absent(u32),
    /// A text was not read, for a fault.
    ReadFault,
    /// There was no memory.
    NoMemory,
}

impl From<AllocError> for Stop {
    ghost use Rattle.std.specs.Prelude.{◌≡◌};
    ghost use Rattle.hypercube_cli.specs.declared.stop.Stop.TheVariants as stop;

    ghost from_gives = { λ _ stopped. stopped ≡ stop.NoMemory };

    fn from(_error: AllocError) -> Stop {
        Stop::NoMemory
    }
}
