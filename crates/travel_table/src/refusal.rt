ghost use Rattle.std.specs.Prelude.{◌≡◌};

use std::alloc::AllocError;
use thiserror::Error;

/// Why records give no travel times.
///
/// Records and atoms are counted from 1.
#[derive(Clone, Copy, Debug, PartialEq, Eq, Error)]
pub enum TravelRefusal {
    /// This record is for two atoms for which, in the same order, an earlier record is.
    #[error("record {0} is for two atoms that an earlier record has in this order")]
    DuplicateTravel(u64),
    /// No record is for the travel from the first of these atoms to the second.
    #[error("there is no travel time from atom {0} to atom {1}")]
    MissingTravel(u64, u64),
    /// There was no memory for the table.
    #[error("out of memory")]
    NoMemory,
}

impl From<AllocError> for TravelRefusal {
    ghost use Rattle.travel_table.specs.declared.refusal.TravelRefusal.TheVariants.{NoMemory};

    ghost from_gives = { λ _ refusal. refusal ≡ NoMemory };

    fn from(_: AllocError) -> TravelRefusal {
        TravelRefusal::NoMemory
    }
}
