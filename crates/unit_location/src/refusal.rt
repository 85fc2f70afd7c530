ghost use Rattle.std.specs.Prelude.{◌≡◌};

use std::alloc::AllocError;
use thiserror::Error;

/// Why records give no locations.
///
/// Records and units are counted from 1.
#[derive(Clone, Copy, Debug, PartialEq, Eq, Error)]
pub enum LocationRefusal {
    /// This record is for a unit and an atom for which an earlier record is.
    #[error("record {0} is for a unit and an atom that an earlier record has")]
    DuplicateLocation(u64),
    /// The thousandths of this unit have this sum, and not 1000.
    #[error("the thousandths of unit {0} sum to {1}, not 1000")]
    LocationSum(u64, u64),
    /// There was no memory for the table.
    #[error("out of memory")]
    NoMemory,
}

impl From<AllocError> for LocationRefusal {
    ghost use Rattle.unit_location.specs.declared.refusal.LocationRefusal.TheVariants.{NoMemory};

    ghost from_gives = { λ _ refusal. refusal ≡ NoMemory };

    fn from(_: AllocError) -> LocationRefusal {
        LocationRefusal::NoMemory
    }
}
