ghost use Rattle.std.specs.Prelude.{◌≡◌};

use std::alloc::AllocError;
use thiserror::Error;

/// Why records give no units and atoms.
///
/// Records and the fields of a record are counted from 1.
#[derive(Clone, Copy, Debug, PartialEq, Eq, Error)]
pub enum AtomRefusal {
    /// This record is for an atom whose name an earlier one has.
    #[error("record {0} is for an atom that an earlier record has")]
    DuplicateAtom(u64),
    /// This record is for a unit whose name an earlier one has.
    #[error("record {0} is for a unit that an earlier record has")]
    DuplicateUnit(u64),
    /// This record is for the first of more than 200 atoms.
    #[error("record {0} is beyond the 200 atoms that a plan may have")]
    TooManyAtoms(u64),
    /// This record is for the first of more than 12 units.
    #[error("record {0} is beyond the 12 units that a plan may have")]
    TooManyUnits(u64),
    /// In this record, this field names a unit or an atom that has no record of its own.
    #[error("record {0} has an unknown name in field {1}")]
    UnknownName(u64, u64),
    /// No record is for a unit.
    #[error("there is no unit")]
    NoUnits,
    /// No record is for an atom.
    #[error("there is no atom")]
    NoAtoms,
    /// The call rates of all atoms are 0.
    #[error("no atom has calls")]
    NoCalls,
    /// The call rates have this sum, which is more than [`MOST_RATE_SUM`](crate::MOST_RATE_SUM).
    #[error("the call rates sum to {0}, more than 1000000")]
    RateSum(u64),
    /// The service rates have this sum, which is more than [`MOST_RATE_SUM`](crate::MOST_RATE_SUM).
    #[error("the service rates sum to {0}, more than 1000000")]
    ServiceSum(u64),
    /// There was no memory for the table.
    #[error("out of memory")]
    NoMemory,
}

impl From<AllocError> for AtomRefusal {
    ghost use Rattle.atom_table.specs.declared.refusal.AtomRefusal.TheVariants.{NoMemory};

    ghost from_gives = { λ _ refusal. refusal ≡ NoMemory };

    fn from(_: AllocError) -> AtomRefusal {
        AtomRefusal::NoMemory
    }
}
