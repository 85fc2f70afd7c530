ghost use Rattle.std.specs.Prelude.{◌≡◌};

use std::alloc::AllocError;
use thiserror::Error;

/// Why records give no preference lists.
///
/// Records and atoms are counted from 1.
#[derive(Clone, Copy, Debug, PartialEq, Eq, Error)]
pub enum ListRefusal {
    /// No record is for the list of this atom.
    #[error("no record is for the list of atom {0}")]
    MissingList(u64),
    /// The records for the list of this atom do not hold every unit exactly once.
    #[error("the list of atom {0} does not hold every unit exactly once")]
    ListNotWhole(u64),
    /// This record gives a list, and the plan's rule is another.
    #[error("record {0} gives a list, and the rule does not ask for one")]
    ListNotAsked(u64),
    /// This record is for an atom whose list an earlier record gives.
    #[error("record {0} is for an atom whose list an earlier record gives")]
    ListTwice(u64),
    /// There was no memory for the lists.
    #[error("out of memory")]
    NoMemory,
}

impl From<AllocError> for ListRefusal {
    ghost use Rattle.preference_rules.specs.declared.refusal.ListRefusal.TheVariants.{NoMemory};

    ghost from_gives = { λ _ refusal. refusal ≡ NoMemory };

    fn from(_: AllocError) -> ListRefusal {
        ListRefusal::NoMemory
    }
}
