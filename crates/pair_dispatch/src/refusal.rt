ghost use Rattle.std.specs.Prelude.{◌≡◌};
ghost use Rattle.pair_dispatch.specs.Refusals.{code_of};

use text_lines::RefusalCode;
use thiserror::Error;

/// Why calls of a plan may not need two units.
#[derive(Clone, Copy, Debug, PartialEq, Eq, Error)]
pub enum PairRefusal {
    /// Calls wait in the plan.
    #[error("refusal 82: calls wait")]
    PairLine,
    /// It has so many units, and at most ten may be.
    #[error("refusal 83: too many units: {0}")]
    PairUnits(u64),
    /// This atom, counted from 1, is the first with a group of more than one unit.
    #[error("refusal 84: a group of several units at atom {0}")]
    PairGroup(u64),
}

impl PairRefusal {
    /// The number by which the refusal is reported, and its argument.
    pub fn code(&self) -> RefusalCode
        ensures { result ≡ code_of self.now }
    {
        match self {
            PairRefusal::PairLine => RefusalCode::plain(82),
            PairRefusal::PairUnits(count) => RefusalCode::of_one(83, *count),
            PairRefusal::PairGroup(atom) => RefusalCode::of_one(84, *atom),
        }
    }
}
