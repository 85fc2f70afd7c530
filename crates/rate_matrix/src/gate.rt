ghost use Rattle.std.specs.Prelude.{◌≡◌, ◌^◌, ◌≤◌};
ghost use Rattle.rate_matrix.specs.Elimination.{raised_entry};

use fixed_interval::Iv;

/// What computes each entry that an elimination changes.
///
/// Every gate answers the same. So whoever hands one in may watch how the work is shared out, and cannot
/// change its outcome.
pub trait Gate {
    /// The new entry of state `row`: `old`, and the part `part` of the entry `into` the state that is
    /// eliminated, with neither end above `cap`. `place` is that of the matrix among others.
    fn cell(&self, place: usize, row: usize, old: Iv, into: Iv, part: Iv, cap: u64) -> Iv
        requires { cap ≤ 2 ^ 62 }
        ensures { result ≡ raised_entry old into part cap };

    /// Is called once all measures of the plan at this place are found. Nothing that is found depends on it.
    fn solved(&self, _place: usize) {}
}

/// The gate that computes the entry and does nothing else.
#[derive(Clone, Copy, Debug, Default, PartialEq, Eq)]
pub struct OpenGate;

impl Gate for OpenGate {
    fn cell(&self, _place: usize, _row: usize, old: Iv, into: Iv, part: Iv, cap: u64) -> Iv {
        old.plus_capped(into.times_part(part), cap)
    }
}
