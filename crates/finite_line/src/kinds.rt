use crate::MOST_FINITE_MEASURES;
use hyper_model::Bounded;

/// A measure of a plan with a limited number of waiting places. Units are counted from 0.
///
/// All are shares of one, but `Queue`, which is a mean number of calls, and `Wait`, which is a mean time in seconds.
#[derive(Clone, Copy, Debug, PartialEq, Eq)]
pub enum FiniteMeasure {
    /// The share of calls that are lost: they find all units busy and all places taken.
    Lost,
    /// The share of calls that wait: they find all units busy and a place free.
    Delayed,
    /// The share of time in which all units are busy.
    Busy,
    /// The mean number of calls that wait.
    Queue,
    /// The mean time that a call waits, over all calls that are not lost.
    Wait,
    /// The share of time in which a unit is busy.
    Workload(u8),
}

impl FiniteMeasure {
    ghost use Rattle.std.specs.Prelude.{◌≡◌};
    ghost use Rattle.finite_line.specs.FiniteMeasures.{finite_scale};

    /// How many last printed digits are one: 1000 for the mean wait, else 1,000,000.
    pub fn scale(self) -> u32
        ensures { result ≡ finite_scale self }
    {
        match self {
            FiniteMeasure::Wait => 1000,
            _ => 1_000_000,
        }
    }
}

/// A measure with the low and the high end that were found of it, in units of its last printed digit: a thousandth of a
/// second for the mean wait, else a millionth.
#[derive(Clone, Copy, Debug, PartialEq, Eq)]
pub struct FiniteEnds {
    pub measure: FiniteMeasure,
    pub lo: u64,
    pub hi: u64,
}

/// What was found of all measures of a plan, in the order in which they are printed.
pub type FiniteFound = Bounded<FiniteEnds, MOST_FINITE_MEASURES>;
