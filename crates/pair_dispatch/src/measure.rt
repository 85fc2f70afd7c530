/// A measure of calls that may need two units. Units are counted from 0, and all measures are shares of one.
#[derive(Clone, Copy, Debug, PartialEq, Eq)]
pub enum PairMeasure {
    /// The share of calls that are lost: all units are busy.
    Loss,
    /// The share of calls that find exactly one unit free, so that a call for two is answered by one.
    Short,
    /// The share of time that a unit is busy.
    Workload(u8),
    /// Of the calls that need two units and find two free, the share to which these two go, the lower unit first.
    Pair(u8, u8),
}

/// A measure with its low and high end, in millionths.
#[derive(Clone, Copy, Debug, PartialEq, Eq)]
pub struct PairEnds {
    pub measure: PairMeasure,
    pub lo: u64,
    pub hi: u64,
}

/// All measures with their ends, in the order in which they are printed.
pub type PairFound = Vec<PairEnds>;
