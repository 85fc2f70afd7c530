use crate::{Bounded, MOST_LIMITS};

/// What becomes of a call that comes while all units are busy.
#[derive(Clone, Copy, Debug, PartialEq, Eq)]
pub enum Line {
    /// It is lost.
    Zero,
    /// It waits, and is answered first come, first served.
    Infinite,
}

/// Where the atoms' preference lists come from.
#[derive(Clone, Copy, Debug, PartialEq, Eq)]
pub enum Rule {
    /// The plan's text gives them.
    Given,
    /// The nearest unit first, to the mean point of the calls of the atom's district.
    Strict,
    /// The nearest unit first, to the atom itself.
    Modified,
}

/// A measure of a plan. Units and atoms are counted from 0.
///
/// All are shares of one, but `Queue`, which is a mean number of calls, and `Wait` and the kinds of
/// `Travel`, which are mean times in seconds.
#[derive(Clone, Copy, Debug, PartialEq, Eq)]
pub enum Measure {
    /// The share of calls that are lost, if calls do not wait.
    Loss,
    /// The share of calls that wait.
    Delay,
    /// The mean number of calls that wait.
    Queue,
    /// The mean time that a call waits, over all calls.
    Wait,
    /// The share of time that a unit is busy.
    Workload(u8),
    /// The share of all answered calls that a unit answers at an atom.
    Dispatch(u8, u16),
    /// The share of all dispatches that lead out of the unit's own district.
    Interdistrict,
    /// The share of a unit's dispatches that lead out of its district.
    InterdistrictUnit(u8),
    /// The share of the dispatches to a unit's district that are of other units.
    InterdistrictDistrict(u8),
    /// The mean travel time to a call.
    Travel,
    /// The mean travel time to a call of an atom.
    TravelAtom(u16),
    /// The mean travel time of a unit to its calls.
    TravelUnit(u8),
    /// The mean travel time to a call of a unit's district.
    TravelDistrict(u8),
}

/// What a measure speaks of. Units and atoms are counted from 0.
#[derive(Clone, Copy, Debug, PartialEq, Eq)]
pub enum Subject {
    /// The whole region.
    Region,
    /// A unit.
    Unit(u8),
    /// An atom.
    Atom(u16),
    /// A unit and an atom.
    UnitAndAtom(u8, u16),
    /// The district of a unit.
    District(u8),
}

/// What was found of a measure.
#[derive(Clone, Copy, Debug, PartialEq, Eq)]
pub enum Found {
    /// The low and the high end, in units of the measure's [`scale`](crate::scale).
    Ends(u64, u64),
    /// Nothing: no call comes from the district that the measure speaks of.
    Without,
}

/// A measure with what was found of it.
#[derive(Clone, Copy, Debug, PartialEq, Eq)]
pub struct Enclosed {
    pub measure: Measure,
    pub found: Found,
}

/// How the weights of a plan's words are found. The measures have the same meaning by either method.
#[derive(Clone, Copy, Debug, PartialEq, Eq)]
pub enum Method {
    /// The words are eliminated one by one (Grassmann, Taksar and Heyman 1985).
    Elimination,
    /// The weights are guessed, and the balance equations then show that they enclose every solution.
    Certificate,
}

/// Seconds within which a unit has to be at the scene, at most 16 numbers in a row.
pub type Limits = Bounded<u32, MOST_LIMITS>;
