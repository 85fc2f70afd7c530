use hyper_model::{Line, Name, Names, Rule};

/// A record of the text of a plan or of a fleet.
///
/// In each, `at` is the record's number, counted from 1 over all records of the text.
#[derive(Debug, Drop)]
pub enum Record {
    /// The version of the text.
    Version {
        at: u32,
        number: u32,
    },
    /// What becomes of a call while all units are busy.
    LineIs {
        at: u32,
        line: Line,
    },
    /// Where the preference lists come from.
    RuleIs {
        at: u32,
        rule: Rule,
    },
    /// The period of all rates, 1 to 100,000,000 seconds.
    Period {
        at: u32,
        seconds: u32,
    },
    /// A unit, with its service rate, 1 to 1,000,000.
    UnitIs {
        at: u32,
        name: Name,
        rate: u32,
    },
    /// An atom, with its call rate and its place, each 0 to 1,000,000, and the unit of its district.
    AtomIs {
        at: u32,
        name: Name,
        rate: u32,
        x: u32,
        y: u32,
        unit: Name,
    },
    /// The seconds of travel from one atom to another, 0 to 100,000.
    Travel {
        at: u32,
        from: Name,
        to: Name,
        seconds: u32,
    },
    /// The thousandths of its free time that a unit spends at an atom, 1 to 1000.
    Located {
        at: u32,
        unit: Name,
        atom: Name,
        thousandths: u32,
    },
    /// The units of an atom's preference list, one to twelve, each in a group of its own.
    Prefer {
        at: u32,
        atom: Name,
        units: Names,
    },
    /// The next group of an atom's preference list, one to twelve units.
    Group {
        at: u32,
        atom: Name,
        units: Names,
    },
    /// How many crews a station has, 1 to 200.
    Crews {
        at: u32,
        unit: Name,
        count: u32,
    },
}
