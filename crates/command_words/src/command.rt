use crate::{LimitList, Name255};
use hyper_model::{Measure, Method};
use report_text::Widths;

/// What is written if the arguments are no command.
pub const USAGE: &str =
    "usage: hypercube solve FILE | compare STUDY | make UNITS NUMBER | finite FILE PLACES | pairs FILE PERCENT | sweep FILE UNIT MEASURE | replay FILE DAY [--width W] [--time-width W] [--workers N] [--summary]\n";

/// What the program is asked to do.
#[derive(Debug, Drop, PartialEq, Eq)]
pub enum Command {
    /// Report the measures of a plan.
    Solve {
        /// The plan's file.
        file: Name255,
        /// How wide the report's intervals may be.
        widths: Widths,
        /// How many workers share the work, from 1 to 16.
        workers: u32,
        /// Whether only the measures of the whole region are reported.
        summary: bool,
        /// How the weights of the plan's words are found.
        method: Method,
    },
    /// Compare the plans of a study.
    Compare {
        /// The study's file.
        study: Name255,
        /// How wide the intervals of each plan may be.
        widths: Widths,
        /// How many workers share the work, from 1 to 16.
        workers: u32,
        /// How the weights of each plan's words are found.
        method: Method,
    },
    /// Make a plan.
    Make {
        /// How many units it is to have, below 10^18.
        units: u64,
        /// The number that it is made from, below 10^18.
        number: u64,
    },
    /// Report the measures of a plan with a limited number of waiting places.
    Finite {
        /// The plan's file.
        file: Name255,
        /// How many calls can wait, from 1 to 1000.
        places: u32,
    },
    /// Report the measures of a plan whose calls may need two units.
    Pairs {
        /// The plan's file.
        file: Name255,
        /// How many calls of a hundred need two units, from 0 to 100.
        percent: u32,
    },
    /// Report the atoms at which a unit of a plan may stand best.
    Sweep {
        /// The plan's file.
        file: Name255,
        /// The unit's name, of 1 to 32 bytes.
        unit: Name255,
        /// The measure by which the sites are compared: loss, delay, interdistrict or travel.
        measure: Measure,
    },
    /// Replay a recorded day of a plan.
    Replay {
        /// The plan's file.
        file: Name255,
        /// The day's file.
        day: Name255,
    },
    /// Report the shares of calls that are reached in time.
    Reach {
        /// The plan's file.
        file: Name255,
        /// Within how many seconds.
        limits: LimitList,
    },
    /// Report the measures of a fleet whose crews stand at stations.
    Fleet {
        /// The fleet's file.
        file: Name255,
        /// How wide the report's intervals may be.
        widths: Widths,
        /// Whether only the measures of the whole region are reported.
        summary: bool,
    },
}

/// Why arguments gave no [`Command`].
#[derive(Clone, Copy, Debug, PartialEq, Eq)]
pub enum WordsEnd {
    /// They are no command.
    NoCommand,
    /// There was no memory to read them.
    NoMemory,
}
