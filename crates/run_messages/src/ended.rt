use fleet_measures::FleetMeasure;
use hyper_model::Measure;
use text_lines::RefusalCode;

/// How a run ended that wrote no text of its command.
#[derive(Clone, Copy, Debug, PartialEq, Eq)]
pub enum Ending {
    /// One of the arguments is not UTF-8.
    NotText,
    /// The arguments are no command.
    Usage,
    /// What stands at this place, counted from 1 and 0 for what is no plan, was refused for this reason.
    Refused(u32, RefusalCode),
    /// Of the plan at this place, this measure has a low and a high end, in units of its last printed digit, that lie
    /// further apart than was asked.
    TooWide(u32, Measure, u64, u64),
    /// Of the fleet, this measure has such ends.
    FleetTooWide(FleetMeasure, u64, u64),
    /// There is no file of the name that was asked for last.
    Absent,
    /// The file that was asked for last was not read.
    ReadFault,
    /// The text was not written whole.
    WriteFault,
    /// There was no memory.
    NoMemory,
}

/// A run that is over: how it ended, and the arguments after the program's name.
#[derive(Clone, Copy)]
pub struct Ended<'a> {
    pub ending: Ending,
    pub arguments: &'a [String],
}
