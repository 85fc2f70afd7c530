use fleet_measures::FleetMeasure;

/// Why there is no report of a fleet.
#[derive(Clone, Copy, Debug, PartialEq, Eq)]
pub enum FleetReportEnd {
    /// The low and the high end of this measure, in units of its last printed digit, lie further apart
    /// than was asked. Of such measures that would be printed it is the first.
    TooWide(FleetMeasure, u64, u64),
    /// There was no memory for the text.
    NoMemory,
}
