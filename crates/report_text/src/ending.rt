use hyper_model::Measure;

/// How far apart the two ends of a measure may lie, in units of its last printed digit. If no width is
/// given, any distance will do.
#[derive(Clone, Copy, Debug, PartialEq, Eq)]
pub struct Widths {
    /// Of shares and of the mean number of waiting calls, in millionths.
    pub share: Option<u32>,
    /// Of mean times, in thousandths of a second.
    pub time: Option<u32>,
}

/// Why there is no report.
#[derive(Clone, Copy, Debug, PartialEq, Eq)]
pub enum ReportEnd {
    /// The low and the high end of this measure, in units of its last printed digit, lie further apart
    /// than was asked. Of such measures that would be printed it is the first.
    TooWide(Measure, u64, u64),
    /// There was no memory for the text.
    NoMemory,
}
