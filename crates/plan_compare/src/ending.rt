use hyper_model::Measure;

/// Why there is no comparison.
#[derive(Clone, Copy, Debug, PartialEq, Eq)]
pub enum CompareEnd {
    /// In the plan at this place, counted from 1, the low and the high end of this measure, in units of its last
    /// printed digit, lie further apart than was asked. Of such values it is the first, plan by plan.
    TooWide(u32, Measure, u64, u64),
    /// There was no memory for the text.
    NoMemory,
}
