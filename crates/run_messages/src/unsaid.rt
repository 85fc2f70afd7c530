use std::alloc::AllocError;

/// Why a message says no more than the outcome does.
#[derive(Clone, Copy, Debug, PartialEq, Eq)]
pub(crate) enum Unsaid {
    /// What the message would speak of does not stand in the texts that were kept.
    Unknown,
    /// There was no memory for it.
    NoMemory,
}

impl From<AllocError> for Unsaid {
    fn from(_: AllocError) -> Unsaid {
        Unsaid::NoMemory
    }
}
