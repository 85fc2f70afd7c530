use thiserror::Error;

/// Why a text gives no records.
///
/// Records and the fields of a record are counted from 1.
#[derive(Clone, Copy, Debug, PartialEq, Eq, Error)]
pub enum TextRefusal {
    /// A field of this record is no UTF-8.
    #[error("record {0} has a field that is not UTF-8")]
    NotUtf8(u64),
    /// The text has this many bytes, which is more than [`MOST_TEXT_BYTES`](crate::MOST_TEXT_BYTES).
    #[error("the text has {0} bytes, more than 4194304")]
    TooLong(u64),
    /// The first field of this record names no kind of record.
    #[error("record {0} is of no known kind")]
    UnknownKind(u64),
    /// This record has more or fewer fields than its kind has.
    #[error("record {0} has a wrong number of fields")]
    FieldCount(u64),
    /// In this record, this field is no number in the range that is asked for.
    #[error("record {0} has no number in range in field {1}")]
    BadNumber(u64, u64),
    /// In this record, this field is no name, or none of the keywords that may stand there.
    #[error("record {0} has no name or known word in field {1}")]
    BadName(u64, u64),
    /// This record is the first of more than [`MOST_RECORDS`](crate::MOST_RECORDS).
    #[error("record {0} is beyond the 50000 records that a text may have")]
    TooManyRecords(u64),
    /// There was no memory for the records.
    #[error("out of memory")]
    NoMemory,
}
