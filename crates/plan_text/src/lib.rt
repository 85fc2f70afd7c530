//! The text of a plan or of a fleet as rows of fields and as typed records.
#![tactic(auto)]

mod cleaning;
mod field;
mod kind;
mod reading;
mod record;
mod record_list;
mod refusal;
mod row_list;

pub use field::{line_at, name_at, number_at, rule_at, text_at};
pub use kind::{AddedKind, is_skipped};
pub use reading::read_row;
pub use record::Record;
pub use record_list::{fleet_records, law_first_refusal, records};
pub use refusal::TextRefusal;
pub use row_list::{Row, RowList, row_reader, rows};

/// The most bytes that a text has.
pub const MOST_TEXT_BYTES: usize = 4_194_304;

/// The most records that a text has, those that are passed over included.
pub const MOST_RECORDS: u32 = 50_000;
