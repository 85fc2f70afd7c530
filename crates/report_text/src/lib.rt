//! The text of a report: a plan's size and preference lists, and a row for each of its measures.
#![tactic(auto)]

mod ending;
mod head;
mod labels;
mod measure_row;
mod preference_rows;
mod reporting;
mod width;

pub use ending::{ReportEnd, Widths};
pub use head::{push_head, push_line};
pub use labels::{label, push_label, push_label_of};
pub use measure_row::{push_found, push_measure};
pub use preference_rows::push_lists;
pub use reporting::report;
pub use text_lines::number_text;
pub use width::{exceeds, is_too_wide, width_of};
