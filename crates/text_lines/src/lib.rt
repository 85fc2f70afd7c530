//! What texts are made of: whole numbers, read and written, decimal fractions, fields and rows of two of them,
//! and the codes by which refusals are reported.
#![tactic(auto)]

mod fields;
mod fractions;
mod numbers;
mod refusal_code;

pub use fields::{push_count, push_decimal, push_number_field, push_text_field};
pub use fractions::{number_text, push_ends, push_number};
pub use numbers::number_of;
pub use refusal_code::RefusalCode;
