//! Studies: which of several plans is below another in a measure, for every solution of their equations.
#![tactic(auto)]

mod comparing;
mod document;
mod ending;
mod refusal;
mod rows;
mod separating;
mod slots;
mod solving;
mod study;
mod values;
mod verdict_list;
mod widths;

pub use comparing::comparison;
pub use ending::CompareEnd;
pub use refusal::StudyRefusal;
pub use separating::verdicts;
pub use solving::enclose_all;
pub use study::{
    LEAST_PLANS, MOST_COMPARED_MEASURES, MOST_PLANS, MOST_STUDY_BYTES, Study, read_study,
};
pub use verdict_list::{Verdict, VerdictList};
