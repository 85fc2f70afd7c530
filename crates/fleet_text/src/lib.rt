//! The text of a fleet's report: its stations and crews, its preference lists, and a row for each of its measures.
#![tactic(auto)]

mod crew_rows;
mod descriptions;
mod ending;
mod head;
mod measure_rows;
mod reporting;
mod width;

pub use descriptions::fleet_scale;
pub use ending::FleetReportEnd;
pub use measure_rows::fleet_label;
pub use reporting::fleet_report;
