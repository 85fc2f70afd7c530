ghost use Rattle.std.specs.Prelude.{◌≡◌, ◌&&◌, ◌||◌, not, true, false, All, None, Some, IfErr, OnOk};
ghost use Rattle.hyper_model.specs.Enclosures.{IsOrderedFound};
ghost use Rattle.hyper_model.specs.Measures.{is_region};
ghost use Rattle.fleet_text.specs.FleetLabels.{fleet_subject};
ghost use Rattle.fleet_text.specs.FleetReports as spec;
ghost use Rattle.fleet_text.specs.FleetWidths as limits;
ghost use Rattle.fleet_text.specs.FleetWidths.{first_wide_ends, is_wide_in, FleetEndsAt};

use crate::FleetReportEnd;
use crate::descriptions::subject;
use fleet_measures::{FleetEnds, FleetMeasure};
use hyper_model::{Found, Subject};
use report_text::{Widths, exceeds, width_of};

/// Ends at the first printed measure that is too wide.
pub(crate) fn check_widths(
    found: &[FleetEnds],
    widths: Widths,
    summary: bool,
) -> Result<(), FleetReportEnd>
    requires { All (λ e. IsOrderedFound e.found) found.now }
    ensures narrow { OnOk result (first_wide_ends widths summary found.now ≡ None) }
    ensures wide { IfErr result (λ end. FleetEndsAt (first_wide_ends widths summary found.now) end) }
{
    for item in found {
        check_width(*item, widths, summary)?;
    }
    Ok(())
}

/// Ends at a printed measure that is too wide.
fn check_width(item: FleetEnds, widths: Widths, summary: bool) -> Result<(), FleetReportEnd>
    requires { IsOrderedFound item.found }
    ensures narrow { OnOk result (spec.is_printed summary item && is_wide_in widths item ≡ false) }
    ensures in_print { IfErr result (λ _. spec.is_printed summary item ≡ true) }
    ensures wide { IfErr result (λ _. is_wide_in widths item ≡ true) }
    ensures end { IfErr result (λ end. FleetEndsAt (Some item) end) }
{
    match item.found {
        Found::Ends(lo, hi) if is_printed(item.measure, summary) && is_too_wide(item, widths) => {
            Err(FleetReportEnd::TooWide(item.measure, lo, hi))
        }
        _ => Ok(()),
    }
}

/// Whether the high end of the measure less its low end is more than the width asked of measures of its
/// kind.
fn is_too_wide(item: FleetEnds, widths: Widths) -> bool
    requires { IsOrderedFound item.found }
    ensures { result ≡ is_wide_in widths item }
{
    exceeds(fleet_width(widths, item.measure), item.found)
}

/// The width asked of the measure, if any.
fn fleet_width(widths: Widths, measure: FleetMeasure) -> Option<u32>
    ensures { result ≡ limits.fleet_width widths measure }
{
    match measure {
        FleetMeasure::Of(measure) => width_of(widths, measure),
        FleetMeasure::Full(_) => widths.share,
    }
}

/// Whether the report or the summary has a row of the measure.
pub(crate) fn is_printed(measure: FleetMeasure, summary: bool) -> bool
    ensures { result ≡ (not summary || is_region (fleet_subject measure)) }
{
    !summary || is_of_region(measure)
}

fn is_of_region(measure: FleetMeasure) -> bool
    ensures { result ≡ is_region (fleet_subject measure) }
{
    matches!(subject(measure), Subject::Region)
}
