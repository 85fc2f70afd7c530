ghost use Rattle.std.specs.Prelude.{◌≡◌, ◌&&◌, ◌||◌, not, true, false, None, Some, IfErr, OnOk};
ghost use Rattle.hyper_model.specs.Enclosures.{IsOrderedEnclosed, IsOrderedFound};
ghost use Rattle.hyper_model.specs.Measures as measures;
ghost use Rattle.report_text.specs.Reports as spec;
ghost use Rattle.report_text.specs.TooWide as limits;
ghost use Rattle.report_text.specs.TooWide.{first_wide, is_wide, EndsAt};

use crate::{ReportEnd, Widths};
use hyper_model::{Enclosed, Enclosures, Found, Measure, Subject};

/// Ends at the first printed measure that is too wide.
pub(crate) fn check_widths(
    found: &Enclosures,
    widths: Widths,
    summary: bool,
) -> Result<(), ReportEnd>
    ensures narrow { OnOk result (first_wide widths summary found.now.items ≡ None) }
    ensures wide { IfErr result (λ end. EndsAt (first_wide widths summary found.now.items) end) }
{
    for place in 0..found.len() {
        check_width(found.get(place), widths, summary)?;
    }
    Ok(())
}

/// Ends at a printed measure that is too wide.
fn check_width(item: Enclosed, widths: Widths, summary: bool) -> Result<(), ReportEnd>
    requires { IsOrderedEnclosed item }
    ensures narrow { OnOk result (spec.is_printed summary item && is_wide widths item ≡ false) }
    ensures in_print { IfErr result (λ _. spec.is_printed summary item ≡ true) }
    ensures wide { IfErr result (λ _. is_wide widths item ≡ true) }
    ensures end { IfErr result (λ end. EndsAt (Some item) end) }
{
    match item.found {
        Found::Ends(lo, hi) if is_printed(item.measure, summary) && is_too_wide(item, widths) => {
            Err(ReportEnd::TooWide(item.measure, lo, hi))
        }
        _ => Ok(()),
    }
}

/// Whether the high end of the measure less its low end is more than the width asked of measures of its
/// kind.
pub fn is_too_wide(item: Enclosed, widths: Widths) -> bool
    requires { IsOrderedEnclosed item }
    ensures { result ≡ is_wide widths item }
{
    exceeds(width_of(widths, item.measure), item.found)
}

/// Whether the high end less the low end is more than the width, if one is asked.
pub fn exceeds(width: Option<u32>, found: Found) -> bool
    requires { IsOrderedFound found }
    ensures { result ≡ limits.exceeds width found }
{
    match (found, width) {
        (Found::Ends(lo, hi), Some(width)) => hi - lo > u64::from(width),
        _ => false,
    }
}

/// Whether the report or the summary has a row of the measure.
pub(crate) fn is_printed(measure: Measure, summary: bool) -> bool
    ensures { result ≡ (not summary || measures.is_of_region measure) }
{
    !summary || is_of_region(measure)
}

fn is_of_region(measure: Measure) -> bool
    ensures { result ≡ measures.is_of_region measure }
{
    matches!(measure.subject(), Subject::Region)
}

/// The width asked of the measure, if any.
pub fn width_of(widths: Widths, measure: Measure) -> Option<u32>
    ensures { result ≡ limits.width_of widths measure }
{
    if measure.is_time() {
        widths.time
    } else {
        widths.share
    }
}
