ghost use Rattle.std.specs.Prelude.{◌≡◌, ◌<◌, ◌≤◌, false, None, Some, length, IfErr, OnOk};
ghost use Rattle.plan_compare.specs.declared.study.TheConstants.{MOST_PLANS};
ghost use Rattle.plan_compare.specs.Comparisons.{first_wide_of, is_wide_value, places_in, value_places};

use crate::values::value_at;
use crate::{CompareEnd, Study};
use hyper_model::{Enclosed, Enclosures, Found, Measure, Value};
use report_text::{Widths, is_too_wide};

/// Ends at the first value that is too wide, plan by plan.
pub(crate) fn check_widths(
    study: &Study,
    found: &[Enclosures],
    widths: Widths,
) -> Result<(), CompareEnd>
    requires { length found.now ≡ length study.now.plans }
    ensures narrow { OnOk result (first_wide_of widths found.now (value_places study.now) ≡ None) }
    ensures wide { IfErr result (λ end. first_wide_of widths found.now (value_places study.now) ≡ Some end) }
{
    for place in 0..study.plans() {
        check_plan(study, found, place, widths)?;
    }
    Ok(())
}

/// Ends at the first value of the plan at this place that is too wide.
fn check_plan(
    study: &Study,
    found: &[Enclosures],
    place: usize,
    widths: Widths,
) -> Result<(), CompareEnd>
    requires place { place < length found.now }
    requires few { length found.now ≤ MOST_PLANS }
    ensures narrow { OnOk result (first_wide_of widths found.now (places_in study.now.measures place) ≡ None) }
    ensures wide { IfErr result (λ end.
        first_wide_of widths found.now (places_in study.now.measures place) ≡ Some end) }
{
    for k in 0..study.measures() {
        let measure = study.measure(k);
        let value = value_at(found, measure, place);
        if is_wide(measure, value, widths) {
            return Err(CompareEnd::TooWide(place as u32 + 1, measure, value.lo, value.hi));
        }
    }
    Ok(())
}

fn is_wide(measure: Measure, value: Value, widths: Widths) -> bool
    requires { value.lo ≤ value.hi }
    ensures { result ≡ is_wide_value widths measure value }
{
    is_too_wide(
        Enclosed {
            measure,
            found: Found::Ends(value.lo, value.hi),
        },
        widths,
    )
}
