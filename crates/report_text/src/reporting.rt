ghost use Rattle.std.specs.Prelude.{◌≡◌, ◌++◌, if◌then◌else◌, [], All, None, IfOk, IfErr, OnOk};
ghost use Rattle.std.specs.List.{flat_map};
ghost use Rattle.hyper_model.specs.Measures.{IsInRange};
ghost use Rattle.report_text.specs.Lists.{all_list_rows};
ghost use Rattle.report_text.specs.Rows.{measure_row};
ghost use Rattle.report_text.specs.Reports as spec;
ghost use Rattle.report_text.specs.Reports.{printed_items, report_bytes};
ghost use Rattle.report_text.specs.TooWide.{first_wide, EndsAt};

use crate::preference_rows::push_lists;
use crate::width::{check_widths, is_printed};
use crate::{ReportEnd, Widths, push_head, push_measure};
use hyper_model::{Enclosed, Enclosures, Plan};
use std::alloc::{AllocError, Global};

/// The report of a plan's measures, in the order of the list, or its summary, which has the head and the
/// measures of the whole region.
///
/// There is none if the ends of a printed measure lie further apart than was asked: the first such
/// measure is reported.
pub fn report(
    alloc: Global,
    plan: &Plan,
    found: &Enclosures,
    widths: Widths,
    summary: bool,
) -> Result<Vec<u8>, ReportEnd>
    requires { All (λ e. IsInRange plan.now e.measure) found.now.items }
    ensures text { IfOk result (λ text.
        text.items ≡ report_bytes plan.now found.now.items summary) }
    ensures narrow { OnOk result (first_wide widths summary found.now.items ≡ None) }
    ensures end { IfErr result (λ end. EndsAt (first_wide widths summary found.now.items) end) }
{
    check_widths(found, widths, summary)?;
    match report_text(alloc, plan, found, summary) {
        Ok(text) => Ok(text),
        Err(_) => Err(ReportEnd::NoMemory),
    }
}

fn report_text(
    alloc: Global,
    plan: &Plan,
    found: &Enclosures,
    summary: bool,
) -> Result<Vec<u8>, AllocError>
    requires { All (λ e. IsInRange plan.now e.measure) found.now.items }
    ensures { IfOk result (λ text. text.items ≡ report_bytes plan.now found.now.items summary) }
{
    let mut text = Vec::new(alloc);
    push_head(&mut text, plan)?;
    push_preferences(&mut text, plan, summary)?;
    push_measures(&mut text, plan, found, summary)?;
    text.extend_from_slice(b"end\n")?;
    Ok(text)
}

/// Puts the rows of the preference lists, which a summary does not have.
fn push_preferences(text: &mut Vec<u8>, plan: &Plan, summary: bool) -> Result<(), AllocError>
    ensures { IfOk result (λ _.
        text.new.items ≡ text.old.items ++ (if summary then [] else all_list_rows plan.now)) }
{
    if summary {
        Ok(())
    } else {
        push_lists(text, plan.parts())
    }
}

/// Puts the rows of the measures, of which a summary has only those of the region.
fn push_measures(
    text: &mut Vec<u8>,
    plan: &Plan,
    found: &Enclosures,
    summary: bool,
) -> Result<(), AllocError>
    requires { All (λ e. IsInRange plan.now e.measure) found.now.items }
    ensures { IfOk result (λ _. text.new.items
        ≡ text.old.items ++ flat_map (measure_row plan.now) (printed_items summary found.now.items)) }
{
    for place in 0..found.len() {
        push_printed(text, plan, found.get(place), summary)?;
    }
    Ok(())
}

fn push_printed(
    text: &mut Vec<u8>,
    plan: &Plan,
    item: Enclosed,
    summary: bool,
) -> Result<(), AllocError>
    requires { IsInRange plan.now item.measure }
    ensures { IfOk result (λ _. text.new.items
        ≡ text.old.items
        ++ (if spec.is_printed summary item then measure_row plan.now item else [])) }
{
    if is_printed(item.measure, summary) {
        push_measure(text, plan, item)
    } else {
        Ok(())
    }
}
