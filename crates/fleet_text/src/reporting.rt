ghost use Rattle.std.specs.Prelude.{◌≡◌, ◌++◌, if◌then◌else◌, [], All, None, IfOk, IfErr, OnOk};
ghost use Rattle.std.specs.List.{flat_map};
ghost use Rattle.hyper_model.specs.Enclosures.{IsOrderedFound};
ghost use Rattle.fleet_measures.specs.FleetMeasures.{AreInFleet, IsInFleet};
ghost use Rattle.fleet_text.specs.FleetReports as spec;
ghost use Rattle.fleet_text.specs.FleetReports.{fleet_bytes, fleet_row, printed_ends};
ghost use Rattle.fleet_text.specs.FleetWidths.{first_wide_ends, FleetEndsAt};

use crate::FleetReportEnd;
use crate::crew_rows::push_stations;
use crate::head::push_fleet_head;
use crate::measure_rows::push_fleet_row;
use crate::width::{check_widths, is_printed};
use crew_stations::Fleet;
use fleet_measures::FleetEnds;
use report_text::Widths;
use std::alloc::{AllocError, Global};

/// The report of a fleet's measures, in the order of the list, or its summary, which has the head and the
/// measures of the whole region.
///
/// There is none if the ends of a printed measure lie further apart than was asked: the first such
/// measure is reported.
pub fn fleet_report(
    alloc: Global,
    fleet: &Fleet,
    found: &[FleetEnds],
    summary: bool,
    widths: Widths,
) -> Result<Vec<u8>, FleetReportEnd>
    requires in_fleet { AreInFleet fleet.now found.now }
    requires ordered { All (λ e. IsOrderedFound e.found) found.now }
    ensures text { IfOk result (λ text. text.items ≡ fleet_bytes fleet.now found.now summary) }
    ensures narrow { OnOk result (first_wide_ends widths summary found.now ≡ None) }
    ensures end { IfErr result (λ end. FleetEndsAt (first_wide_ends widths summary found.now) end) }
{
    check_widths(found, widths, summary)?;
    match report_text(alloc, fleet, found, summary) {
        Ok(text) => Ok(text),
        Err(_) => Err(FleetReportEnd::NoMemory),
    }
}

fn report_text(
    alloc: Global,
    fleet: &Fleet,
    found: &[FleetEnds],
    summary: bool,
) -> Result<Vec<u8>, AllocError>
    requires { AreInFleet fleet.now found.now }
    ensures { IfOk result (λ text. text.items ≡ fleet_bytes fleet.now found.now summary) }
{
    let mut text = Vec::new(alloc);
    push_fleet_head(&mut text, fleet)?;
    push_stations(&mut text, fleet, summary)?;
    push_measures(&mut text, fleet, found, summary)?;
    text.extend_from_slice(b"end\n")?;
    Ok(text)
}

/// Puts the rows of the measures, of which a summary has only those of the region.
fn push_measures(
    text: &mut Vec<u8>,
    fleet: &Fleet,
    found: &[FleetEnds],
    summary: bool,
) -> Result<(), AllocError>
    requires { AreInFleet fleet.now found.now }
    ensures { IfOk result (λ _. text.new.items
        ≡ text.old.items ++ flat_map (fleet_row fleet.now) (printed_ends summary found.now)) }
{
    for item in found {
        push_printed(text, fleet, *item, summary)?;
    }
    Ok(())
}

fn push_printed(
    text: &mut Vec<u8>,
    fleet: &Fleet,
    item: FleetEnds,
    summary: bool,
) -> Result<(), AllocError>
    requires { IsInFleet fleet.now item.measure }
    ensures { IfOk result (λ _. text.new.items
        ≡ text.old.items ++ (if spec.is_printed summary item then fleet_row fleet.now item else [])) }
{
    if is_printed(item.measure, summary) {
        push_fleet_row(text, fleet, item)
    } else {
        Ok(())
    }
}
