ghost use Rattle.std.specs.Prelude.{◌≡◌, ◌++◌, IfOk};
ghost use Rattle.fleet_measures.specs.FleetMeasures.{IsInFleet};
ghost use Rattle.fleet_text.specs.FleetLabels.{fleet_label_bytes};
ghost use Rattle.fleet_text.specs.FleetReports.{fleet_row};

use crate::descriptions::{fleet_scale, subject, word};
use crew_stations::Fleet;
use fleet_measures::{FleetEnds, FleetMeasure};
use report_text::{push_found, push_label_of};
use std::alloc::{AllocError, Global};

/// The fields of a measure's row before its ends: its word, and the names of its station and atom, as in
/// `travel-station,A`.
pub fn fleet_label(
    alloc: Global,
    fleet: &Fleet,
    measure: FleetMeasure,
) -> Result<Vec<u8>, AllocError>
    requires { IsInFleet fleet.now measure }
    ensures { IfOk result (λ text. text.items ≡ fleet_label_bytes fleet.now measure) }
{
    let mut text = Vec::new(alloc);
    push_fleet_label(&mut text, fleet, measure)?;
    Ok(text)
}

fn push_fleet_label(
    text: &mut Vec<u8>,
    fleet: &Fleet,
    measure: FleetMeasure,
) -> Result<(), AllocError>
    requires { IsInFleet fleet.now measure }
    ensures { IfOk result (λ _. text.new.items ≡ text.old.items ++ fleet_label_bytes fleet.now measure) }
{
    push_label_of(text, fleet.parts(), word(measure), subject(measure))
}

/// Puts the row of a measure after the text: its label, and its low and high end, or `none`.
pub(crate) fn push_fleet_row(
    text: &mut Vec<u8>,
    fleet: &Fleet,
    item: FleetEnds,
) -> Result<(), AllocError>
    requires { IsInFleet fleet.now item.measure }
    ensures { IfOk result (λ _. text.new.items ≡ text.old.items ++ fleet_row fleet.now item) }
{
    push_fleet_label(text, fleet, item.measure)?;
    text.push(b',')?;
    push_found(text, item.found, fleet_scale(item.measure))?;
    text.push(b'\n')?;
    Ok(())
}
