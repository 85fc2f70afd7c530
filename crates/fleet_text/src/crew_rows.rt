ghost use Rattle.std.specs.Prelude.{◌≡◌, ◌<◌, ◌++◌, if◌then◌else◌, [], IfOk};
ghost use Rattle.crew_stations.specs.Stations.{stations};
ghost use Rattle.report_text.specs.Lists.{all_list_rows};
ghost use Rattle.fleet_text.specs.CrewRows.{crew_row, crew_rows};

use crew_stations::{Fleet, law_fleet};
use hyper_model::Subject;
use report_text::{push_label_of, push_lists};
use std::alloc::AllocError;
use text_lines::push_number_field;

/// Puts the rows of the stations' crews and of the preference lists, which a summary does not have.
pub(crate) fn push_stations(
    text: &mut Vec<u8>,
    fleet: &Fleet,
    summary: bool,
) -> Result<(), AllocError>
    ensures { IfOk result (λ _. text.new.items ≡ text.old.items
        ++ (if summary then [] else crew_rows fleet.now ++ all_list_rows fleet.now.parts)) }
{
    if summary {
        return Ok(());
    }
    law_fleet(fleet);
    push_crews(text, fleet)?;
    push_lists(text, fleet.parts())
}

/// Puts a row for each station: its name, and how many crews it has.
fn push_crews(text: &mut Vec<u8>, fleet: &Fleet) -> Result<(), AllocError>
    ensures { IfOk result (λ _. text.new.items ≡ text.old.items ++ crew_rows fleet.now) }
{
    for k in 0..fleet.stations() {
        push_crew_row(text, fleet, k as u8)?;
    }
    Ok(())
}

fn push_crew_row(text: &mut Vec<u8>, fleet: &Fleet, k: u8) -> Result<(), AllocError>
    requires { k < stations fleet.now }
    ensures { IfOk result (λ _. text.new.items ≡ text.old.items ++ crew_row fleet.now k) }
{
    push_label_of(text, fleet.parts(), "crews", Subject::Unit(k))?;
    push_number_field(text, u64::from(fleet.crews(usize::from(k))))?;
    text.push(b'\n')?;
    Ok(())
}
