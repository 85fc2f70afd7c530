ghost use Rattle.std.specs.Prelude.{◌≡◌, ◌++◌, IfOk};
ghost use Rattle.crew_stations.specs.Stations.{all_crews};
ghost use Rattle.fleet_text.specs.FleetHeads.{fleet_head_bytes, rate_rows, size_rows};

use crew_stations::{Fleet, law_fleet};
use report_text::push_line;
use std::alloc::AllocError;
use text_lines::push_count;

/// Puts the first rows of a fleet's report after the text: the version of the text's form, what becomes
/// of a call while all crews are busy, the period in seconds, the rates of all calls and of the service
/// of all crews per period, and how many stations, crews and states there are.
///
/// If memory ends, a part of them stands there; so it is with all that is put after a text.
pub(crate) fn push_fleet_head(text: &mut Vec<u8>, fleet: &Fleet) -> Result<(), AllocError>
    ensures { IfOk result (λ _. text.new.items ≡ text.old.items ++ fleet_head_bytes fleet.now) }
{
    push_count(text, b"fleet", 1)?;
    push_line(text, fleet.parts().line)?;
    push_rates(text, fleet)?;
    push_sizes(text, fleet)
}

fn push_rates(text: &mut Vec<u8>, fleet: &Fleet) -> Result<(), AllocError>
    ensures { IfOk result (λ _. text.new.items ≡ text.old.items ++ rate_rows fleet.now) }
{
    push_count(text, b"period", u64::from(fleet.parts().period))?;
    push_count(text, b"calls", u64::from(fleet.calls()))?;
    push_count(text, b"service", u64::from(fleet.service()))
}

fn push_sizes(text: &mut Vec<u8>, fleet: &Fleet) -> Result<(), AllocError>
    ensures { IfOk result (λ _. text.new.items ≡ text.old.items ++ size_rows fleet.now) }
{
    push_count(text, b"stations", fleet.stations() as u64)?;
    push_count(text, b"crews", u64::from(count_crews(fleet)))?;
    push_count(text, b"states", fleet.states() as u64)
}

/// How many crews there are in all, 1 to 200.
fn count_crews(fleet: &Fleet) -> u32
    ensures { result ≡ all_crews fleet.now }
{
    law_fleet(fleet);
    let mut number = 0;
    for k in 0..fleet.stations() {
        number += fleet.crews(k);
    }
    number
}
