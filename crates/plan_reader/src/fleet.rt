ghost use Rattle.std.specs.Prelude.{IfOk};
ghost use Rattle.crew_stations.specs.Fleets.{IsFleet};
ghost use Rattle.plan_text.specs.Steps.{Gives};
ghost use Rattle.plan_reader.specs.FleetOf.{fleet_of};
ghost use Rattle.plan_reader.specs.declared.fleet_refusal.FleetRefusal.{FleetRefusal};

use crate::FleetRefusal;
use crate::crews::{check_crews, crews_of};
use crate::fleet_limits::check_limits;
use crate::plan::read_parts;
use crew_stations::Fleet;
use plan_text::{AddedKind, fleet_records};
use std::alloc::Global;

/// The fleet of a text.
///
/// The text is read in steps, and the refusal is that of the first step that refuses: the steps of a plan but the last,
/// over records in which `crews` is a kind after `version,3`; then the records of crews; then, of all crews together, how
/// many they are, their states, their service, and, if calls wait, that calls are fewer than service. The fleet is accepted.
#[tactic(auto, unfolding(crate::specs::FleetOf::fleet_of))]
pub fn read_fleet(alloc: Global, bytes: &[u8]) -> Result<Fleet, FleetRefusal>
    ensures fleet { Gives FleetRefusal.NoMemory (λ fleet. fleet) result (fleet_of bytes.now) }
    ensures accepted { IfOk result (λ fleet. IsFleet fleet) }
{
    let records = fleet_records(alloc, bytes)?;
    let parts = read_parts(alloc, AddedKind::Crews, &records)?;
    check_crews(&parts.units, &records)?;
    let crews = crews_of(alloc, &parts.units, &records)?;
    check_limits(&parts, &crews)?;
    Ok(Fleet::of_accepted(parts, crews))
}
