ghost use Rattle.std.specs.Prelude.{◌≡◌, ◌≤◌, length};
ghost use Rattle.hyper_model.specs.Plans.{units};
ghost use Rattle.plan_text.specs.Steps.{Refuses};
ghost use Rattle.crew_stations.specs.Stations as stations;
ghost use Rattle.crew_stations.specs.declared.TheConstants.{MOST_CREWS};
ghost use Rattle.plan_reader.specs.FleetLimits.{limits_refusal};

use crate::FleetRefusal;
use crate::plan::check_stable;
use crew_stations::{Crews, MOST_CREWS, MOST_STATES};
use hyper_model::{MOST_RATE, PlanParts};

/// Refuses too many crews, then too many states, then too much service, and then calls that wait if they are not fewer
/// than all crews can serve.
pub(crate) fn check_limits(parts: &PlanParts, crews: &Crews) -> Result<(), FleetRefusal>
    requires { length crews.now ≡ units parts.now }
    ensures { Refuses result (limits_refusal (record { parts = parts.now; crews = crews.now })) }
{
    let number = count_crews(parts, crews);
    if number > MOST_CREWS as u64 {
        return Err(FleetRefusal::TooManyCrews(number));
    }
    let states = count_states(parts, crews);
    if states > MOST_STATES as u64 {
        return Err(FleetRefusal::TooManyStates(states));
    }
    let service = fleet_service(parts, crews);
    if service > u64::from(MOST_RATE) {
        return Err(FleetRefusal::CrewService(service));
    }
    check_stable(parts.line, parts.atoms.calls(), service)?;
    Ok(())
}

/// How many crews there are in all.
fn count_crews(parts: &PlanParts, crews: &Crews) -> u64
    requires { length crews.now ≡ units parts.now }
    ensures { result ≡ stations.all_crews (record { parts = parts.now; crews = crews.now }) }
{
    let mut number = 0;
    for k in 0..parts.units.len() {
        number += u64::from(*crews.get(k));
    }
    number
}

/// How many states there are: the product, over the stations, of their crews and one.
fn count_states(parts: &PlanParts, crews: &Crews) -> u64
    requires one_each { length crews.now ≡ units parts.now }
    requires few { stations.all_crews (record { parts = parts.now; crews = crews.now }) ≤ MOST_CREWS }
    ensures { result ≡ stations.states (record { parts = parts.now; crews = crews.now }) }
{
    let mut states = 1;
    for k in 0..parts.units.len() {
        states *= u64::from(*crews.get(k)) + 1;
    }
    states
}

/// The rate at which all crews together serve.
fn fleet_service(parts: &PlanParts, crews: &Crews) -> u64
    requires one_each { length crews.now ≡ units parts.now }
    requires few { stations.all_crews (record { parts = parts.now; crews = crews.now }) ≤ MOST_CREWS }
    ensures { result ≡ stations.fleet_service (record { parts = parts.now; crews = crews.now }) }
{
    let mut service = 0;
    for k in 0..parts.units.len() {
        service += u64::from(*crews.get(k)) * u64::from(parts.units.get(k).rate);
    }
    service
}
