ghost use Rattle.std.specs.Prelude.{◌≡◌, IfOk};
ghost use Rattle.std.specs.List.{list_any};
ghost use Rattle.plan_text.specs.Steps.{Refuses};
ghost use Rattle.atom_table.specs.Entries.{unit_names};
ghost use Rattle.atom_table.specs.Names.{is_among};
ghost use Rattle.plan_reader.specs.Crews as spec;
ghost use Rattle.plan_reader.specs.Crews.{crews_in, crews_records_refusal, crews_refusal};

use crate::{FleetRefusal, PlanRefusal};
use crew_stations::Crews;
use hyper_model::{Name, Units};
use plan_text::Record;
use std::alloc::{AllocError, Global};

/// How many crews a station has without a record.
const SINGLE_CREW: u32 = 1;

/// Refuses the first record of crews whose station is unknown, or whose crews an earlier record gives.
pub(crate) fn check_crews(stations: &Units, records: &[Record]) -> Result<(), FleetRefusal>
    ensures { Refuses result (crews_records_refusal (unit_names stations.now) records.now) }
{
    for place in 0..records.len() {
        check_record(stations, &records[..place], &records[place])?;
    }
    Ok(())
}

/// The same of one record after others.
fn check_record(stations: &Units, before: &[Record], item: &Record) -> Result<(), FleetRefusal>
    ensures { Refuses result (crews_refusal (unit_names stations.now) before.now item.now) }
{
    let Record::Crews { at, unit, .. } = item else {
        return Ok(())
    };
    if !has_station(stations, unit) {
        let unknown = PlanRefusal::UnknownName(u64::from(*at), 2);
        return Err(FleetRefusal::Plan(unknown));
    }
    if are_given(before, unit) {
        return Err(FleetRefusal::CrewsTwice(u64::from(*at)));
    }
    Ok(())
}

fn has_station(stations: &Units, name: &Name) -> bool
    ensures { result ≡ is_among (unit_names stations.now) name.now }
{
    for k in 0..stations.len() {
        if *name == stations.get(k).name {
            return true;
        }
    }
    false
}

/// Whether one of the records gives the crews of the station with this name.
fn are_given(records: &[Record], name: &Name) -> bool
    ensures { result ≡ list_any (spec.gives_crews name.now) records.now }
{
    for item in records {
        if count_for(item, name).is_some() {
            return true;
        }
    }
    false
}

/// The crews that a record gives the station with this name.
fn count_for(item: &Record, name: &Name) -> Option<u32>
    ensures { result ≡ spec.count_for name.now item.now }
{
    match item {
        Record::Crews { unit, count, .. } if *unit == *name => Some(*count),
        _ => None,
    }
}

/// How many crews each station has.
pub(crate) fn crews_of(
    alloc: Global,
    stations: &Units,
    records: &[Record],
) -> Result<Crews, AllocError>
    ensures { IfOk result (λ crews. crews ≡ crews_in (unit_names stations.now) records.now) }
{
    let mut crews = Crews::of(alloc)?;
    for k in 0..stations.len() {
        crews.push(crews_given(records, &stations.get(k).name));
    }
    Ok(crews)
}

/// How many crews the station with this name has: one if no record gives them.
fn crews_given(records: &[Record], name: &Name) -> u32
    ensures { result ≡ spec.crews_given records.now name.now }
{
    for item in records {
        if let Some(count) = count_for(item, name) {
            return count;
        }
    }
    SINGLE_CREW
}
