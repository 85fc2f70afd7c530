ghost use Rattle.std.specs.Prelude.{◌≡◌, ◌++◌, ◌<◌, All, IfOk, length, map};
ghost use Rattle.std.specs.List.{range_with_len};
ghost use Rattle.hyper_model.specs.Enclosures.{IsOrderedEnclosed};
ghost use Rattle.hyper_model.specs.Plans.{units};
ghost use Rattle.busy_words.specs.WeightParts.{IsOrderOf, places};
ghost use Rattle.workload_measures.specs.LoadEnds.{line_measures};
ghost use Rattle.dispatch_fractions.specs.PartLists.{AreSizedFor};
ghost use Rattle.travel_measures.specs.TravelEnds.{travel_times_of};
ghost use Rattle.crew_stations.specs.Stations.{stations};
ghost use Rattle.fleet_measures.specs.FleetEnclosures.{AreFleetMeasures, answers_from, crew_workload_of, full_of, of_station as of_station_in};
ghost use Rattle.fleet_measures.specs.FleetMeasures.{IsOrderedFleetEnds};
ghost use Rattle.fleet_measures.specs.Pooled.{state_places};

use crate::gather::gathered_weights;
use crate::pool::pooled;
use crate::workload::crew_workload;
use crate::{FleetEnds, FleetMeasure};
use busy_words::{Order, busy_part};
use crew_stations::Fleet;
use dispatch_fractions::{Parts, fractions, interdistrict};
use fixed_interval::Weights;
use hyper_model::{Enclosed, Found, Line, Plan};
use station_flows::FleetWeights;
use std::alloc::{AllocError, Global};
use travel_measures::{atom_times, district_times, region_time, unit_times};
use workload_measures::{loss_or_delay, mean_wait, queue_length};

/// All measures of a fleet, in the order in which a report prints them, from the weights of its states: one for each state
/// in the order of their numbers, and if calls wait one more for all states in which one does.
pub(crate) fn fleet_measures(
    alloc: Global,
    fleet: &Fleet,
    weights: &FleetWeights,
) -> Result<Vec<FleetEnds>, AllocError>
    requires { length weights.now.items ≡ state_places fleet.now }
    ensures exact { IfOk result (λ found. AreFleetMeasures fleet.now weights.now.items found.items) }
    ensures ordered { IfOk result (λ found. All IsOrderedFleetEnds found.items) }
{
    let plan = pooled(alloc, fleet)?;
    let order = Order::of(alloc, fleet.stations() as u8)?;
    let gathered = gathered_weights(alloc, fleet, &order, weights)?;
    let parts = Parts::of(alloc, &plan, &order, &gathered)?;
    let mut found = Vec::new(alloc);
    push_line(&mut found, &plan, &gathered)?;
    push_workloads(&mut found, fleet, weights)?;
    push_full(&mut found, &plan, &order, &gathered)?;
    push_answers(&mut found, alloc, &plan, &parts)?;
    Ok(found)
}

/// What is found of the calls that come while no crew is free.
fn push_line(found: &mut Vec<FleetEnds>, plan: &Plan, gathered: &Weights) -> Result<(), AllocError>
    requires one_each { length gathered.now.items ≡ places plan.now }
    requires ordered { All IsOrderedFleetEnds found.old.items }
    ensures items { IfOk result (λ _. found.new.items
        ≡ found.old.items ++ map of_station_in (line_measures plan.now.line plan.now gathered.now.items)) }
    ensures ordered { IfOk result (λ _. All IsOrderedFleetEnds found.new.items) }
{
    found.push(of_station(loss_or_delay(plan, gathered)))?;
    if plan.line() == Line::Infinite {
        found.push(of_station(queue_length(plan, gathered)))?;
        found.push(of_station(mean_wait(plan, gathered)))?;
    }
    Ok(())
}

/// The workload of each station's crews.
fn push_workloads(
    found: &mut Vec<FleetEnds>,
    fleet: &Fleet,
    weights: &FleetWeights,
) -> Result<(), AllocError>
    requires one_each { length weights.now.items ≡ state_places fleet.now }
    requires ordered { All IsOrderedFleetEnds found.old.items }
    ensures items { IfOk result (λ _. found.new.items
        ≡ found.old.items ++ map (crew_workload_of fleet.now weights.now.items) (range_with_len 0 (stations fleet.now))) }
    ensures ordered { IfOk result (λ _. All IsOrderedFleetEnds found.new.items) }
{
    for k in 0..fleet.stations() {
        found.push(crew_workload(fleet, weights, k as u8))?;
    }
    Ok(())
}

/// Of each station the share of time in which none of its crews is free: its unit's workload in the plan of the stations.
fn push_full(
    found: &mut Vec<FleetEnds>,
    plan: &Plan,
    order: &Order,
    gathered: &Weights,
) -> Result<(), AllocError>
    requires order { IsOrderOf plan.now order.now }
    requires one_each { length gathered.now.items ≡ places plan.now }
    requires ordered { All IsOrderedFleetEnds found.old.items }
    ensures items { IfOk result (λ _. found.new.items
        ≡ found.old.items ++ map (full_of plan.now order.now gathered.now.items) (range_with_len 0 (units plan.now))) }
    ensures ordered { IfOk result (λ _. All IsOrderedFleetEnds found.new.items) }
{
    for k in 0..plan.units() {
        found.push(full(plan, order, gathered, k as u8))?;
    }
    Ok(())
}

fn full(plan: &Plan, order: &Order, gathered: &Weights, k: u8) -> FleetEnds
    requires order { IsOrderOf plan.now order.now }
    requires one_each { length gathered.now.items ≡ places plan.now }
    requires station { k < units plan.now }
    ensures exact { result ≡ full_of plan.now order.now gathered.now.items k }
    ensures ordered { IsOrderedFleetEnds result }
{
    let (lo, hi) = busy_part(plan, order, gathered, k).outward(1_000_000);
    FleetEnds {
        measure: FleetMeasure::Full(k),
        found: Found::Ends(lo, hi),
    }
}

/// Dispatches, those that lead out of a district, and travel times.
fn push_answers(
    found: &mut Vec<FleetEnds>,
    alloc: Global,
    plan: &Plan,
    parts: &Parts,
) -> Result<(), AllocError>
    requires sized { AreSizedFor plan.now parts.now }
    requires ordered { All IsOrderedFleetEnds found.old.items }
    ensures items { IfOk result (λ _. found.new.items ≡ found.old.items ++ answers_from plan.now parts.now) }
    ensures ordered { IfOk result (λ _. All IsOrderedFleetEnds found.new.items) }
{
    push_all(found, &fractions(alloc, plan, parts)?)?;
    push_all(found, &interdistrict(alloc, plan, parts)?)?;
    push_times(found, alloc, plan, parts)?;
    Ok(())
}

/// Travel times: of the region, of atoms, of stations, and of their districts.
fn push_times(
    found: &mut Vec<FleetEnds>,
    alloc: Global,
    plan: &Plan,
    parts: &Parts,
) -> Result<(), AllocError>
    requires sized { AreSizedFor plan.now parts.now }
    requires ordered { All IsOrderedFleetEnds found.old.items }
    ensures items { IfOk result (λ _. found.new.items ≡ found.old.items ++ map of_station_in (travel_times_of plan.now parts.now)) }
    ensures ordered { IfOk result (λ _. All IsOrderedFleetEnds found.new.items) }
{
    found.push(of_station(region_time(plan, parts)))?;
    push_all(found, &atom_times(alloc, plan, parts)?)?;
    push_all(found, &unit_times(alloc, plan, parts)?)?;
    push_all(found, &district_times(alloc, plan, parts)?)?;
    Ok(())
}

fn push_all(found: &mut Vec<FleetEnds>, items: &[Enclosed]) -> Result<(), AllocError>
    requires items_ordered { All IsOrderedEnclosed items.now }
    requires ordered { All IsOrderedFleetEnds found.old.items }
    ensures items { IfOk result (λ _. found.new.items ≡ found.old.items ++ map of_station_in items.now) }
    ensures ordered { IfOk result (λ _. All IsOrderedFleetEnds found.new.items) }
{
    for item in items {
        found.push(of_station(*item))?;
    }
    Ok(())
}

/// A measure of a unit that stands for a station.
fn of_station(item: Enclosed) -> FleetEnds
    ensures { result ≡ of_station_in item }
{
    FleetEnds {
        measure: FleetMeasure::Of(item.measure),
        found: item.found,
    }
}
