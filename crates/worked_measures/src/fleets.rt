use crate::certified::overlaps;
use fleet_measures::{FleetEnds, FleetMeasure, enclose_fleet};
use hyper_model::{Enclosed, Enclosures, Measure};
use plan_reader::{read_fleet, read_plan};
use plan_solver::enclose;
use station_flows::StationSolver;
use std::alloc::Global;
use std::process::Abort;
use std::test::Fail;
use worked_plans::{
    ALL_BUT_FULL, FIVE_CREWS, FIVE_CREWS_APART, FIVE_CREWS_APART_WITH_A_QUEUE,
    FIVE_CREWS_WITH_A_QUEUE, HALF_LOAD, LITTLE_MORE, ONE_LIST, SEVEN_CREWS, SEVEN_OVERLOADED,
    SEVEN_SWAMPED, TEN_LOADS, THIRD_LOAD, THIRD_LOAD_WITH_A_QUEUE, THREE_UNITS, TWO_UNITS,
    TWO_UNITS_WITH_A_QUEUE, WITHOUT_CALLS,
};

/// The states of each worked fleet have a certificate.
#[test]
fn states_have_a_certificate(rt: HostRuntime) -> Result<(), Fail> {
    for text in FLEETS {
        let fleet = read_fleet(rt.alloc(), text.as_bytes())?;
        let weighed = StationSolver::reserved(rt.alloc(), &fleet)?.weigh();
        assert!(rt; weighed.is_certified, "{text}");
    }
    Ok(())
}

/// The worked fleets, and plans without groups, which are fleets of one crew at each station.
const FLEETS: [&str; 16] = [
    FIVE_CREWS,
    FIVE_CREWS_WITH_A_QUEUE,
    SEVEN_CREWS,
    HALF_LOAD,
    THIRD_LOAD,
    THIRD_LOAD_WITH_A_QUEUE,
    LITTLE_MORE,
    TEN_LOADS,
    ALL_BUT_FULL,
    TWO_UNITS,
    TWO_UNITS_WITH_A_QUEUE,
    WITHOUT_CALLS,
    ONE_LIST,
    THREE_UNITS,
    SEVEN_OVERLOADED,
    SEVEN_SWAMPED,
];

/// If each station has one crew, its measures are those of the plan, and no crew of a station is free while its unit is
/// busy: the ends overlap at each.
#[test]
fn one_crew_at_each_station(rt: HostRuntime) -> Result<(), Fail> {
    for text in [
        TWO_UNITS,
        TWO_UNITS_WITH_A_QUEUE,
        WITHOUT_CALLS,
        SEVEN_OVERLOADED,
    ] {
        let fleet = read_fleet(rt.alloc(), text.as_bytes())?;
        let plan = read_plan(rt.alloc(), text.as_bytes())?;
        let found = enclose_fleet(rt.alloc(), &fleet)?;
        let wanted = enclose(rt.alloc(), &plan)?;
        assert_eq!(rt; found.len(), wanted.len() + fleet.stations());
        for item in &found {
            assert!(rt; is_met(of_plan(item.measure), *item, &wanted), "{item:?}");
        }
    }
    Ok(())
}

fn of_plan(measure: FleetMeasure) -> Measure {
    match measure {
        FleetMeasure::Of(measure) => measure,
        FleetMeasure::Full(station) => Measure::Workload(station),
    }
}

/// Whether the plan has the measure, and its ends overlap those of the fleet.
fn is_met(measure: Measure, item: FleetEnds, plan: &Enclosures) -> bool {
    let found = Enclosed {
        measure,
        found: item.found,
    };
    for place in 0..plan.len() {
        if overlaps(found, plan.get(place)) {
            return true;
        }
    }
    false
}

/// What each crew has by itself as its station has it, and what all have together, is what a plan says of them one by one.
#[test]
fn crews_one_by_one(rt: HostRuntime) -> Result<(), Fail> {
    check_apart(&rt, rt.alloc(), FIVE_CREWS, FIVE_CREWS_APART)?;
    check_apart(
        &rt,
        rt.alloc(),
        FIVE_CREWS_WITH_A_QUEUE,
        FIVE_CREWS_APART_WITH_A_QUEUE,
    )
}

/// The station of each of the five crews.
const STATIONS: [u8; 5] = [0, 0, 0, 1, 1];

fn check_apart(rt: &impl Abort, alloc: Global, together: &str, apart: &str) -> Result<(), Fail> {
    let fleet = read_fleet(alloc, together.as_bytes())?;
    let plan = read_plan(alloc, apart.as_bytes())?;
    let found = enclose_fleet(alloc, &fleet)?;
    let wanted = enclose(alloc, &plan)?;
    for item in &found {
        check_crews(rt, *item, &wanted);
    }
    Ok(())
}

fn check_crews(rt: &impl Abort, item: FleetEnds, plan: &Enclosures) {
    for (crew, station) in (0..5).zip(STATIONS) {
        if let Some(measure) = own(item.measure, station, crew) {
            assert!(rt; is_met(measure, item, plan), "{measure:?}");
        }
    }
}

/// The measure of a plan with which that of a fleet agrees, as far as it speaks of this crew or of all.
fn own(measure: FleetMeasure, station: u8, crew: u8) -> Option<Measure> {
    match measure {
        FleetMeasure::Of(Measure::Workload(k)) if k == station => Some(Measure::Workload(crew)),
        FleetMeasure::Of(Measure::TravelUnit(k)) if k == station => Some(Measure::TravelUnit(crew)),
        FleetMeasure::Of(measure) if is_of_all(measure) => Some(measure),
        _ => None,
    }
}

fn is_of_all(measure: Measure) -> bool {
    matches!(
        measure,
        Measure::Loss
            | Measure::Delay
            | Measure::Queue
            | Measure::Wait
            | Measure::Travel
            | Measure::TravelAtom(_)
    )
}
