use hyper_model::{Enclosed, Enclosures, Found, Measure, Value, value_in};
use plan_reader::read_plan;
use plan_solver::{enclose, enclose_certified};
use std::alloc::Global;
use std::process::Abort;
use std::test::Fail;
use worked_plans::{
    ALL_BUT_FULL, ELEVEN_UNITS, HALF_LOAD, LITTLE_MORE, ONE_GROUP, ONE_LIST, SEVEN_OVERLOADED,
    SEVEN_SWAMPED, SIX_IN_GROUPS, SIX_WITH_A_QUEUE, TEN_LOADS, THIRD_LOAD, THIRD_LOAD_WITH_A_QUEUE,
    THREE_IN_TURN, THREE_UNITS, THREE_UNLIKE, TWO_UNITS, TWO_UNITS_WITH_A_QUEUE, WITHOUT_CALLS,
    grid,
};

/// Each worked plan has a certificate, and its ends overlap those of the elimination at every measure: both contain the value.
#[test]
fn both_methods_overlap(rt: HostRuntime) -> Result<(), Fail> {
    for text in WORKED {
        check(&rt, rt.alloc(), text)?;
    }
    Ok(())
}

#[test]
fn both_methods_overlap_on_a_grid(rt: HostRuntime) -> Result<(), Fail> {
    let text = grid(rt.alloc())?;
    check(&rt, rt.alloc(), text.as_str())
}

/// The loss of eleven servers and six calls for each service is 0.022990892 by Erlang's formula.
#[test]
fn erlang_of_eleven_units(rt: HostRuntime) -> Result<(), Fail> {
    let plan = read_plan(rt.alloc(), ELEVEN_UNITS.as_bytes())?;
    let certified = enclose_certified(rt.alloc(), &plan)?;
    let loss = certified.map(|found| value_in(&found, Measure::Loss));
    let erlang = Value {
        lo: 22_990,
        hi: 22_991,
    };
    assert_eq!(rt; loss, Some(erlang));
    Ok(())
}

/// The worked plans of at most seven units.
pub(crate) const WORKED: [&str; 18] = [
    HALF_LOAD,
    THIRD_LOAD,
    THIRD_LOAD_WITH_A_QUEUE,
    LITTLE_MORE,
    TEN_LOADS,
    ALL_BUT_FULL,
    TWO_UNITS,
    TWO_UNITS_WITH_A_QUEUE,
    WITHOUT_CALLS,
    ONE_LIST,
    ONE_GROUP,
    THREE_UNITS,
    THREE_UNLIKE,
    THREE_IN_TURN,
    SIX_IN_GROUPS,
    SIX_WITH_A_QUEUE,
    SEVEN_OVERLOADED,
    SEVEN_SWAMPED,
];

fn check(rt: &impl Abort, alloc: Global, text: &str) -> Result<(), Fail> {
    let plan = read_plan(alloc, text.as_bytes())?;
    let eliminated = enclose(alloc, &plan)?;
    let certified = enclose_certified(alloc, &plan)?;
    let is_met = certified.is_some_and(|found| overlap(&eliminated, &found));
    assert!(rt; is_met, "{text}");
    Ok(())
}

/// Whether the two lists have the same measures, and ends that overlap for each of them.
fn overlap(first: &Enclosures, second: &Enclosures) -> bool {
    if first.len() != second.len() {
        return false;
    }
    for place in 0..first.len() {
        if !overlaps(first.get(place), second.get(place)) {
            return false;
        }
    }
    true
}

pub(crate) fn overlaps(first: Enclosed, second: Enclosed) -> bool {
    first.measure == second.measure && meet(first.found, second.found)
}

fn meet(first: Found, second: Found) -> bool {
    match (first, second) {
        (Found::Ends(low, high), Found::Ends(lo, hi)) => low <= hi && lo <= high,
        (Found::Without, Found::Without) => true,
        (Found::Ends(_, _), Found::Without) | (Found::Without, Found::Ends(_, _)) => false,
    }
}
