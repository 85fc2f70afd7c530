use hyper_model::{Enclosed, Enclosures, Found, Measure};
use pair_dispatch::{PairEnds, PairMeasure, check_pairs, enclose_pairs};
use plan_reader::read_plan;
use plan_solver::enclose;
use std::alloc::Global;
use std::process::Abort;
use std::test::Fail;
use worked_plans::{
    HALF_LOAD, LITTLE_MORE, ONE_LIST, SEVEN_OVERLOADED, SEVEN_SWAMPED, TEN_LOADS, THIRD_LOAD,
    THREE_IN_TURN, THREE_UNITS, TWO_UNITS, WITHOUT_CALLS,
};

/// If no call needs two units, the loss and the workloads are those of the model: the ends that the two chains give them
/// overlap.
#[test]
fn without_pairs_all_is_as_the_solver_says(rt: HostRuntime) -> Result<(), Fail> {
    for text in OF_SINGLE_UNITS {
        check(&rt, rt.alloc(), text)?;
    }
    Ok(())
}

/// The worked plans of the zero line without groups, of at most ten units.
const OF_SINGLE_UNITS: [&str; 11] = [
    HALF_LOAD,
    THIRD_LOAD,
    LITTLE_MORE,
    TEN_LOADS,
    TWO_UNITS,
    WITHOUT_CALLS,
    ONE_LIST,
    THREE_UNITS,
    THREE_IN_TURN,
    SEVEN_OVERLOADED,
    SEVEN_SWAMPED,
];

fn check(rt: &impl Abort, alloc: Global, text: &str) -> Result<(), Fail> {
    let plan = read_plan(alloc, text.as_bytes())?;
    check_pairs(&plan)?;
    let solved = enclose(alloc, &plan)?;
    let paired = enclose_pairs(alloc, &plan, 0)?;
    assert!(rt; overlap(&solved, &paired), "{text}");
    Ok(())
}

fn overlap(solved: &Enclosures, paired: &[PairEnds]) -> bool {
    paired.iter().all(|ends| overlaps(solved, ends))
}

/// Whether these are ends of a measure that the model does not have, or overlap those that it has.
fn overlaps(solved: &Enclosures, ends: &PairEnds) -> bool {
    let measure = match ends.measure {
        PairMeasure::Loss => Measure::Loss,
        PairMeasure::Workload(unit) => Measure::Workload(unit),
        PairMeasure::Short | PairMeasure::Pair(_, _) => return true,
    };
    for place in 0..solved.len() {
        if meets(solved.get(place), measure, ends) {
            return true;
        }
    }
    false
}

fn meets(item: Enclosed, measure: Measure, ends: &PairEnds) -> bool {
    match item.found {
        Found::Ends(lo, hi) => item.measure == measure && lo <= ends.hi && ends.lo <= hi,
        Found::Without => false,
    }
}
