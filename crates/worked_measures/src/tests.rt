use crate::by_hand::measures;
use crate::plans::{PLANS, Solved};
use hyper_model::{Enclosed, Enclosures, Plan};
use plan_reader::read_plan;
use plan_solver::enclose;
use std::alloc::{AllocError, Global};
use std::process::Abort;
use std::test::Fail;

#[test]
fn worked_plans_have_these_measures(rt: HostRuntime) -> Result<(), Fail> {
    for solved in PLANS {
        check(&rt, rt.alloc(), solved)?;
    }
    Ok(())
}

fn check(rt: &impl Abort, alloc: Global, solved: Solved) -> Result<(), Fail> {
    let plan = read_plan(alloc, solved.text.as_bytes())?;
    check_plan(rt, alloc, &plan, solved)
}

/// As the solver finds them, and from the masses if a hand found these.
fn check_plan(rt: &impl Abort, alloc: Global, plan: &Plan, solved: Solved) -> Result<(), Fail> {
    assert_eq!(rt; solver_text(alloc, plan)?.as_str(), solved.measures);
    if !solved.masses.is_empty() {
        let text = text_of(alloc, &measures(rt, alloc, plan, solved.masses)?)?;
        assert_eq!(rt; text.as_str(), solved.measures);
    }
    Ok(())
}

fn solver_text(alloc: Global, plan: &Plan) -> Result<String, AllocError> {
    let mut text = String::new(alloc);
    push_found(&mut text, &enclose(alloc, plan)?)?;
    Ok(text)
}

fn push_found(text: &mut String, found: &Enclosures) -> Result<(), AllocError> {
    for place in 0..found.len() {
        push_measure(text, found.get(place))?;
    }
    Ok(())
}

fn text_of(alloc: Global, found: &[Enclosed]) -> Result<String, AllocError> {
    let mut text = String::new(alloc);
    for item in found {
        push_measure(&mut text, *item)?;
    }
    Ok(text)
}

fn push_measure(text: &mut String, item: Enclosed) -> Result<(), AllocError> {
    let (word, subject, found) = (item.measure.word(), item.measure.subject(), item.found);
    write!(text, "{word} {subject:?} {found:?}\n")
}
