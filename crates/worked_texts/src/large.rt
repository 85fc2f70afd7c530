use hyper_model::{Line, Lists, Plan, Rule};
use plan_reader::{PlanRefusal, read_plan};
use std::process::Abort;
use std::test::Fail;
use worked_plans::{HALF_LOAD, TWO_UNITS, grid, widest};

#[test]
fn a_record_too_many(rt: HostRuntime) -> Result<(), Fail> {
    let mut text = Vec::new(rt.alloc());
    for _ in 0..49_996u32 {
        text.extend_from_slice(b"note,x\n")?;
    }
    text.extend_from_slice(HALF_LOAD.as_bytes())?;
    let got = read_plan(rt.alloc(), &text).err();
    assert_eq!(rt; got, Some(PlanRefusal::TooManyRecords(50_001)));
    Ok(())
}

#[test]
fn an_atom_too_many(rt: HostRuntime) -> Result<(), Fail> {
    let mut text = String::from_str(rt.alloc(), TWO_UNITS)?;
    for j in 1..200u32 {
        write!(text, "atom,R{j},1,0,0,A\n")?;
    }
    let got = read_plan(rt.alloc(), text.as_bytes()).err();
    assert_eq!(rt; got, Some(PlanRefusal::TooManyAtoms(211)));
    Ok(())
}

/// Atoms with the units in the order of their lists.
type Ranked = &'static [(usize, &'static [u8])];

const GRID_LISTS: Ranked = &[
    (3, &[3, 2, 4, 1, 5, 0, 6, 7]),
    (12, &[4, 3, 5, 2, 6, 1, 7, 0]),
    (39, &[7, 6, 5, 4, 3, 2, 1, 0]),
];

const WIDEST_LISTS: Ranked = &[
    (0, &[0, 1, 2, 3, 4, 5, 6, 7, 8, 9, 10, 11]),
    (199, &[7, 0, 1, 2, 3, 4, 5, 6, 8, 9, 10, 11]),
];

#[test]
fn the_plan_of_a_spreadsheet(rt: HostRuntime) -> Result<(), Fail> {
    let plan = read_plan(rt.alloc(), grid(rt.alloc())?.as_bytes())?;
    check_spreadsheet(&rt, &plan);
    Ok(())
}

fn check_spreadsheet(rt: &impl Abort, plan: &Plan) {
    assert!(rt; plan.line() == Line::Zero && plan.rule() == Rule::Modified);
    assert!(rt; plan.units() == 8 && plan.atoms() == 40);
    assert_eq!(rt;
        (plan.period(), plan.calls(), plan.service()),
        (432_000, 240, 480)
    );
    assert_eq!(rt; plan.atom(39).district, 7);
    assert_eq!(rt; plan.travel(0, 39), 780);
    assert!(rt; plan.located(7, 23) == 600 && plan.located(7, 15) == 200);
    check_lists(rt, plan.lists(), GRID_LISTS);
}

#[test]
fn most_units_and_atoms(rt: HostRuntime) -> Result<(), Fail> {
    let plan = read_plan(rt.alloc(), widest(rt.alloc())?.as_bytes())?;
    check_widest(&rt, &plan);
    Ok(())
}

fn check_widest(rt: &impl Abort, plan: &Plan) {
    assert!(rt; plan.units() == 12 && plan.atoms() == 200);
    assert_eq!(rt; (plan.calls(), plan.service()), (200, 240));
    assert_eq!(rt; plan.travel(199, 198), 60);
    check_lists(rt, plan.lists(), WIDEST_LISTS);
}

fn check_lists(rt: &impl Abort, lists: &Lists, wanted: Ranked) {
    for (atom, units) in wanted {
        assert!(rt; *atom < lists.atoms());
        assert_eq!(rt; lists.list(*atom), *units);
    }
}
