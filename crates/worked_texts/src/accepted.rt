ghost use Rattle.std.specs.Prelude.{◌<◌, length};

use crate::pieces::*;
use hyper_model::{Lists, Plan};
use plan_reader::read_plan;
use std::alloc::{AllocError, Global};
use std::process::Abort;
use std::test::Fail;
use worked_plans::{BETWEEN, BOTH_AT_ONE};

#[test]
fn texts_give_these_plans(rt: HostRuntime) -> Result<(), Fail> {
    for (pieces, wanted) in PLANS {
        let found = plan_in_words(&rt, rt.alloc(), pieces)?;
        assert_eq!(rt; found.as_str(), *wanted);
    }
    Ok(())
}

fn plan_in_words(rt: &impl Abort, alloc: Global, pieces: Pieces) -> Result<String, Fail> {
    let text = text_of(alloc, pieces)?;
    let plan = read_plan(alloc, text.as_bytes())?;
    Ok(description_of(rt, alloc, &plan)?)
}

/// The settings of a plan, the time of its first trip, the rates of all calls and of all service, and its lists.
fn description_of(rt: &impl Abort, alloc: Global, plan: &Plan) -> Result<String, AllocError> {
    assert!(rt; 0 < plan.atoms());
    let (line, rule, period) = (plan.line(), plan.rule(), plan.period());
    let (calls, service) = (plan.calls(), plan.service());
    let trip = plan.travel(0, 0);
    let mut text = format!(in alloc; "{line:?} {rule:?} {period}, {trip}, {calls} of {service},")?;
    let lists = plan.lists();
    for atom in 0..lists.atoms() {
        push_list(&mut text, lists, atom)?;
    }
    Ok(text)
}

/// An atom's units in their order, by letters: a unit of the same group as the one before it stands after a `=`.
fn push_list(text: &mut String, lists: &Lists, atom: usize) -> Result<(), AllocError>
    requires { atom < length lists.now.rows }
{
    text.push(' ')?;
    for place in 0..lists.units() {
        if !lists.begins(atom, place) {
            text.push('=')?;
        }
        text.push(char::from(b'A'.wrapping_add(lists.unit(atom, place))))?;
    }
    Ok(())
}

/// Three atoms of unit B's district have no calls: two are where A is, and one where B is.
const WITHOUT_CALLS: &str =
    "unit,A,3\nunit,B,3\natom,P,1,0,0,A\natom,Q,0,200,0,B\natom,S,0,0,0,B\natom,T,0,0,0,B\ntravel,P,P,1\ntravel,P,Q,1\ntravel,P,S,1\ntravel,P,T,1\ntravel,Q,P,1\ntravel,Q,Q,1\ntravel,Q,S,1\ntravel,Q,T,1\ntravel,S,P,1\ntravel,S,Q,1\ntravel,S,S,1\ntravel,S,T,1\ntravel,T,P,1\ntravel,T,Q,1\ntravel,T,S,1\ntravel,T,T,1\nat,A,P,1000\nat,B,Q,1000\n";

/// Texts, and the plans that they give: settings given and not given, rates up to the
/// most that they may sum to, lists of records, and lists by distance, where units at one distance are told apart by the
/// atom's own district.
const PLANS: &[(Pieces, &str)] = &[
    (
        &[UNIT, ATOM, TRIP, PLACE, LIST],
        "Zero Given 3600, 300, 1 of 2, A",
    ),
    (
        &["\u{FEFF}\u{FEFF}unit,A,2\n", ATOM, TRIP, PLACE, LIST],
        "Zero Given 3600, 300, 1 of 2, A",
    ),
    (
        &[
            UNIT,
            "atom,P,1,0,0,A\r\n\r\n,,\r\nnote,a trip\n\n",
            TRIP,
            "\tat\t,A,P,1000\nprefer,P,A",
        ],
        "Zero Given 3600, 300, 1 of 2, A",
    ),
    (
        &[UNITS, ATOMS, TRIPS, PLACES, LISTS],
        "Zero Given 3600, 60, 2 of 6, AB BA",
    ),
    (
        &[
            "version,2\nline,infinite\nrule,modified\nperiod,86400\n",
            UNITS,
            ATOMS,
            TRIPS,
            PLACES,
        ],
        "Infinite Modified 86400, 60, 2 of 6, AB BA",
    ),
    (
        &[
            "period,100000000\n",
            UNITS,
            ATOMS,
            TRIPS,
            PLACES,
            "version,1\nline,zero\nrule,strict\n",
        ],
        "Zero Strict 100000000, 60, 2 of 6, AB BA",
    ),
    (
        &[
            UNITS,
            "atom,P,1,0,0,A\natom,Q,0,9,0,B\n",
            TRIPS,
            PLACES,
            LISTS,
        ],
        "Zero Given 3600, 60, 1 of 6, AB BA",
    ),
    (
        &[
            UNITS,
            "atom,P,999999,0,0,A\natom,Q,1,9,0,B\n",
            TRIPS,
            PLACES,
            LISTS,
        ],
        "Zero Given 3600, 60, 1000000 of 6, AB BA",
    ),
    (
        &["unit,A,999999\nunit,B,1\n", ATOMS, TRIPS, PLACES, LISTS],
        "Zero Given 3600, 60, 2 of 1000000, AB BA",
    ),
    (
        &[
            "unit,A,1\nunit,B,2\n",
            ATOMS,
            TRIPS,
            PLACES,
            LISTS,
            "line,infinite\n",
        ],
        "Infinite Given 3600, 60, 2 of 3, AB BA",
    ),
    (
        &[
            "unit,A,999999\nunit,B,1\n",
            "atom,P,999998,0,0,A\natom,Q,1,9,0,B\n",
            TRIPS,
            PLACES,
            LISTS,
            "line,infinite\n",
        ],
        "Infinite Given 3600, 60, 999999 of 1000000, AB BA",
    ),
    (
        &["version,1\n", UNITS, ATOMS, TRIPS, PLACES, LISTS],
        "Zero Given 3600, 60, 2 of 6, AB BA",
    ),
    (
        &["version,2\n", UNITS, ATOMS, TRIPS, PLACES, LISTS],
        "Zero Given 3600, 60, 2 of 6, AB BA",
    ),
    (
        &[
            "version,2\n",
            UNITS,
            ATOMS,
            TRIPS,
            PLACES,
            "group,P,A,B\ngroup,Q,A,B\n",
        ],
        "Zero Given 3600, 60, 2 of 6, A=B A=B",
    ),
    (
        &[
            "version,2\n",
            UNITS,
            ATOMS,
            TRIPS,
            PLACES,
            "group,Q,B\ngroup,P,B,A\ngroup,Q,A\n",
        ],
        "Zero Given 3600, 60, 2 of 6, B=A BA",
    ),
    (
        &[
            "version,2\nrule,given\n",
            UNITS,
            ATOMS,
            TRIPS,
            PLACES,
            "group,P,B,A\nprefer,Q,A,B\n",
        ],
        "Zero Given 3600, 60, 2 of 6, B=A AB",
    ),
    (
        &[
            "version,2\n",
            BETWEEN,
            "prefer,P,A,B\ngroup,Q,A,B\ngroup,R,B\ngroup,R,A\n",
        ],
        "Zero Given 3600, 60, 5 of 6, AB BA A=B",
    ),
    (
        &[BETWEEN, "rule,modified\n"],
        "Zero Modified 3600, 60, 5 of 6, AB BA BA",
    ),
    (
        &[BETWEEN, "rule,strict\n"],
        "Zero Strict 3600, 60, 5 of 6, AB AB BA",
    ),
    (
        &[BOTH_AT_ONE, "rule,modified\n"],
        "Zero Modified 3600, 60, 2 of 6, AB BA",
    ),
    (
        &[WITHOUT_CALLS, "rule,strict\n"],
        "Zero Strict 3600, 1, 1 of 6, AB AB AB AB",
    ),
];

/// Records in no order, and an atom that has the name of a unit.
const SHUFFLED: &str = "\
atom,A,0,0,0,B
at,B,Q,400
unit,A,2
travel,Q,A,3
travel,A,A,1
at,A,A,1000
atom,Q,1,0,0,A
unit,B,3
travel,Q,Q,0
at,B,A,600
travel,A,Q,2
rule,strict
";

#[test]
fn tables_in_the_order_of_units_and_atoms(rt: HostRuntime) -> Result<(), Fail> {
    let plan = read_plan(rt.alloc(), SHUFFLED.as_bytes())?;
    check_tables(&rt, &plan);
    Ok(())
}

fn check_tables(rt: &impl Abort, plan: &Plan) {
    assert!(rt; plan.units() == 2 && plan.atoms() == 2);
    assert!(rt; plan.unit(1).rate == 3 && plan.atom(0).district == 1);
    assert!(rt; plan.travel(0, 1) == 2 && plan.travel(1, 0) == 3 && plan.travel(1, 1) == 0);
    assert!(rt; plan.located(0, 1) == 0 && plan.located(1, 0) == 600 && plan.located(1, 1) == 400);
}
