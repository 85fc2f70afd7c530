use crate::pieces::*;
use plan_reader::PlanRefusal::{self, *};
use plan_reader::read_plan;
use std::alloc::{AllocError, Global};
use std::test::Fail;

#[test]
fn broken_texts_are_refused(rt: HostRuntime) -> Result<(), Fail> {
    for (pieces, refusal) in BROKEN {
        assert_eq!(rt; refusal_of(rt.alloc(), pieces)?, Some(*refusal));
    }
    Ok(())
}

fn refusal_of(alloc: Global, pieces: Pieces) -> Result<Option<PlanRefusal>, AllocError> {
    let text = text_of(alloc, pieces)?;
    Ok(read_plan(alloc, text.as_bytes()).err())
}

const ELEVEN_UNITS: &str =
    "unit,U1,1\nunit,U2,1\nunit,U3,1\nunit,U4,1\nunit,U5,1\nunit,U6,1\nunit,U7,1\nunit,U8,1\nunit,U9,1\nunit,U10,1\nunit,U11,1\n";

/// Texts, and why they give no plan: those that no whole run shows, and those with two faults, of which the one that is
/// looked for first stands last.
const BROKEN: &[(Pieces, PlanRefusal)] = &[
    (
        &["unit,A,1000001\n", ATOM, TRIP, PLACE, LIST],
        BadNumber(1, 3),
    ),
    (&["unit,A,3\n"], NoAtoms),
    (
        &["unit,A\nunit,B,3\n", ATOMS, TRIPS, PLACES, LISTS],
        FieldCount(1),
    ),
    (
        &["Unit,A,3\nunit,B,3\n", ATOMS, TRIPS, PLACES, LISTS],
        UnknownKind(1),
    ),
    (
        &["unit,A,0\nunit,B,3\n", ATOMS, TRIPS, PLACES, LISTS],
        BadNumber(1, 3),
    ),
    (
        &[UNITS, ATOMS, TRIPS, PLACES, LISTS, "line,zero\nline,zero\n"],
        SettingTwice(14),
    ),
    (
        &[UNITS, ATOMS, TRIPS, PLACES, LISTS, "version,3\n"],
        Version(13),
    ),
    (
        &[UNITS, ATOMS, TRIPS, PLACES, LISTS, "unit,A,4\n"],
        DuplicateUnit(13),
    ),
    (
        &[UNITS, ATOMS, TRIPS, PLACES, LISTS, ELEVEN_UNITS],
        TooManyUnits(23),
    ),
    (
        &[UNITS, ATOMS, TRIPS, PLACES, LISTS, "atom,P,2,0,0,A\n"],
        DuplicateAtom(13),
    ),
    (
        &[UNITS, ATOMS, TRIPS, PLACES, LISTS, "travel,P,Q,1\n"],
        DuplicateTravel(13),
    ),
    (
        &[UNITS, ATOMS, TRIPS, PLACES, LISTS, "at,A,P,1\n"],
        DuplicateLocation(13),
    ),
    (
        &[UNITS, ATOMS, TRIPS, PLACES, LISTS, "line,none\n"],
        BadName(13, 2),
    ),
    (
        &[UNITS, ATOMS, TRIPS, PLACES, LISTS, "at,A,X,1\n"],
        UnknownName(13, 3),
    ),
    (
        &[
            UNITS,
            "atom,P,0,0,0,A\natom,Q,0,9,0,B\n",
            TRIPS,
            PLACES,
            LISTS,
        ],
        NoCalls,
    ),
    (
        &[UNITS, ATOMS, TRIPS, PLACES, LISTS, "at,B,P,1\n"],
        LocationSum(2, 1001),
    ),
    (
        &[
            "version,1\n",
            UNITS,
            ATOMS,
            TRIPS,
            PLACES,
            "group,P,A,B\ngroup,Q,A,B\n",
        ],
        UnknownKind(12),
    ),
    (
        &[
            "version,2\n",
            UNITS,
            ATOMS,
            TRIPS,
            PLACES,
            "prefer,P,A,B\ngroup,P,A,B\n",
        ],
        ListTwice(13),
    ),
    (
        &[
            "version,2\n",
            UNITS,
            ATOMS,
            TRIPS,
            PLACES,
            "group,P,A,B\ngroup,Q,A\n",
        ],
        ListNotWhole(2),
    ),
    (
        &[
            "version,2\n",
            UNITS,
            ATOMS,
            TRIPS,
            PLACES,
            "group,P,A,B\ngroup,P,B\ngroup,Q,A,B\n",
        ],
        ListNotWhole(1),
    ),
    (
        &[
            "unit,A,1\nunit,B,1\n",
            ATOMS,
            TRIPS,
            PLACES,
            LISTS,
            "line,infinite\n",
        ],
        NotStable(2, 2),
    ),
    (
        &[
            "unit,A,1\nunit,B,1\n",
            "atom,P,1,0,0,A\natom,Q,2,9,0,B\n",
            TRIPS,
            PLACES,
            "rule,modified\nline,infinite\n",
        ],
        NotStable(3, 2),
    ),
    (&["\nnote\n,\nat,A"], FieldCount(3)),
    (
        &["note\natom,P,0,0,0,B\nunit,A,2\nunit,A,2"],
        DuplicateUnit(4),
    ),
    (&[UNIT, ATOM, "prefer,P,A,P"], UnknownName(3, 4)),
    (&[UNITS, ATOMS], MissingTravel(1, 1)),
    (
        &["version,2\n", UNITS, ATOMS, TRIPS, PLACES, "group,P,A,B\n"],
        MissingList(2),
    ),
    (
        &[
            "version,2\n",
            UNITS,
            ATOMS,
            TRIPS,
            PLACES,
            "prefer,P,A,B\ngroup,Q,B\n",
        ],
        ListNotWhole(2),
    ),
    (
        &[
            "version,2\n",
            UNITS,
            ATOMS,
            TRIPS,
            PLACES,
            "group,P,A\ngroup,P,B\nprefer,P,A,B\n",
        ],
        ListTwice(14),
    ),
    (
        &[
            "version,2\n",
            UNITS,
            ATOMS,
            TRIPS,
            PLACES,
            "prefer,P,A\ngroup,P,B\n",
        ],
        ListTwice(13),
    ),
    (
        &[
            "version,2\n",
            UNITS,
            ATOMS,
            TRIPS,
            PLACES,
            "rule,strict\ngroup,P,A\n",
        ],
        ListNotAsked(13),
    ),
    (
        &[
            "version,2\n",
            UNITS,
            ATOMS,
            TRIPS,
            PLACES,
            "rule,modified\nnote\nprefer,P,A,B\n",
        ],
        ListNotAsked(14),
    ),
    (&["unit,\"A,B\",0\n"], BadName(1, 2)),
    (&["unit,\"A,B\",0,0\n"], FieldCount(1)),
    (
        &[
            UNITS,
            ATOMS,
            TRIPS,
            PLACES,
            LISTS,
            "line,zero\nline,zero\nunit,B\n",
        ],
        FieldCount(15),
    ),
    (
        &["version,1\nversion,9\n", UNITS, ATOMS, TRIPS, PLACES, LISTS],
        SettingTwice(2),
    ),
    (
        &[UNITS, UNITS, ATOMS, TRIPS, PLACES, "version,9\n"],
        Version(13),
    ),
    (&[ATOMS, ATOMS, UNITS, UNITS], DuplicateUnit(7)),
    (&[ATOMS, ATOMS], DuplicateAtom(3)),
    (&[UNITS, PLACES], NoAtoms),
    (
        &[UNITS, "atom,P,0,0,0,A\n", "at,A,X,1000\n"],
        UnknownName(4, 3),
    ),
    (
        &[UNITS, ATOMS, "travel,X,Y,1\n", "at,X,P,1\n"],
        UnknownName(5, 2),
    ),
    (&["unit,A,1000000\nunit,B,1\n", "atom,P,0,0,0,A\n"], NoCalls),
    (
        &[
            "unit,A,1000000\nunit,B,1\n",
            "atom,P,1000000,0,0,A\natom,Q,1,9,0,B\n",
        ],
        RateSum(1_000_001),
    ),
    (
        &[
            "unit,A,1000000\nunit,B,1\n",
            ATOMS,
            "travel,P,Q,1\ntravel,P,Q,2\n",
        ],
        ServiceSum(1_000_001),
    ),
    (
        &[UNITS, ATOMS, "travel,P,Q,1\ntravel,P,Q,2\n"],
        DuplicateTravel(6),
    ),
    (
        &[UNITS, ATOMS, "at,A,P,1\nat,A,P,2\n", "travel,P,P,1\n"],
        MissingTravel(1, 2),
    ),
    (
        &[
            UNITS,
            ATOMS,
            TRIPS,
            "at,B,P,1\nat,B,P,2\n",
            LISTS,
            "rule,strict\n",
        ],
        DuplicateLocation(10),
    ),
    (
        &[UNITS, ATOMS, TRIPS, LISTS, "rule,strict\n", "at,B,P,1\n"],
        LocationSum(1, 0),
    ),
    (
        &[UNITS, ATOMS, TRIPS, PLACES, "prefer,Q,A,A\nprefer,Q,A,B\n"],
        ListTwice(12),
    ),
    (
        &[
            "unit,A,1\nunit,B,1\n",
            ATOMS,
            TRIPS,
            PLACES,
            "line,infinite\n",
            "prefer,P,B,B\n",
        ],
        ListNotWhole(1),
    ),
];

#[test]
fn a_refusal_has_its_number_and_words(rt: HostRuntime) -> Result<(), Fail> {
    let refusal = NotStable(6, 5);
    assert_eq!(rt; refusal.number(), 52);
    assert_eq!(rt; refusal.arguments(), [Some(6), Some(5)]);
    let words = format!(in rt.alloc(); "{refusal}")?;
    assert_eq!(rt;
        words.as_str(),
        "calls come at the rate 6, and would queue without end at the service rate 5"
    );
    Ok(())
}
