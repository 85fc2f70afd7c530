use crate::pieces::*;
use plan_reader::FleetRefusal::{self, *};
use plan_reader::{PlanRefusal, read_fleet, read_plan};
use std::alloc::{AllocError, Global};
use std::test::Fail;

#[test]
fn texts_give_these_fleets(rt: HostRuntime) -> Result<(), Fail> {
    for (pieces, wanted) in FLEETS {
        let found = fleet_in_words(rt.alloc(), pieces)?;
        assert_eq!(rt; found.as_str(), *wanted);
    }
    Ok(())
}

#[test]
fn broken_texts_give_no_fleet(rt: HostRuntime) -> Result<(), Fail> {
    for (pieces, refusal) in BROKEN_FLEETS {
        assert_eq!(rt; refusal_of(rt.alloc(), pieces)?, Some(*refusal));
    }
    Ok(())
}

#[test]
fn a_plan_has_no_crews(rt: HostRuntime) -> Result<(), Fail> {
    let text = text_of(
        rt.alloc(),
        &["version,3\n", UNITS, ATOMS, TRIPS, PLACES, LISTS, CREWS],
    )?;
    let refusal = read_plan(rt.alloc(), text.as_bytes()).err();
    assert_eq!(rt; refusal, Some(PlanRefusal::UnknownKind(14)));
    Ok(())
}

#[test]
fn fleets_have_numbers_and_words_for_their_refusals(rt: HostRuntime) -> Result<(), Fail> {
    for (refusal, number, argument, words) in REPORTED {
        let code = refusal.code();
        assert_eq!(rt; code.number, *number);
        assert_eq!(rt; code.arguments[0], Some(*argument));
        assert_eq!(rt; code.arguments[1], None);
        let text = format!(in rt.alloc(); "{refusal}")?;
        assert_eq!(rt; text.as_str(), *words);
    }
    Ok(())
}

fn refusal_of(alloc: Global, pieces: Pieces) -> Result<Option<FleetRefusal>, AllocError> {
    let text = text_of(alloc, pieces)?;
    Ok(read_fleet(alloc, text.as_bytes()).err())
}

/// The crews of each station, and the states, calls and service of the fleet.
fn fleet_in_words(alloc: Global, pieces: Pieces) -> Result<String, Fail> {
    let text = text_of(alloc, pieces)?;
    let fleet = read_fleet(alloc, text.as_bytes())?;
    let (states, calls, service) = (fleet.states(), fleet.calls(), fleet.service());
    let mut words = format!(in alloc; "{states} states, {calls} of {service}:")?;
    for k in 0..fleet.stations() {
        let piece = format!(in alloc; " {}", fleet.crews(k))?;
        words.push_str(&piece)?;
    }
    Ok(words)
}

/// The crews of the two stations.
const CREWS: &str = "crews,A,4\ncrews,B,2\n";

/// One station of one atom, with a service of one for each crew.
const STATION: &str = "unit,A,1\natom,P,1,0,0,A\ntravel,P,P,300\nat,A,P,1000\nprefer,P,A\n";

/// Texts, and the fleets that they give: with crews of both stations, of one and of none; in both versions; with a note
/// before the version, between records, and text lines that end as in Windows; with as many crews as there may be, with as
/// much service, and with calls that are fewer than the service of all crews only.
const FLEETS: &[(Pieces, &str)] = &[
    (
        &["version,3\n", UNITS, ATOMS, TRIPS, PLACES, LISTS, CREWS],
        "15 states, 2 of 18: 4 2",
    ),
    (
        &[
            "version,3\n",
            "crews,B,9\n",
            UNITS,
            ATOMS,
            TRIPS,
            PLACES,
            LISTS,
        ],
        "20 states, 2 of 30: 1 9",
    ),
    (
        &[UNITS, ATOMS, TRIPS, PLACES, LISTS],
        "4 states, 2 of 6: 1 1",
    ),
    (
        &["version,1\n", UNITS, ATOMS, TRIPS, PLACES, LISTS],
        "4 states, 2 of 6: 1 1",
    ),
    (
        &[
            "note,stations\r\nversion,3\r\nunit,A,3\r\nnote,half a day\r\nunit,B,3\r\ncrews,A,2\r\n",
            "rule,modified\r\n",
            ATOMS,
            TRIPS,
            PLACES,
        ],
        "6 states, 2 of 9: 2 1",
    ),
    (
        &["version,3\n", STATION, "crews,A,200\n"],
        "201 states, 1 of 200: 200",
    ),
    (
        &["version,3\n", STATION, "crews,A,2\nline,infinite\n"],
        "3 states, 1 of 2: 2",
    ),
    (
        &[
            "version,3\nunit,A,5000\ncrews,A,200\n",
            ATOM,
            TRIP,
            PLACE,
            LIST,
        ],
        "201 states, 1 of 1000000: 200",
    ),
];

/// Five stations, with a list by distance.
const FIVE: &str =
    "version,3\nrule,modified\nunit,A,1\nunit,B,1\nunit,C,1\nunit,D,1\nunit,E,1\natom,P,1,0,0,A\ntravel,P,P,1\nat,A,P,1000\nat,B,P,1000\nat,C,P,1000\nat,D,P,1000\nat,E,P,1000\n";

/// Texts, and why they give no fleet. Of two faults the one that is looked for first is given.
const BROKEN_FLEETS: &[(Pieces, FleetRefusal)] = &[
    (
        &[
            "version,3\n",
            UNITS,
            ATOMS,
            TRIPS,
            PLACES,
            LISTS,
            CREWS,
            "crews,A,1\n",
        ],
        CrewsTwice(16),
    ),
    (
        &[
            "version,3\n",
            UNITS,
            ATOMS,
            TRIPS,
            PLACES,
            LISTS,
            CREWS,
            "crews,A,1\ncrews,X,1\n",
        ],
        CrewsTwice(16),
    ),
    (
        &[
            "version,3\n",
            UNITS,
            ATOMS,
            TRIPS,
            PLACES,
            LISTS,
            CREWS,
            "crews,X,1\ncrews,A,1\n",
        ],
        Plan(PlanRefusal::UnknownName(16, 2)),
    ),
    (
        &[
            "version,3\n",
            UNITS,
            ATOMS,
            TRIPS,
            PLACES,
            LISTS,
            "crews,P,1\n",
        ],
        Plan(PlanRefusal::UnknownName(14, 2)),
    ),
    (
        &[
            "version,3\n",
            UNITS,
            ATOMS,
            TRIPS,
            PLACES,
            LISTS,
            "crews,A,200\ncrews,B,1\n",
        ],
        TooManyCrews(201),
    ),
    (
        &[
            "version,3\n",
            UNITS,
            ATOMS,
            TRIPS,
            PLACES,
            LISTS,
            "crews,A,200\n",
        ],
        TooManyCrews(201),
    ),
    (
        &[
            FIVE,
            "crews,A,9\ncrews,B,9\ncrews,C,9\ncrews,D,9\ncrews,E,6\n",
        ],
        TooManyStates(70_000),
    ),
    (
        &[
            "version,3\nunit,A,5001\ncrews,A,200\n",
            ATOM,
            TRIP,
            PLACE,
            LIST,
        ],
        CrewService(1_000_200),
    ),
    (
        &[
            "version,3\nunit,A,1\nline,infinite\ncrews,A,3\natom,P,3,0,0,A\n",
            TRIP,
            PLACE,
            LIST,
        ],
        Plan(PlanRefusal::NotStable(3, 3)),
    ),
    (
        &["version,3\n", STATION, "crews,A,0\n"],
        Plan(PlanRefusal::BadNumber(7, 3)),
    ),
    (
        &["version,3\n", STATION, "crews,A,201\n"],
        Plan(PlanRefusal::BadNumber(7, 3)),
    ),
    (
        &["version,3\n", STATION, "crews,A\n"],
        Plan(PlanRefusal::FieldCount(7)),
    ),
    (
        &[STATION, "crews,A,2\nversion,3\n"],
        Plan(PlanRefusal::UnknownKind(6)),
    ),
    (
        &["version,3\n", STATION, "group,P,A\n"],
        Plan(PlanRefusal::UnknownKind(7)),
    ),
    (&["version,2\n", STATION], Plan(PlanRefusal::Version(1))),
    (
        &[
            "version,3\nunit,A,1000000\nunit,B,1\n",
            ATOM,
            TRIP,
            PLACE,
            "at,B,P,1000\nprefer,P,A,B\n",
        ],
        Plan(PlanRefusal::ServiceSum(1_000_001)),
    ),
    (
        &[
            "version,3\ncrews,X,1\n",
            UNITS,
            ATOMS,
            TRIPS,
            PLACES,
            "prefer,P,A,B\n",
        ],
        Plan(PlanRefusal::MissingList(2)),
    ),
];

/// Refusals, with the number and the one argument by which they are reported, and their words.
const REPORTED: &[(FleetRefusal, u32, u64, &str)] = &[
    (
        Plan(PlanRefusal::Version(1)),
        50,
        1,
        "record 1 is for an unknown version",
    ),
    (
        CrewsTwice(16),
        100,
        16,
        "record 16 gives the crews of a station that an earlier record gives",
    ),
    (
        TooManyCrews(201),
        101,
        201,
        "there are 201 crews, more than 200",
    ),
    (
        TooManyStates(70_000),
        102,
        70_000,
        "there are 70000 states, more than 65536",
    ),
    (
        CrewService(1_000_200),
        103,
        1_000_200,
        "the service rates of all crews sum to 1000200, more than 1000000",
    ),
];
