use crate::cases::Text::{Changed, Longer, Plain};
use crate::cases::Written::{Lines, Whole};
use crate::cases::{Case, Text, Written, check};
use crate::reports::*;
use std::test::Fail;
use worked_plans::*;

#[test]
fn plans_have_these_reports(rt: HostRuntime) -> Result<(), Fail> {
    for (name, line, text, written) in SOLVED {
        let case = Case {
            name,
            line,
            text,
            status: 0,
            written,
        };
        check(&rt, rt.alloc(), &case)?;
    }
    Ok(())
}

/// What a run is about, its command line, the text of `a.csv`, and what is written.
type Solved = (&'static str, &'static str, Text, Written);

const SOLVED: [Solved; 22] = [
    (
        "one unit, half as many calls as services",
        "solve a.csv",
        Plain(HALF_LOAD),
        Whole(HALF_LOAD_REPORT),
    ),
    (
        "one unit, a third as many calls as services",
        "solve a.csv",
        Plain(THIRD_LOAD),
        Whole(THIRD_LOAD_REPORT),
    ),
    (
        "one unit, with calls that wait",
        "solve a.csv",
        Longer(THIRD_LOAD, "line,infinite\n"),
        Whole(THIRD_LOAD_WITH_A_QUEUE_REPORT),
    ),
    (
        "one unit, ten calls for each service",
        "solve a.csv",
        Plain(TEN_LOADS),
        Lines(&["loss,0.909090,0.909091"]),
    ),
    (
        "one unit that is all but always busy, with calls that wait",
        "solve a.csv",
        Plain(ALL_BUT_FULL),
        Lines(&[
            "queue,999998.000000,999998.000002",
            "workload,A,0.999998,1.000000",
        ]),
    ),
    (
        "two units with opposite lists",
        "solve a.csv",
        Plain(TWO_UNITS),
        Whole(TWO_UNITS_REPORT),
    ),
    (
        "two units with opposite lists, in a text of version 2",
        "solve a.csv",
        Changed(TWO_UNITS, "unit,A,3\n", b"version,2\nunit,A,3\n"),
        Whole(TWO_UNITS_REPORT),
    ),
    (
        "two units in one group",
        "solve a.csv",
        Plain(ONE_GROUP),
        Whole(ONE_GROUP_REPORT),
    ),
    (
        "two units at one atom, one of them always first",
        "solve a.csv",
        Plain(ONE_LIST),
        Lines(&[
            "loss,0.117647,0.117648",
            "workload,A,0.399999,0.400001",
            "workload,B,0.188235,0.188236",
        ]),
    ),
    (
        "an atom without calls",
        "solve a.csv",
        Changed(TWO_UNITS, "atom,Q,1,9,0,B\n", b"atom,Q,0,9,0,B\n"),
        Lines(&[
            "dispatch,A,Q,0.000000,0.000000",
            "dispatch,B,Q,0.000000,0.000000",
        ]),
    ),
    (
        "calls that sum to a million",
        "solve a.csv",
        Changed(TWO_UNITS, "atom,P,1,0,0,A\n", b"atom,P,999999,0,0,A\n"),
        Lines(&["calls,1000000"]),
    ),
    (
        "units at one distance: each atom asks for that of its district",
        "solve a.csv",
        Longer(BOTH_AT_ONE, "rule,modified\n"),
        Lines(&["prefer,P,A,B", "prefer,Q,B,A"]),
    ),
    (
        "like times: the place of each call tells the nearest unit",
        "solve a.csv",
        Longer(BETWEEN, "rule,modified\n"),
        Lines(&["prefer,P,A,B", "prefer,R,B,A", "prefer,Q,B,A"]),
    ),
    (
        "like times: the district tells the nearest unit",
        "solve a.csv",
        Longer(BETWEEN, "rule,strict\n"),
        Lines(&["prefer,P,A,B", "prefer,R,A,B", "prefer,Q,B,A"]),
    ),
    (
        "six units in groups of unequal size, overloaded",
        "solve a.csv",
        Plain(SIX_IN_GROUPS),
        Whole(SIX_IN_GROUPS_REPORT),
    ),
    (
        "six units in groups of unequal size, with calls that wait",
        "solve a.csv",
        Plain(SIX_WITH_A_QUEUE),
        Whole(SIX_WITH_A_QUEUE_REPORT),
    ),
    (
        "seven unlike units, overloaded",
        "solve a.csv",
        Plain(SEVEN_OVERLOADED),
        Whole(SEVEN_OVERLOADED_REPORT),
    ),
    (
        "eleven units sent in one order",
        "solve a.csv",
        Plain(ELEVEN_UNITS),
        Lines(&["loss,0.022990,0.022991"]),
    ),
    (
        "the least width, which each interval has",
        "solve a.csv --width 2",
        Plain(THIRD_LOAD),
        Whole(THIRD_LOAD_REPORT),
    ),
    (
        "a time width that the widest interval has",
        "solve a.csv --time-width 13",
        Plain(THREE_UNITS),
        Lines(&[
            "interdistrict-unit,B,1.000000,1.000000",
            "interdistrict-district,B,none",
            "travel-unit,C,299.987,300.000",
            "travel-district,C,none",
        ]),
    ),
    (
        "a summary, asked in front of the command",
        "--summary solve a.csv",
        Plain(HALF_LOAD),
        Whole(HALF_LOAD_SUMMARY),
    ),
    (
        "a file whose name looks like an option",
        "solve -- -x.csv",
        Plain(HALF_LOAD),
        Whole(HALF_LOAD_REPORT),
    ),
];
