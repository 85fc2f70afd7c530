use crate::cases::Text::{Longer, Made, Plain, Street};
use crate::cases::Written::{Lines, Whole};
use crate::cases::{Ended, check_all};
use crate::commands::{USAGE, read};
use crate::words::name;
use hyper_model::Measure;
use hypercube_cli::Command;
use std::test::Fail;
use worked_plans::*;

#[test]
fn sites_by_given_lists(rt: HostRuntime) -> Result<(), Fail> {
    check_all(&rt, rt.alloc(), GIVEN)
}

#[test]
fn sites_by_lists_that_are_made_anew(rt: HostRuntime) -> Result<(), Fail> {
    check_all(&rt, rt.alloc(), MADE_ANEW)
}

#[test]
fn sites_at_many_atoms(rt: HostRuntime) -> Result<(), Fail> {
    check_all(&rt, rt.alloc(), MANY_ATOMS)
}

#[test]
fn units_whose_sites_are_not_tried(rt: HostRuntime) -> Result<(), Fail> {
    check_all(&rt, rt.alloc(), REFUSED)
}

/// One to three units with lists or groups of their own, on both lines, by each measure and by one that the line does not
/// have. The numbers are from outside: of a second program that shares no code with this one. So are the others here.
const GIVEN: &[Ended] = &[
    ("sweep a.csv A loss", Plain(HALF_LOAD), 0, Whole(ONE_ATOM)),
    (
        "sweep a.csv A loss",
        Plain(THIRD_LOAD_WITH_A_QUEUE),
        0,
        Lines(&["measure,loss", "site,P,0.000000,0.000000", "dropped,0"]),
    ),
    (
        "sweep a.csv A delay",
        Plain(THIRD_LOAD_WITH_A_QUEUE),
        0,
        Lines(&["measure,delay", "site,P,0.333333,0.333334", "dropped,0"]),
    ),
    (
        "sweep a.csv A travel",
        Plain(TWO_UNITS),
        0,
        Whole(FIRST_OF_TWO_BY_TRAVEL),
    ),
    (
        "sweep a.csv B loss",
        Plain(TWO_UNITS),
        0,
        Whole(SECOND_OF_TWO_BY_LOSS),
    ),
    (
        "sweep a.csv A delay",
        Plain(TWO_UNITS),
        0,
        Whole(FIRST_OF_TWO_BY_DELAY),
    ),
    (
        "sweep a.csv B travel",
        Plain(WITHOUT_CALLS),
        0,
        Lines(&["site,P,59.999,60.001", "dropped,1"]),
    ),
    (
        "sweep a.csv A travel",
        Plain(WITHOUT_CALLS),
        0,
        Lines(&["site,P,112.499,112.501", "dropped,1"]),
    ),
    (
        "sweep a.csv B travel",
        Plain(ONE_GROUP),
        0,
        Lines(&["site,P,179.999,180.001", "site,Q,179.999,180.001"]),
    ),
    (
        "sweep a.csv A interdistrict",
        Plain(ONE_GROUP),
        0,
        Lines(&[
            "site,P,0.499999,0.500001",
            "site,Q,0.499999,0.500001",
            "dropped,0",
        ]),
    ),
    (
        "sweep a.csv A travel",
        Plain(TOUCHING),
        0,
        Whole(ENDS_THAT_TOUCH),
    ),
    (
        "sweep a.csv C loss",
        Plain(THREE_IN_TURN),
        0,
        Lines(&[
            "site,P,0.178351,0.178352",
            "site,R,0.178351,0.178352",
            "site,S,0.178351,0.178352",
            "dropped,0",
        ]),
    ),
    (
        "sweep a.csv A travel",
        Plain(THREE_UNLIKE),
        0,
        Lines(&["unit,A", "site,Q,268.053,268.054", "dropped,2"]),
    ),
    (
        "sweep a.csv C travel",
        Plain(THREE_UNLIKE),
        0,
        Lines(&["unit,C", "site,Q,255.516,255.517", "dropped,2"]),
    ),
    (
        "sweep a.csv B delay",
        Plain(THREE_UNLIKE),
        0,
        Lines(&[
            "site,P,0.328779,0.328780",
            "site,R,0.328779,0.328780",
            "dropped,0",
        ]),
    ),
    (
        "sweep a.csv B interdistrict",
        Plain(THREE_UNLIKE),
        0,
        Lines(&["site,Q,0.549188,0.549189", "dropped,0"]),
    ),
    (
        "sweep a.csv ÜÜÜÜÜÜÜÜÜÜÜÜÜÜÜÜ interdistrict",
        Plain(LONG_NAME),
        0,
        Lines(&[
            "unit,ÜÜÜÜÜÜÜÜÜÜÜÜÜÜÜÜ",
            "site,P,0.686046,0.686047",
            "site,at,0.686046,0.686047",
        ]),
    ),
    (
        "sweep a.csv unit travel",
        Plain(LONG_NAME),
        0,
        Whole(UNIT_OF_THAT_NAME),
    ),
];

/// Lists that follow from where the units are, with a unit that leaves one of its kind behind at its station, and the same
/// by lists that do not follow.
const MADE_ANEW: &[Ended] = &[
    (
        "sweep a.csv A interdistrict",
        Longer(BETWEEN, "rule,modified\n"),
        0,
        Whole(FIRST_UNIT_BETWEEN),
    ),
    (
        "sweep a.csv B interdistrict",
        Longer(BETWEEN, "rule,modified\n"),
        0,
        Lines(&["site,P,0.354687,0.354688", "dropped,2"]),
    ),
    (
        "sweep a.csv A interdistrict",
        Longer(BETWEEN, "rule,strict\n"),
        0,
        Lines(&["site,P,0.354687,0.354688", "dropped,0"]),
    ),
    (
        "sweep a.csv B interdistrict",
        Longer(BETWEEN, "rule,strict\n"),
        0,
        Lines(&[
            "site,P,0.354687,0.354688",
            "site,Q,0.354687,0.354688",
            "dropped,1",
        ]),
    ),
    (
        "sweep a.csv A interdistrict",
        Longer(BETWEEN, "rule,modified\nline,infinite\n"),
        0,
        Lines(&[
            "site,R,0.464772,0.464773",
            "site,Q,0.464772,0.464773",
            "dropped,1",
        ]),
    ),
    (
        "sweep a.csv A delay",
        Longer(BETWEEN, "rule,strict\nline,infinite\n"),
        0,
        Lines(&["site,R,0.757575,0.757576", "dropped,0"]),
    ),
    (
        "sweep a.csv A interdistrict",
        Longer(BETWEEN, "prefer,P,A,B\nprefer,R,B,A\nprefer,Q,B,A\n"),
        0,
        Lines(&["site,P,0.495312,0.495313", "dropped,0"]),
    ),
    (
        "sweep a.csv B travel",
        Longer(BOTH_AT_ONE, "rule,modified\n"),
        0,
        Lines(&["site,Q,107.999,108.001", "dropped,1"]),
    ),
    (
        "sweep a.csv A travel",
        Longer(BOTH_AT_ONE, "rule,strict\n"),
        0,
        Lines(&["site,P,179.999,180.001", "dropped,1"]),
    ),
    (
        "sweep a.csv B interdistrict",
        Longer(BOTH_AT_ONE, "rule,strict\n"),
        0,
        Lines(&[
            "site,P,0.199999,0.200001",
            "site,Q,0.199999,0.200001",
            "dropped,0",
        ]),
    ),
];

/// As many atoms as plans are solved at once, and more, up to the most that a plan has.
const MANY_ATOMS: &[Ended] = &[
    (
        "sweep a.csv U1 travel",
        Made(4, 2),
        0,
        Lines(&["site,A12,577.875,577.876", "dropped,15"]),
    ),
    (
        "sweep a.csv U2 travel",
        Made(5, 3),
        0,
        Lines(&["site,A17,497.245,497.246", "dropped,19"]),
    ),
    (
        "sweep a.csv U2 interdistrict",
        Made(5, 3),
        0,
        Lines(&["site,A5,0.688502,0.688503", "dropped,19"]),
    ),
    (
        "sweep a.csv U2 loss",
        Made(5, 3),
        0,
        Lines(&[
            "site,A1,0.081231,0.081232",
            "site,A16,0.081231,0.081232",
            "site,A17,0.081231,0.081232",
            "site,A20,0.081231,0.081232",
            "dropped,0",
        ]),
    ),
    (
        "sweep a.csv U6 interdistrict",
        Made(6, 4),
        0,
        Lines(&["site,A4,0.774873,0.774874", "dropped,23"]),
    ),
    (
        "sweep a.csv U1 travel",
        Street(1),
        0,
        Whole(ONE_UNIT_ON_A_STREET),
    ),
    (
        "sweep a.csv U2 travel",
        Street(2),
        0,
        Whole(TWO_UNITS_ON_A_STREET),
    ),
];

/// Names that no unit has, plans that are none, and arguments that are no command.
const REFUSED: &[Ended] = &[
    ("sweep a.csv C loss", Plain(TWO_UNITS), 2, Whole(NO_UNIT)),
    ("sweep a.csv b travel", Plain(TWO_UNITS), 2, Whole(NO_UNIT)),
    (
        "sweep a.csv P interdistrict",
        Plain(TWO_UNITS),
        2,
        Whole(NO_UNIT),
    ),
    (
        "sweep a.csv BBBBBBBBBBBBBBBBBBBBBBBBBBBBBBBB delay",
        Plain(TWO_UNITS),
        2,
        Whole(NO_UNIT),
    ),
    (
        "sweep a.csv BBBBBBBBBBBBBBBBBBBBBBBBBBBBBBBBB delay",
        Plain(TWO_UNITS),
        1,
        Whole(USAGE),
    ),
    ("sweep a.csv B queue", Plain(TWO_UNITS), 1, Whole(USAGE)),
    (
        "sweep a.csv B loss --workers 2",
        Plain(TWO_UNITS),
        1,
        Whole(USAGE),
    ),
    (
        "sweep a.csv C loss",
        Plain("station,A\n"),
        2,
        Whole("refused,1,3,1\n"),
    ),
    ("sweep x.csv B loss", Plain(TWO_UNITS), 4, Whole("")),
];

const NO_UNIT: &str = "refused,1,85\n";

/// One unit, and sites whose mean trips differ by a thousandth of a second and by two.
const TOUCHING: &str = "\
unit,A,3000
atom,P,2998,0,0,A
atom,Q,1,10,0,A
atom,R,1,20,0,A
travel,P,P,10
travel,P,Q,11
travel,P,R,10
travel,Q,P,10
travel,Q,Q,12
travel,Q,R,12
travel,R,P,10
travel,R,Q,14
travel,R,R,13
at,A,Q,500
at,A,R,500
prefer,P,A
prefer,Q,A
prefer,R,A
";

/// A unit whose name has as many bytes as a name may have, and one whose name is the kind of a record.
const LONG_NAME: &str = "\
unit,ÜÜÜÜÜÜÜÜÜÜÜÜÜÜÜÜ,3
unit,unit,1
atom,P,1,0,0,unit
atom,at,2,7,0,unit
travel,P,P,0
travel,P,at,1
travel,at,P,1
travel,at,at,0
at,ÜÜÜÜÜÜÜÜÜÜÜÜÜÜÜÜ,P,1
at,ÜÜÜÜÜÜÜÜÜÜÜÜÜÜÜÜ,at,999
at,unit,at,1000
prefer,P,unit,ÜÜÜÜÜÜÜÜÜÜÜÜÜÜÜÜ
prefer,at,ÜÜÜÜÜÜÜÜÜÜÜÜÜÜÜÜ,unit
";

const ONE_ATOM: &str = "\
sweep,1
unit,A
measure,loss
site,P,0.333333,0.333334
dropped,0
end
";

pub(crate) const FIRST_OF_TWO_BY_TRAVEL: &str = "\
sweep,1
unit,A
measure,travel
site,P,107.999,108.001
dropped,1
end
";

const SECOND_OF_TWO_BY_LOSS: &str = "\
sweep,1
unit,B
measure,loss
site,P,0.117647,0.117648
site,Q,0.117647,0.117648
dropped,0
end
";

const FIRST_OF_TWO_BY_DELAY: &str = "\
sweep,1
unit,A
measure,delay
site,P,0.000000,0.000000
site,Q,0.000000,0.000000
dropped,0
end
";

const ENDS_THAT_TOUCH: &str = "\
sweep,1
unit,A
measure,travel
site,P,10.000,10.001
site,Q,10.001,10.002
dropped,1
end
";

const UNIT_OF_THAT_NAME: &str = "\
sweep,1
unit,unit
measure,travel
site,P,0.283,0.284
dropped,1
end
";

const FIRST_UNIT_BETWEEN: &str = "\
sweep,1
unit,A
measure,interdistrict
site,R,0.354687,0.354688
site,Q,0.354687,0.354688
dropped,1
end
";

const ONE_UNIT_ON_A_STREET: &str = "\
sweep,1
unit,U1
measure,travel
site,A100,380.000,380.000
site,A101,380.000,380.000
dropped,198
end
";

const TWO_UNITS_ON_A_STREET: &str = "\
sweep,1
unit,U2
measure,travel
site,A125,450.157,450.158
dropped,199
end
";

/// Arguments, the file, the unit, and the measure.
const ASKED: [(&str, &str, &str, Measure); 7] = [
    ("sweep a.csv A loss", "a.csv", "A", Measure::Loss),
    ("sweep a.csv A delay", "a.csv", "A", Measure::Delay),
    (
        "sweep a.csv B interdistrict",
        "a.csv",
        "B",
        Measure::Interdistrict,
    ),
    (
        "sweep a.csv travel travel",
        "a.csv",
        "travel",
        Measure::Travel,
    ),
    ("-- sweep -x.csv -A loss", "-x.csv", "-A", Measure::Loss),
    ("sweep 8 7 delay", "8", "7", Measure::Delay),
    (
        "sweep a.csv ÜÜÜÜÜÜÜÜÜÜÜÜÜÜÜÜ loss",
        "a.csv",
        "ÜÜÜÜÜÜÜÜÜÜÜÜÜÜÜÜ",
        Measure::Loss,
    ),
];

#[test]
fn files_units_and_measures(rt: HostRuntime) -> Result<(), Fail> {
    for (line, text, unit, measure) in ASKED {
        let file = name(&rt, rt.alloc(), text)?;
        let unit = name(&rt, rt.alloc(), unit)?;
        assert_eq!(rt;
            read(rt.alloc(), line)?,
            Ok(Command::Sweep {
                file,
                unit,
                measure
            }),
            "{line}"
        );
    }
    Ok(())
}
