use crate::cases::Text::{Longer, Plain, Street};
use crate::cases::Written::{Lines, Whole};
use crate::cases::{Ended, check_all};
use crate::commands::{USAGE, read};
use crate::reports::*;
use crate::studies::{TWO_AND_HALF, TWO_AND_HALF_COMPARED};
use hyper_model::Limits;
use hypercube_cli::{Command, Name255};
use std::alloc::{AllocError, Global};
use std::test::Fail;
use worked_plans::*;

#[test]
fn calls_that_are_reached_in_time(rt: HostRuntime) -> Result<(), Fail> {
    check_all(&rt, rt.alloc(), REACHED)
}

#[test]
fn calls_that_cannot_be_reached(rt: HostRuntime) -> Result<(), Fail> {
    check_all(&rt, rt.alloc(), REFUSED)
}

#[test]
fn reports_by_a_certificate(rt: HostRuntime) -> Result<(), Fail> {
    check_all(&rt, rt.alloc(), CERTIFIED)
}

/// On both lines, with lists and groups, units that spread their time, a district without calls, and limits of one number to
/// sixteen. The numbers are from outside: of a second program that shares no code with this one.
const REACHED: &[Ended] = &[
    ("reach a.csv 300", Plain(HALF_LOAD), 0, Whole(HALF_REACHED)),
    (
        "reach a.csv 0,60,299,300",
        Plain(TWO_UNITS),
        0,
        Whole(TWO_REACHED),
    ),
    (
        "reach a.csv 60,300",
        Plain(TWO_UNITS_WITH_A_QUEUE),
        0,
        Whole(TWO_WITH_A_QUEUE_REACHED),
    ),
    (
        "reach a.csv 60,300",
        Plain(WITHOUT_CALLS),
        0,
        Whole(WITHOUT_CALLS_REACHED),
    ),
    (
        "reach a.csv 90,300,720",
        Plain(THREE_UNLIKE),
        0,
        Whole(UNLIKE_REACHED),
    ),
    (
        "reach a.csv 0,60,79,80,89,90,290,300,379,380,409,410,699,700,720,100000",
        Plain(THREE_UNLIKE),
        0,
        Lines(&[
            "seconds,0,60,79,80,89,90,290,300,379,380,409,410,699,700,720,100000",
            "region,0.000000,0.000000,0.214995,0.214996,0.214995,0.214996,0.310391,0.310392,0.310391,0.310392,0.451698,0.451699,0.530393,0.530394,0.590217,0.590218,0.590217,0.590218,0.692619,0.692620,0.692619,0.692620,0.860467,0.860468,0.860467,0.860468,0.924451,0.924452,0.999999,1.000000,0.999999,1.000000",
            "at-once,0.000000,0.000000,0.144959,0.144960,0.144959,0.144960,0.222846,0.222847,0.222846,0.222847,0.333026,0.333027,0.376703,0.376704,0.401509,0.401510,0.401509,0.401510,0.457220,0.457221,0.457220,0.457221,0.578378,0.578379,0.578378,0.578379,0.619016,0.619017,0.671220,0.671221,0.671220,0.671221",
        ]),
    ),
    (
        "reach a.csv 60,300",
        Plain(ONE_GROUP),
        0,
        Lines(&[
            "region,0.499999,0.500001,0.999999,1.000000",
            "at-once,0.441176,0.441177,0.882352,0.882353",
        ]),
    ),
    (
        "reach a.csv 59,60",
        Longer(BETWEEN, "rule,modified\nline,infinite\n"),
        0,
        Lines(&[
            "all,0.000000,0.000000,0.999999,1.000000",
            "at-once,0.000000,0.000000,0.242424,0.242425",
        ]),
    ),
    (
        "reach a.csv 000060,299,100000",
        Longer(BOTH_AT_ONE, "rule,strict\n"),
        0,
        Lines(&[
            "seconds,60,299,100000",
            "unit,A,0.799999,0.800001,0.799999,0.800001,0.999999,1.000000",
            "unit,B,0.199999,0.200001,0.199999,0.200001,0.999999,1.000000",
        ]),
    ),
    (
        "reach a.csv 100,700",
        Street(2),
        0,
        Lines(&[
            "region,0.057965,0.057966,0.482965,0.482966",
            "at-once,0.041974,0.041975,0.349733,0.349734",
        ]),
    ),
];

/// Plans that are none, a file that is not there, and words that are no command.
const REFUSED: &[Ended] = &[
    (
        "reach a.csv 60",
        Plain("station,A\n"),
        2,
        Whole("refused,1,3,1\n"),
    ),
    ("reach x.csv 60", Plain(TWO_UNITS), 4, Whole("")),
    ("reach a.csv 60,60", Plain(TWO_UNITS), 1, Whole(USAGE)),
    (
        "reach a.csv 60 --workers 2",
        Plain(TWO_UNITS),
        1,
        Whole(USAGE),
    ),
    (
        "solve a.csv --method certificate",
        Plain("station,A\n"),
        2,
        Whole("refused,1,3,1\n"),
    ),
    (
        "solve x.csv --method certificate",
        Plain(TWO_UNITS),
        4,
        Whole(""),
    ),
    (
        "solve a.csv --method gauss",
        Plain(TWO_UNITS),
        1,
        Whole(USAGE),
    ),
    (
        "finite a.csv 1 --method certificate",
        Plain(TWO_UNITS),
        1,
        Whole(USAGE),
    ),
    (
        "compare x.toml --method certificate",
        Plain(TWO_AND_HALF),
        4,
        Whole(""),
    ),
];

/// The ends of a certificate are not those of an elimination, but as near to the measures of these plans: their reports are
/// the same, by any number of workers.
const CERTIFIED: &[Ended] = &[
    (
        "solve a.csv --method certificate",
        Plain(HALF_LOAD),
        0,
        Whole(HALF_LOAD_REPORT),
    ),
    (
        "solve a.csv --method=certificate",
        Plain(THIRD_LOAD),
        0,
        Whole(THIRD_LOAD_REPORT),
    ),
    (
        "solve a.csv --method certificate",
        Plain(THIRD_LOAD_WITH_A_QUEUE),
        0,
        Whole(THIRD_LOAD_WITH_A_QUEUE_REPORT),
    ),
    (
        "--method certificate solve a.csv --summary",
        Plain(HALF_LOAD),
        0,
        Whole(HALF_LOAD_SUMMARY),
    ),
    (
        "solve a.csv --method certificate --workers 3",
        Plain(TWO_UNITS),
        0,
        Whole(TWO_UNITS_REPORT),
    ),
    (
        "solve a.csv --method certificate",
        Plain(ONE_GROUP),
        0,
        Whole(ONE_GROUP_REPORT),
    ),
    (
        "solve a.csv --method elimination",
        Plain(TWO_UNITS),
        0,
        Whole(TWO_UNITS_REPORT),
    ),
    (
        "compare s.toml --method certificate",
        Plain(TWO_AND_HALF),
        0,
        Whole(TWO_AND_HALF_COMPARED),
    ),
    (
        "compare s.toml --method certificate --workers 2",
        Plain(TWO_AND_HALF),
        0,
        Whole(TWO_AND_HALF_COMPARED),
    ),
];

const HALF_REACHED: &str = "\
reach,1
seconds,300
region,1.000000,1.000000
all,0.666666,0.666667
at-once,0.666666,0.666667
atom,P,1.000000,1.000000
unit,A,1.000000,1.000000
district,A,1.000000,1.000000
end
";

const TWO_REACHED: &str = "\
reach,1
seconds,0,60,299,300
region,0.000000,0.000000,0.799999,0.800001,0.799999,0.800001,0.999999,1.000000
all,0.000000,0.000000,0.705882,0.705883,0.705882,0.705883,0.882352,0.882353
at-once,0.000000,0.000000,0.705882,0.705883,0.705882,0.705883,0.882352,0.882353
atom,P,0.000000,0.000000,0.799999,0.800001,0.799999,0.800001,0.999999,1.000000
atom,Q,0.000000,0.000000,0.799999,0.800001,0.799999,0.800001,0.999999,1.000000
unit,A,0.000000,0.000000,0.799999,0.800001,0.799999,0.800001,0.999999,1.000000
unit,B,0.000000,0.000000,0.799999,0.800001,0.799999,0.800001,0.999999,1.000000
district,A,0.000000,0.000000,0.799999,0.800001,0.799999,0.800001,0.999999,1.000000
district,B,0.000000,0.000000,0.799999,0.800001,0.799999,0.800001,0.999999,1.000000
end
";

const TWO_WITH_A_QUEUE_REACHED: &str = "\
reach,1
seconds,60,300
region,0.749999,0.750001,0.999999,1.000000
all,0.749999,0.750001,0.999999,1.000000
at-once,0.666666,0.666667,0.833333,0.833334
atom,P,0.749999,0.750001,0.999999,1.000000
atom,Q,0.749999,0.750001,0.999999,1.000000
unit,A,0.749999,0.750001,0.999999,1.000000
unit,B,0.749999,0.750001,0.999999,1.000000
district,A,0.749999,0.750001,0.999999,1.000000
district,B,0.749999,0.750001,0.999999,1.000000
end
";

const WITHOUT_CALLS_REACHED: &str = "\
reach,1
seconds,60,300
region,0.781249,0.781251,0.999999,1.000000
all,0.749999,0.750001,0.959999,0.960001
at-once,0.749999,0.750001,0.959999,0.960001
atom,P,0.781249,0.781251,0.999999,1.000000
atom,Q,0.968749,0.968751,0.999999,1.000000
unit,A,0.999999,1.000000,0.999999,1.000000
unit,B,0.000000,0.000000,0.999999,1.000000
district,A,0.781249,0.781251,0.999999,1.000000
district,B,none
end
";

const UNLIKE_REACHED: &str = "\
reach,1
seconds,90,300,720
region,0.451698,0.451699,0.590217,0.590218,0.999999,1.000000
all,0.451698,0.451699,0.590217,0.590218,0.999999,1.000000
at-once,0.333026,0.333027,0.401509,0.401510,0.671220,0.671221
atom,P,0.459245,0.459246,0.459245,0.459246,0.999999,1.000000
atom,Q,0.465822,0.465823,0.636329,0.636330,0.999999,1.000000
atom,R,0.413385,0.413386,0.672622,0.672623,0.999999,1.000000
unit,A,0.430983,0.430984,0.500141,0.500142,0.999999,1.000000
unit,B,0.590348,0.590349,0.741477,0.741478,0.999999,1.000000
unit,C,0.384786,0.384787,0.574500,0.574501,0.999999,1.000000
district,A,0.459245,0.459246,0.459245,0.459246,0.999999,1.000000
district,B,0.465822,0.465823,0.636329,0.636330,0.999999,1.000000
district,C,0.413385,0.413386,0.672622,0.672623,0.999999,1.000000
end
";

/// Arguments, the file, and the limits.
const ASKED: [(&str, &str, &[u32]); 6] = [
    ("reach a.csv 480", "a.csv", &[480]),
    ("reach a.csv 0", "a.csv", &[0]),
    ("reach a.csv 000000,000001", "a.csv", &[0, 1]),
    (
        "reach a.csv 240,480,720,100000",
        "a.csv",
        &[240, 480, 720, 100_000],
    ),
    ("-- reach -x.csv 7", "-x.csv", &[7]),
    (
        "reach 8 1,2,3,4,5,6,7,8,9,10,11,12,13,14,15,16",
        "8",
        &[1, 2, 3, 4, 5, 6, 7, 8, 9, 10, 11, 12, 13, 14, 15, 16],
    ),
];

#[test]
fn files_and_limits(rt: HostRuntime) -> Result<(), Fail> {
    for (line, text, seconds) in ASKED {
        let (file, limits) = asked(rt.alloc(), line)?;
        assert_eq!(rt; file.text(), text, "{line}");
        assert_eq!(rt; limits.as_slice(), seconds, "{line}");
    }
    Ok(())
}

fn asked(alloc: Global, line: &str) -> Result<(Name255, Vec<u32>), Fail> {
    let Ok(Command::Reach { file, limits }) = read(alloc, line)? else {
        return Err("no such command".into())
    };
    Ok((file, seconds_of(alloc, limits.limits())?))
}

fn seconds_of(alloc: Global, limits: &Limits) -> Result<Vec<u32>, AllocError> {
    let mut seconds = Vec::new(alloc);
    for place in 0..limits.len() {
        seconds.push(*limits.get(place))?;
    }
    Ok(seconds)
}
