use crate::cases::Text::{Changed, Longer, Made, Plain};
use crate::cases::Written::{Lines, Whole};
use crate::cases::{Ended, check_all};
use crate::commands::{USAGE, read};
use crate::finite::{LAST_ROW, TWELFTH};
use crate::words::name;
use hypercube_cli::Command;
use std::test::Fail;
use worked_plans::*;

#[test]
fn calls_to_few_units(rt: HostRuntime) -> Result<(), Fail> {
    check_all(&rt, rt.alloc(), FEW_UNITS)
}

#[test]
fn calls_to_many_units(rt: HostRuntime) -> Result<(), Fail> {
    check_all(&rt, rt.alloc(), MANY_UNITS)
}

#[test]
fn calls_that_may_not_need_two_units(rt: HostRuntime) -> Result<(), Fail> {
    check_all(&rt, rt.alloc(), REFUSED)
}

/// One to three units, of whose calls none, some or all need two. The numbers are from outside: of a second program that
/// shares no code with this one. So are those of more units.
const FEW_UNITS: &[Ended] = &[
    ("pairs a.csv 100", Plain(HALF_LOAD), 0, Whole(ONE_UNIT_ALL)),
    (
        "pairs a.csv 37",
        Plain(LITTLE_MORE),
        0,
        Lines(&[
            "percent,37",
            "loss,0.333334,0.333335",
            "short,0.666665,0.666666",
            "workload,A,0.333334,0.333335",
            "end",
        ]),
    ),
    ("pairs a.csv 100", Plain(TWO_UNITS), 0, Whole(TWO_UNITS_ALL)),
    (
        "pairs a.csv 037",
        Plain(TWO_UNITS),
        0,
        Lines(&[
            "percent,37",
            "loss,0.171728,0.171729",
            "short,0.331308,0.331309",
            "workload,A,0.337382,0.337383",
            "workload,B,0.337382,0.337383",
            "pair,A,B,1.000000,1.000000",
        ]),
    ),
    (
        "pairs a.csv 0",
        Plain(TWO_UNITS),
        0,
        Lines(&[
            "percent,0",
            "loss,0.117647,0.117648",
            "short,0.352941,0.352942",
            "workload,A,0.294117,0.294118",
            "workload,B,0.294117,0.294118",
            "pair,A,B,1.000000,1.000000",
        ]),
    ),
    (
        "pairs a.csv 0",
        Changed(TWO_UNITS, LISTS, GROUPS_OF_ONE),
        0,
        Lines(&[
            "loss,0.117647,0.117648",
            "short,0.352941,0.352942",
            "workload,A,0.294117,0.294118",
            "workload,B,0.294117,0.294118",
        ]),
    ),
    (
        "pairs a.csv 1",
        Plain(WITHOUT_CALLS),
        0,
        Lines(&[
            "loss,0.041150,0.041151",
            "short,0.239712,0.239713",
            "workload,A,0.249999,0.250001",
            "workload,B,0.072013,0.072014",
            "pair,A,B,1.000000,1.000000",
        ]),
    ),
    (
        "pairs a.csv 100",
        Plain(THREE_UNITS),
        0,
        Lines(&[
            "loss,0.000000,0.000001",
            "short,0.000001,0.000002",
            "workload,A,0.000003,0.000004",
            "workload,B,0.000003,0.000004",
            "workload,C,0.000000,0.000001",
            "pair,A,B,0.999996,0.999997",
            "pair,A,C,0.000001,0.000002",
            "pair,B,C,0.000001,0.000002",
        ]),
    ),
    (
        "pairs a.csv 1",
        Plain(THREE_IN_TURN),
        0,
        Whole(THREE_IN_TURN_ONE),
    ),
    (
        "pairs a.csv 37",
        Plain(THREE_IN_TURN),
        0,
        Whole(THREE_IN_TURN_SOME),
    ),
];

/// Four to ten units, of whose calls none, some or all need two.
const MANY_UNITS: &[Ended] = &[
    (
        "pairs a.csv 0",
        Made(4, 2),
        0,
        Lines(&[
            "loss,0.105804,0.105805",
            "short,0.201531,0.201532",
            "workload,U1,0.502622,0.502623",
            "workload,U2,0.439278,0.439279",
            "workload,U3,0.441734,0.441735",
            "workload,U4,0.494175,0.494176",
            "pair,U1,U2,0.107300,0.107301",
            "pair,U1,U3,0.237420,0.237421",
            "pair,U1,U4,0.060433,0.060434",
        ]),
    ),
    (
        "pairs a.csv 1",
        Made(5, 3),
        0,
        Lines(&[
            "loss,0.083465,0.083466",
            "short,0.155166,0.155167",
            "workload,U1,0.518549,0.518550",
            "workload,U5,0.465961,0.465962",
            "pair,U4,U5,0.066509,0.066510",
        ]),
    ),
    (
        "pairs a.csv 37",
        Made(6, 4),
        0,
        Lines(&[
            "loss,0.141637,0.141638",
            "short,0.184123,0.184124",
            "workload,U1,0.635371,0.635372",
            "workload,U6,0.621620,0.621621",
            "pair,U3,U4,0.027979,0.027980",
            "pair,U3,U5,0.059898,0.059899",
            "pair,U3,U6,0.095503,0.095504",
        ]),
    ),
    (
        "pairs a.csv 37",
        Plain(SEVEN_OVERLOADED),
        0,
        Whole(SEVEN_OVERLOADED_SOME),
    ),
    (
        "pairs a.csv 100",
        Plain(SEVEN_SWAMPED),
        0,
        Whole(SEVEN_SWAMPED_ALL),
    ),
    (
        "pairs a.csv 100",
        Made(8, 5),
        0,
        Lines(&[
            "loss,0.200238,0.200239",
            "short,0.202619,0.202620",
            "workload,U1,0.738337,0.738338",
            "workload,U8,0.674610,0.674611",
            "pair,U5,U6,0.062924,0.062925",
            "pair,U5,U7,0.029572,0.029573",
            "pair,U5,U8,0.038499,0.038500",
        ]),
    ),
    (
        "pairs a.csv 37",
        Made(9, 6),
        0,
        Lines(&[
            "loss,0.083200,0.083201",
            "short,0.113704,0.113705",
            "workload,U1,0.570515,0.570516",
            "workload,U9,0.581317,0.581318",
            "pair,U6,U7,0.039669,0.039670",
            "pair,U6,U8,0.011600,0.011601",
            "pair,U6,U9,0.072306,0.072307",
        ]),
    ),
    ("pairs a.csv 50", Made(10, 7), 0, Whole(TEN_UNITS_HALF)),
];

/// Plans that are refused, each also with the later faults, those that are none, and words that are no command.
const REFUSED: &[Ended] = &[
    (
        "pairs a.csv 0",
        Plain(THIRD_LOAD_WITH_A_QUEUE),
        2,
        Whole("refused,1,82\n"),
    ),
    (
        "pairs a.csv 0",
        Longer(ONE_GROUP, "line,infinite\n"),
        2,
        Whole("refused,1,82\n"),
    ),
    (
        "pairs a.csv 0",
        Longer(ELEVEN_UNITS, "line,infinite\n"),
        2,
        Whole("refused,1,82\n"),
    ),
    (
        "pairs a.csv 0",
        Plain(ELEVEN_UNITS),
        2,
        Whole("refused,1,83,11\n"),
    ),
    (
        "pairs a.csv 0",
        Changed(ELEVEN_UNITS, LAST_ROW, TWELFTH),
        2,
        Whole("refused,1,83,12\n"),
    ),
    (
        "pairs a.csv 0",
        Changed(ELEVEN_UNITS, "prefer,", b"version,2\ngroup,"),
        2,
        Whole("refused,1,83,11\n"),
    ),
    (
        "pairs a.csv 0",
        Plain(ONE_GROUP),
        2,
        Whole("refused,1,84,1\n"),
    ),
    (
        "pairs a.csv 100",
        Changed(ONE_GROUP, "group,P,", b"prefer,P,"),
        2,
        Whole("refused,1,84,2\n"),
    ),
    (
        "pairs a.csv 100",
        Plain("station,A\n"),
        2,
        Whole("refused,1,3,1\n"),
    ),
    ("pairs x.csv 100", Plain(HALF_LOAD), 4, Whole("")),
    ("pairs a.csv 101", Plain(HALF_LOAD), 1, Whole(USAGE)),
    (
        "pairs a.csv 50 --summary",
        Plain(HALF_LOAD),
        1,
        Whole(USAGE),
    ),
];

/// The lists of two units, and the same as groups of one unit each.
const LISTS: &str = "prefer,P,A,B\nprefer,Q,B,A\n";

const GROUPS_OF_ONE: &[u8] = b"version,2\ngroup,P,A\ngroup,P,B\ngroup,Q,B\ngroup,Q,A\n";

const ONE_UNIT_ALL: &str = "\
pairs,1
percent,100
loss,0.333333,0.333334
short,0.666666,0.666667
workload,A,0.333333,0.333334
end
";

pub(crate) const TWO_UNITS_ALL: &str = "\
pairs,1
percent,100
loss,0.249999,0.250001
short,0.299999,0.300001
workload,A,0.399999,0.400001
workload,B,0.399999,0.400001
pair,A,B,1.000000,1.000000
end
";

const THREE_IN_TURN_ONE: &str = "\
pairs,1
percent,1
loss,0.180303,0.180304
short,0.315609,0.315610
workload,A,0.538122,0.538123
workload,B,0.624621,0.624622
workload,C,0.348329,0.348330
pair,A,B,0.164954,0.164955
pair,A,C,0.427810,0.427811
pair,B,C,0.407235,0.407236
end
";

const THREE_IN_TURN_SOME: &str = "\
pairs,1
percent,37
loss,0.241438,0.241439
short,0.318225,0.318226
workload,A,0.570403,0.570404
workload,B,0.657676,0.657677
workload,C,0.427101,0.427102
pair,A,B,0.183378,0.183379
pair,A,C,0.425466,0.425467
pair,B,C,0.391155,0.391156
end
";

const SEVEN_OVERLOADED_SOME: &str = "\
pairs,1
percent,37
loss,0.775871,0.775872
short,0.180960,0.180961
workload,M1,0.958606,0.958607
workload,M2,0.955202,0.955203
workload,M3,0.953940,0.953941
workload,M4,0.952480,0.952481
workload,M5,0.974310,0.974311
workload,M6,0.976008,0.976009
workload,M7,0.954229,0.954230
pair,M1,M2,0.054790,0.054791
pair,M1,M3,0.059119,0.059120
pair,M1,M4,0.062326,0.062327
pair,M1,M5,0.032749,0.032750
pair,M1,M6,0.032594,0.032595
pair,M1,M7,0.069066,0.069067
pair,M2,M3,0.058468,0.058469
pair,M2,M4,0.060378,0.060379
pair,M2,M5,0.036757,0.036758
pair,M2,M6,0.035315,0.035316
pair,M2,M7,0.067259,0.067260
pair,M3,M4,0.061739,0.061740
pair,M3,M5,0.033959,0.033960
pair,M3,M6,0.031038,0.031039
pair,M3,M7,0.063629,0.063630
pair,M4,M5,0.034739,0.034740
pair,M4,M6,0.037442,0.037443
pair,M4,M7,0.070598,0.070599
pair,M5,M6,0.019370,0.019371
pair,M5,M7,0.038810,0.038811
pair,M6,M7,0.039843,0.039844
end
";

const SEVEN_SWAMPED_ALL: &str = "\
pairs,1
percent,100
loss,0.999986,0.999988
short,0.000012,0.000014
workload,M1,0.999998,1.000000
workload,M2,0.999997,0.999999
workload,M3,0.999996,0.999998
workload,M4,0.999998,1.000000
workload,M5,0.999997,0.999999
workload,M6,0.999996,0.999998
workload,M7,0.999998,1.000000
pair,M1,M2,0.027995,0.029159
pair,M1,M3,0.042007,0.043724
pair,M1,M4,0.013993,0.014603
pair,M1,M5,0.027995,0.029168
pair,M1,M6,0.042008,0.043732
pair,M1,M7,0.013993,0.014615
pair,M2,M3,0.084088,0.087345
pair,M2,M4,0.027994,0.029154
pair,M2,M5,0.056026,0.058278
pair,M2,M6,0.084090,0.087368
pair,M2,M7,0.027995,0.029165
pair,M3,M4,0.042007,0.043713
pair,M3,M5,0.084088,0.087349
pair,M3,M6,0.126243,0.130902
pair,M3,M7,0.042007,0.043718
pair,M4,M5,0.027994,0.029156
pair,M4,M6,0.042008,0.043735
pair,M4,M7,0.013993,0.014596
pair,M5,M6,0.084089,0.087359
pair,M5,M7,0.027995,0.029166
pair,M6,M7,0.042008,0.043736
end
";

const TEN_UNITS_HALF: &str = "\
pairs,1
percent,50
loss,0.086283,0.086284
short,0.112128,0.112129
workload,U1,0.613777,0.613778
workload,U2,0.564245,0.564246
workload,U3,0.570377,0.570378
workload,U4,0.669989,0.669990
workload,U5,0.626158,0.626159
workload,U6,0.646709,0.646710
workload,U7,0.700424,0.700425
workload,U8,0.641577,0.641578
workload,U9,0.636853,0.636854
workload,U10,0.639537,0.639538
pair,U1,U2,0.009108,0.009109
pair,U1,U3,0.007854,0.007855
pair,U1,U4,0.019122,0.019123
pair,U1,U5,0.019487,0.019488
pair,U1,U6,0.009628,0.009629
pair,U1,U7,0.049746,0.049747
pair,U1,U8,0.027909,0.027910
pair,U1,U9,0.024502,0.024503
pair,U1,U10,0.015660,0.015661
pair,U2,U3,0.057104,0.057105
pair,U2,U4,0.013514,0.013515
pair,U2,U5,0.011431,0.011432
pair,U2,U6,0.044369,0.044370
pair,U2,U7,0.009982,0.009983
pair,U2,U8,0.012107,0.012108
pair,U2,U9,0.012462,0.012463
pair,U2,U10,0.013093,0.013094
pair,U3,U4,0.028613,0.028614
pair,U3,U5,0.010059,0.010060
pair,U3,U6,0.037378,0.037379
pair,U3,U7,0.011371,0.011372
pair,U3,U8,0.010387,0.010388
pair,U3,U9,0.022591,0.022592
pair,U3,U10,0.011746,0.011747
pair,U4,U5,0.010887,0.010888
pair,U4,U6,0.028390,0.028391
pair,U4,U7,0.034111,0.034112
pair,U4,U8,0.019182,0.019183
pair,U4,U9,0.056487,0.056488
pair,U4,U10,0.007435,0.007436
pair,U5,U6,0.015709,0.015710
pair,U5,U7,0.015334,0.015335
pair,U5,U8,0.053360,0.053361
pair,U5,U9,0.007630,0.007631
pair,U5,U10,0.072166,0.072167
pair,U6,U7,0.018518,0.018519
pair,U6,U8,0.018385,0.018386
pair,U6,U9,0.016820,0.016821
pair,U6,U10,0.016291,0.016292
pair,U7,U8,0.033240,0.033241
pair,U7,U9,0.029223,0.029224
pair,U7,U10,0.011398,0.011399
pair,U8,U9,0.010154,0.010155
pair,U8,U10,0.029989,0.029990
pair,U9,U10,0.006046,0.006047
end
";

/// Arguments, the file, and how many of a hundred calls need two units.
const ASKED: [(&str, &str, u32); 6] = [
    ("pairs a.csv 0", "a.csv", 0),
    ("pairs a.csv 007", "a.csv", 7),
    ("pairs a.csv 99", "a.csv", 99),
    ("pairs a.csv 100", "a.csv", 100),
    ("-- pairs -x.csv 50", "-x.csv", 50),
    ("pairs 8 7", "8", 7),
];

#[test]
fn files_and_percents(rt: HostRuntime) -> Result<(), Fail> {
    for (line, text, percent) in ASKED {
        let file = name(&rt, rt.alloc(), text)?;
        assert_eq!(rt;
            read(rt.alloc(), line)?,
            Ok(Command::Pairs { file, percent }),
            "{line}"
        );
    }
    Ok(())
}
