use crate::cases::Text::{Changed, Longer, Plain};
use crate::cases::Written::{Lines, Whole};
use crate::cases::{Ended, check_all};
use crate::commands::{USAGE, read};
use crate::words::name;
use hypercube_cli::Command;
use std::test::Fail;
use worked_plans::*;

#[test]
fn lines_with_so_many_places(rt: HostRuntime) -> Result<(), Fail> {
    check_all(&rt, rt.alloc(), ENDED)
}

/// Lines of one, of two and of a thousand places, for one to eleven units that are seldom and always busy; then twelve
/// units and calls that wait without end, which are refused, and plans that are none. The numbers are from outside: of a
/// second program that shares no code with this one, and those of eleven units by a closed formula.
const ENDED: &[Ended] = &[
    (
        "finite a.csv 1",
        Plain(HALF_LOAD),
        0,
        Whole(HALF_LOAD_ONE_PLACE),
    ),
    (
        "finite a.csv 0001",
        Plain(HALF_LOAD),
        0,
        Whole(HALF_LOAD_ONE_PLACE),
    ),
    (
        "finite a.csv 1000",
        Plain(HALF_LOAD),
        0,
        Lines(&[
            "places,1000",
            "lost,0.000000,0.000001",
            "delayed,0.499999,0.500001",
            "busy,0.499999,0.500001",
            "queue,0.499999,0.500001",
            "wait,1799.999,1800.001",
        ]),
    ),
    (
        "finite a.csv 2",
        Plain(TEN_LOADS),
        0,
        Whole(TEN_LOADS_TWO_PLACES),
    ),
    (
        "finite a.csv 1000",
        Plain(TEN_LOADS),
        0,
        Lines(&[
            "lost,0.899999,0.900001",
            "delayed,0.099999,0.100001",
            "busy,0.999999,1.000000",
            "queue,999.888888,999.888889",
            "wait,3599599.999,3599600.001",
        ]),
    ),
    (
        "finite a.csv 1",
        Longer(LITTLE_MORE, "period,86400\n"),
        0,
        Lines(&[
            "lost,0.142858,0.142859",
            "delayed,0.285714,0.285715",
            "queue,0.142858,0.142859",
            "wait,0.144,0.145",
        ]),
    ),
    (
        "finite a.csv 2",
        Plain(TWO_UNITS),
        0,
        Whole(TWO_UNITS_TWO_PLACES),
    ),
    (
        "finite a.csv 1",
        Plain(ONE_GROUP),
        0,
        Whole(ONE_GROUP_ONE_PLACE),
    ),
    (
        "finite a.csv 1",
        Plain(THREE_UNITS),
        0,
        Lines(&[
            "lost,0.000000,0.000001",
            "wait,0.000,0.001",
            "workload,A,0.000003,0.000004",
            "workload,C,0.000000,0.000001",
        ]),
    ),
    (
        "finite a.csv 1000",
        Plain(THREE_IN_TURN),
        0,
        Whole(THREE_IN_TURN_THOUSAND_PLACES),
    ),
    (
        "finite a.csv 2",
        Plain(SIX_IN_GROUPS),
        0,
        Whole(SIX_IN_GROUPS_TWO_PLACES),
    ),
    (
        "finite a.csv 1",
        Plain(SEVEN_OVERLOADED),
        0,
        Whole(SEVEN_OVERLOADED_ONE_PLACE),
    ),
    (
        "finite a.csv 1000",
        Plain(SEVEN_SWAMPED),
        0,
        Whole(SEVEN_SWAMPED_THOUSAND_PLACES),
    ),
    (
        "finite a.csv 2",
        Plain(ELEVEN_UNITS),
        0,
        Lines(&[
            "lost,0.006710,0.006711",
            "delayed,0.034855,0.034856",
            "busy,0.041566,0.041567",
            "queue,0.025722,0.025723",
            "wait,15.537,15.538",
        ]),
    ),
    (
        "finite a.csv 1",
        Plain(THIRD_LOAD_WITH_A_QUEUE),
        2,
        Whole("refused,1,80\n"),
    ),
    (
        "finite a.csv 1",
        Changed(ELEVEN_UNITS, LAST_ROW, TWELFTH),
        2,
        Whole("refused,1,81,12\n"),
    ),
    (
        "finite a.csv 1",
        Changed(ELEVEN_UNITS, LAST_ROW, TWELFTH_WITH_A_QUEUE),
        2,
        Whole("refused,1,80\n"),
    ),
    (
        "finite a.csv 1",
        Plain("station,A\n"),
        2,
        Whole("refused,1,3,1\n"),
    ),
    ("finite x.csv 1", Plain(HALF_LOAD), 4, Whole("")),
    ("finite a.csv 0", Plain(HALF_LOAD), 1, Whole(USAGE)),
    ("finite a.csv 1001", Plain(HALF_LOAD), 1, Whole(USAGE)),
    (
        "finite a.csv 1 --workers 2",
        Plain(HALF_LOAD),
        1,
        Whole(USAGE),
    ),
];

/// The list of eleven units, and in its place a twelfth unit and lists by distance.
pub(crate) const LAST_ROW: &str = "prefer,P,U1,U2,U3,U4,U5,U6,U7,U8,U9,U10,U11\n";

pub(crate) const TWELFTH: &[u8] = b"unit,U12,1\nat,U12,P,1000\nrule,modified\n";

const TWELFTH_WITH_A_QUEUE: &[u8] = b"unit,U12,1\nat,U12,P,1000\nrule,modified\nline,infinite\n";

pub(crate) const HALF_LOAD_ONE_PLACE: &str = "\
finite,1
places,1
lost,0.142857,0.142858
delayed,0.285714,0.285715
busy,0.428571,0.428572
queue,0.142857,0.142858
wait,600.000,600.000
workload,A,0.428571,0.428572
end
";

const TEN_LOADS_TWO_PLACES: &str = "\
finite,1
places,2
lost,0.900090,0.900091
delayed,0.099009,0.099010
busy,0.999099,0.999100
queue,1.890189,1.890190
wait,6810.810,6810.811
workload,A,0.999099,0.999100
end
";

const TWO_UNITS_TWO_PLACES: &str = "\
finite,1
places,2
lost,0.012422,0.012423
delayed,0.149068,0.149069
busy,0.161490,0.161491
queue,0.062111,0.062112
wait,113.207,113.208
workload,A,0.329192,0.329193
workload,B,0.329192,0.329193
end
";

const ONE_GROUP_ONE_PLACE: &str = "\
finite,1
places,1
lost,0.037735,0.037736
delayed,0.113207,0.113208
busy,0.150943,0.150944
queue,0.037735,0.037736
wait,70.588,70.589
workload,A,0.320754,0.320755
workload,B,0.320754,0.320755
end
";

const THREE_IN_TURN_THOUSAND_PLACES: &str = "\
finite,1
places,1000
lost,0.000000,0.000001
delayed,0.332999,0.333000
busy,0.332999,0.333000
queue,0.432899,0.432900
wait,119.879,119.880
workload,A,0.624239,0.624240
workload,B,0.694441,0.694442
workload,C,0.468919,0.468920
end
";

const SIX_IN_GROUPS_TWO_PLACES: &str = "\
finite,1
places,2
lost,0.603175,0.603176
delayed,0.340207,0.340208
busy,0.943383,0.943384
queue,1.448969,1.448970
wait,18.359,18.360
workload,M1,0.983313,0.983314
workload,M2,0.984304,0.984305
workload,M3,0.988199,0.988200
workload,M4,0.988254,0.988255
workload,M5,0.989825,0.989826
workload,M6,0.986973,0.986974
end
";

const SEVEN_OVERLOADED_ONE_PLACE: &str = "\
finite,1
places,1
lost,0.752273,0.752274
delayed,0.188452,0.188453
busy,0.940726,0.940727
queue,0.752273,0.752274
wait,5.589,5.590
workload,M1,0.989194,0.989195
workload,M2,0.987981,0.987982
workload,M3,0.987234,0.987235
workload,M4,0.987353,0.987354
workload,M5,0.993020,0.993021
workload,M6,0.993624,0.993625
workload,M7,0.987926,0.987927
end
";

const SEVEN_SWAMPED_THOUSAND_PLACES: &str = "\
finite,1
places,1000
lost,0.999986,0.999988
delayed,0.000012,0.000014
busy,0.999999,1.000000
queue,981.959379,1000.000000
wait,271927.203,276923.077
workload,M1,0.999999,1.000000
workload,M2,0.999999,1.000000
workload,M3,0.999999,1.000000
workload,M4,0.999999,1.000000
workload,M5,0.999999,1.000000
workload,M6,0.999999,1.000000
workload,M7,0.999999,1.000000
end
";

/// Arguments, the file, and the places.
const ASKED: [(&str, &str, u32); 6] = [
    ("finite a.csv 1", "a.csv", 1),
    ("finite a.csv 0002", "a.csv", 2),
    ("finite a.csv 999", "a.csv", 999),
    ("finite a.csv 1000", "a.csv", 1000),
    ("-- finite -x.csv 7", "-x.csv", 7),
    ("finite 8 7", "8", 7),
];

#[test]
fn files_and_places(rt: HostRuntime) -> Result<(), Fail> {
    for (line, text, places) in ASKED {
        let file = name(&rt, rt.alloc(), text)?;
        assert_eq!(rt;
            read(rt.alloc(), line)?,
            Ok(Command::Finite { file, places }),
            "{line}"
        );
    }
    Ok(())
}
