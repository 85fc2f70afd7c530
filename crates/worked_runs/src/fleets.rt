use crate::cases::Text::{Changed, Longer, Plain};
use crate::cases::Written::{Begins, Lines, Whole};
use crate::cases::{Ended, check_all};
use crate::commands::USAGE;
use std::test::Fail;
use worked_plans::{
    FIVE_CREWS, FIVE_CREWS_APART, FIVE_CREWS_WITH_A_QUEUE, HALF_LOAD, SEVEN_CREWS, THREE_UNITS,
    TWO_UNITS,
};

#[test]
fn fleets_have_these_reports(rt: HostRuntime) -> Result<(), Fail> {
    check_all(&rt, rt.alloc(), REPORTED)
}

#[test]
fn texts_that_give_no_report_of_a_fleet(rt: HostRuntime) -> Result<(), Fail> {
    check_all(&rt, rt.alloc(), REFUSED)
}

/// On both lines, overloaded, with a district without calls, and with one crew at each station. The numbers are from outside:
/// of a second program that shares no code with this one.
const REPORTED: &[Ended] = &[
    (
        "fleet a.csv",
        Plain(FIVE_CREWS),
        0,
        Whole(FIVE_CREWS_REPORT),
    ),
    (
        "fleet a.csv",
        Plain(FIVE_CREWS_WITH_A_QUEUE),
        0,
        Whole(FIVE_CREWS_WITH_A_QUEUE_REPORT),
    ),
    (
        "fleet a.csv",
        Plain(SEVEN_CREWS),
        0,
        Whole(SEVEN_CREWS_REPORT),
    ),
    (
        "fleet a.csv",
        Plain(HALF_LOAD),
        0,
        Whole(HALF_LOAD_AS_A_FLEET),
    ),
    (
        "--summary fleet a.csv --width=2 --time-width 2",
        Plain(FIVE_CREWS),
        0,
        Whole(FIVE_CREWS_SUMMARY),
    ),
    (
        "fleet a.csv",
        Plain(TWO_UNITS),
        0,
        Lines(&[
            "crews,A,1",
            "loss,0.117647,0.117648",
            "full,A,0.294117,0.294118",
        ]),
    ),
    (
        "fleet a.csv --time-width 9",
        Plain(THREE_UNITS),
        3,
        Begins("toowide,1,travel-station,C,"),
    ),
    (
        "fleet a.csv --time-width 9 --summary",
        Plain(THREE_UNITS),
        0,
        Lines(&["travel,299.999,300.000"]),
    ),
];

/// Texts of no fleet, a file that is not there, and words that are no command.
const REFUSED: &[Ended] = &[
    (
        "fleet a.csv",
        Plain("station,A\n"),
        2,
        Whole("refused,1,3,1\n"),
    ),
    (
        "fleet a.csv",
        Longer(FIVE_CREWS, "crews,A,1\n"),
        2,
        Whole("refused,1,100,17\n"),
    ),
    (
        "fleet a.csv",
        Changed(FIVE_CREWS, "crews,A,3", b"crews,A,199"),
        2,
        Whole("refused,1,101,201\n"),
    ),
    (
        "fleet a.csv",
        Changed(
            SEVEN_CREWS,
            "crews,A,4\ncrews,C,2\n",
            b"crews,A,60\ncrews,B,60\ncrews,C,60\n",
        ),
        2,
        Whole("refused,1,102,226981\n"),
    ),
    (
        "fleet a.csv",
        Changed(FIVE_CREWS, "unit,A,2", b"unit,A,400000"),
        2,
        Whole("refused,1,103,1200006\n"),
    ),
    (
        "fleet a.csv",
        Changed(FIVE_CREWS_WITH_A_QUEUE, "atom,P,4,", b"atom,P,9,"),
        2,
        Whole("refused,1,52,12,12\n"),
    ),
    (
        "fleet a.csv",
        Plain(FIVE_CREWS_APART),
        2,
        Whole("refused,1,3,20\n"),
    ),
    (
        "solve a.csv",
        Plain(FIVE_CREWS),
        2,
        Whole("refused,1,3,4\n"),
    ),
    ("fleet x.csv", Plain(FIVE_CREWS), 4, Whole("")),
    (
        "fleet a.csv --workers 2",
        Plain(FIVE_CREWS),
        1,
        Whole(USAGE),
    ),
    (
        "fleet a.csv --method certificate",
        Plain(FIVE_CREWS),
        1,
        Whole(USAGE),
    ),
    ("fleet a.csv b.csv", Plain(FIVE_CREWS), 1, Whole(USAGE)),
    ("fleet", Plain(FIVE_CREWS), 1, Whole(USAGE)),
];

const FIVE_CREWS_REPORT: &str = "\
fleet,1
line,zero
period,3600
calls,7
service,12
stations,2
crews,5
states,12
crews,A,3
crews,B,2
prefer,P,A,B
prefer,Q,B,A
loss,0.106418,0.106419
workload,A,0.573522,0.573523
workload,B,0.468988,0.468989
full,A,0.260291,0.260292
full,B,0.267187,0.267188
dispatch,A,P,0.473029,0.473030
dispatch,A,Q,0.077106,0.077107
dispatch,B,P,0.098398,0.098399
dispatch,B,Q,0.351465,0.351466
interdistrict,0.175505,0.175506
interdistrict-station,A,0.140158,0.140159
interdistrict-station,B,0.218730,0.218731
interdistrict-district,A,0.172198,0.172199
interdistrict-district,B,0.179914,0.179915
travel,120.785,120.786
travel-atom,P,83.246,83.247
travel-atom,Q,170.836,170.837
travel-station,A,93.638,93.639
travel-station,B,153.983,153.984
travel-district,A,83.246,83.247
travel-district,B,170.836,170.837
end
";

const FIVE_CREWS_WITH_A_QUEUE_REPORT: &str = "\
fleet,1
line,infinite
period,3600
calls,7
service,12
stations,2
crews,5
states,12
crews,A,3
crews,B,2
prefer,P,A,B
prefer,Q,B,A
delay,0.222287,0.222288
queue,0.311202,0.311203
wait,160.046,160.047
workload,A,0.628823,0.628824
workload,B,0.537843,0.537844
full,A,0.356208,0.356209
full,B,0.362209,0.362210
dispatch,A,P,0.431391,0.431392
dispatch,A,Q,0.107599,0.107600
dispatch,B,P,0.140036,0.140037
dispatch,B,Q,0.320971,0.320972
interdistrict,0.247636,0.247637
interdistrict-station,A,0.199631,0.199632
interdistrict-station,B,0.303761,0.303762
interdistrict-district,A,0.245064,0.245065
interdistrict-district,B,0.251065,0.251066
travel,131.362,131.363
travel-atom,P,95.227,95.228
travel-atom,Q,179.542,179.543
travel-station,A,109.047,109.048
travel-station,B,157.451,157.452
travel-district,A,95.227,95.228
travel-district,B,179.542,179.543
end
";

const SEVEN_CREWS_REPORT: &str = "\
fleet,1
line,zero
period,3600
calls,54
service,31
stations,3
crews,7
states,30
crews,A,4
crews,B,1
crews,C,2
prefer,P,A,C,B
prefer,Q,C,B,A
prefer,R,C,A,B
loss,0.501729,0.501730
workload,A,0.892958,0.892959
workload,B,0.956754,0.956755
workload,C,0.833035,0.833036
full,A,0.672736,0.672737
full,B,0.956754,0.956755
full,C,0.711333,0.711334
dispatch,A,P,0.364888,0.364889
dispatch,A,Q,0.166109,0.166110
dispatch,A,R,0.000000,0.000000
dispatch,B,P,0.014706,0.014707
dispatch,B,Q,0.020851,0.020852
dispatch,B,R,0.000000,0.000000
dispatch,C,P,0.175960,0.175961
dispatch,C,Q,0.257483,0.257484
dispatch,C,R,0.000000,0.000000
interdistrict,0.614259,0.614260
interdistrict-station,A,0.312824,0.312825
interdistrict-station,B,0.413587,0.413588
interdistrict-station,C,1.000000,1.000000
interdistrict-district,A,0.343200,0.343201
interdistrict-district,B,0.953083,0.953084
interdistrict-district,C,none
travel,199.013,199.014
travel-atom,P,172.452,172.453
travel-atom,Q,232.213,232.214
travel-atom,R,187.705,187.706
travel-station,A,135.077,135.078
travel-station,B,152.038,152.039
travel-station,C,281.191,281.192
travel-district,A,172.452,172.453
travel-district,B,232.213,232.214
travel-district,C,none
end
";

const FIVE_CREWS_SUMMARY: &str = "\
fleet,1
line,zero
period,3600
calls,7
service,12
stations,2
crews,5
states,12
loss,0.106418,0.106419
interdistrict,0.175505,0.175506
travel,120.785,120.786
end
";

pub(crate) const HALF_LOAD_AS_A_FLEET: &str = "\
fleet,1
line,zero
period,3600
calls,1
service,2
stations,1
crews,1
states,2
crews,A,1
prefer,P,A
loss,0.333333,0.333334
workload,A,0.333333,0.333334
full,A,0.333333,0.333334
dispatch,A,P,1.000000,1.000000
interdistrict,0.000000,0.000000
interdistrict-station,A,0.000000,0.000000
interdistrict-district,A,0.000000,0.000000
travel,300.000,300.000
travel-atom,P,300.000,300.000
travel-station,A,300.000,300.000
travel-district,A,300.000,300.000
end
";
