use crate::cases::Text::{Changed, Counted, Filled, Longer, Noted, Plain, Repeated};
use crate::cases::Written::{Lines, Whole};
use crate::cases::{Ended, check_all};
use crate::commands::{USAGE, read};
use crate::words::name;
use hypercube_cli::Command;
use std::test::Fail;

#[test]
fn days_are_played_again(rt: HostRuntime) -> Result<(), Fail> {
    check_all(&rt, rt.alloc(), PLAYED)
}

#[test]
fn long_days_are_refused(rt: HostRuntime) -> Result<(), Fail> {
    check_all(&rt, rt.alloc(), LONG_REFUSED)
}

#[test]
fn records_of_a_day_are_refused(rt: HostRuntime) -> Result<(), Fail> {
    check_all(&rt, rt.alloc(), RECORDS_REFUSED)
}

#[test]
fn the_first_of_two_reasons_is_reported(rt: HostRuntime) -> Result<(), Fail> {
    check_all(&rt, rt.alloc(), TWO_REASONS)
}

/// Short days, among them empty ones; a day as a spreadsheet saves it; calls and completions in one second; groups; the
/// most records, with a queue of thousands; and the most bytes. The numbers are from outside: of a second program that
/// shares no code with this one.
const PLAYED: &[Ended] = &[
    (
        "replay two.csv a.csv",
        Plain(DAY),
        0,
        Whole(TWO_UNITS_PLAYED),
    ),
    (
        "replay late.csv a.csv",
        Plain(DAY),
        0,
        Whole(TWO_UNITS_PLAYED_LATE),
    ),
    ("replay two.csv a.csv", Plain(""), 0, Whole(EMPTY_DAY)),
    (
        "replay two.csv a.csv",
        Plain("note,nothing\n,,\n\nnote\n"),
        0,
        Whole(EMPTY_DAY),
    ),
    (
        "replay two.csv a.csv",
        Plain(SAVED_BY_A_SPREADSHEET),
        0,
        Whole(SAVED_BY_A_SPREADSHEET_PLAYED),
    ),
    (
        "replay late.csv a.csv",
        Plain(SAME_SECOND),
        0,
        Whole(SAME_SECOND_PLAYED),
    ),
    (
        "replay unlike.csv a.csv",
        Plain(UNLIKE_UNITS),
        0,
        Whole(UNLIKE_UNITS_PLAYED),
    ),
    (
        "replay group.csv a.csv",
        Plain(DAY),
        0,
        Lines(&[
            "answered,3",
            "lost,1",
            "send,1,A",
            "send,2,B",
            "send,5,A",
            "dispatch,A,P,1,0.249999,0.250001",
            "dispatch,A,Q,1,0.249999,0.250001",
            "dispatch,B,P,1,0.249999,0.250001",
            "dispatch,B,Q,0,0.249999,0.250001",
            "busy,A,40,0.294117,0.294118",
            "busy,B,40,0.294117,0.294118",
        ]),
    ),
    (
        "replay queue.csv a.csv",
        Repeated("call,0,P\ncall,0,P\ncall,0,P\nfree,0,A\nfree,0,A\n", 10_000),
        0,
        Lines(&[
            "replay,1",
            "calls,30000",
            "answered,20001",
            "waiting,9999",
            "send,1,A",
            "send,2,A",
            "send,3,A",
            "send,33332,A",
            "dispatch,A,P,20001,0.999999,1.000000",
            "busy,A,0,0.333333,0.333334",
        ]),
    ),
    (
        "replay two.csv a.csv",
        Counted("", "call,", ",P\n", 50_000),
        0,
        Lines(&[
            "calls,50000",
            "answered,2",
            "lost,49998",
            "send,1,A",
            "send,2,B",
            "dispatch,A,P,1,0.399999,0.400001",
            "dispatch,A,Q,0,0.099999,0.100001",
            "dispatch,B,P,1,0.099999,0.100001",
            "dispatch,B,Q,0,0.399999,0.400001",
            "busy,A,49999,0.294117,0.294118",
            "busy,B,49998,0.294117,0.294118",
        ]),
    ),
    (
        "replay late.csv a.csv",
        Counted("", "call,", ",P\n", 50_000),
        0,
        Lines(&[
            "calls,50000",
            "answered,2",
            "waiting,49998",
            "send,1,A",
            "send,2,B",
            "dispatch,A,P,1,0.374999,0.375001",
            "dispatch,A,Q,0,0.124999,0.125001",
            "dispatch,B,P,1,0.124999,0.125001",
            "dispatch,B,Q,0,0.374999,0.375001",
            "busy,A,49999,0.333333,0.333334",
            "busy,B,49998,0.333333,0.333334",
        ]),
    ),
    (
        "replay two.csv a.csv",
        Repeated("call,3,P\nfree,3,A\n", 25_000),
        0,
        Lines(&[
            "calls,25000",
            "answered,25000",
            "lost,0",
            "send,49999,A",
            "dispatch,A,P,25000,0.399999,0.400001",
            "busy,A,0,0.294117,0.294118",
            "busy,B,0,0.294117,0.294118",
        ]),
    ),
    (
        "replay two.csv a.csv",
        Repeated("note,x\n", 50_000),
        0,
        Whole(EMPTY_DAY),
    ),
    (
        "replay two.csv a.csv",
        Filled(DAY, 4_194_245),
        0,
        Whole(TWO_UNITS_PLAYED),
    ),
];

/// Too long a text, too many records, and the last record that a day may have; then plans that are refused or absent,
/// before which no day is asked for, and a day that is absent.
const LONG_REFUSED: &[Ended] = &[
    (
        "replay two.csv a.csv",
        Filled(DAY, 4_194_246),
        2,
        Whole("refused,2,90,4194305\n"),
    ),
    (
        "replay two.csv a.csv",
        Filled("stop,0,P\n", 4_194_296),
        2,
        Whole("refused,2,90,4194305\n"),
    ),
    (
        "replay two.csv a.csv",
        Noted(DAY, 50_000),
        2,
        Whole("refused,2,91,50001\n"),
    ),
    (
        "replay two.csv a.csv",
        Noted(DAY, 49_995),
        2,
        Whole("refused,2,91,50001\n"),
    ),
    (
        "replay two.csv a.csv",
        Repeated(",\n", 50_001),
        2,
        Whole("refused,2,91,50001\n"),
    ),
    (
        "replay two.csv a.csv",
        Noted("stop,0,P\n", 50_000),
        2,
        Whole("refused,2,91,50001\n"),
    ),
    (
        "replay two.csv a.csv",
        Counted("stop,0,P\n", "note,", "\n", 50_000),
        2,
        Whole("refused,2,92,1\n"),
    ),
    (
        "replay two.csv a.csv",
        Counted("free,0,A\n", "note,", "\n", 50_000),
        2,
        Whole("refused,2,91,50001\n"),
    ),
    (
        "replay two.csv a.csv",
        Noted("stop,0,P\n", 49_999),
        2,
        Whole("refused,2,92,50000\n"),
    ),
    (
        "replay two.csv a.csv",
        Noted("call,0,X\n", 49_999),
        2,
        Whole("refused,2,93,50000\n"),
    ),
    (
        "replay two.csv a.csv",
        Noted("call,5,P\ncall,4,P\n", 49_998),
        2,
        Whole("refused,2,94,50000\n"),
    ),
    (
        "replay two.csv a.csv",
        Noted("free,0,A\n", 49_999),
        2,
        Whole("refused,2,95,50000\n"),
    ),
    (
        "replay bad.csv a.csv",
        Plain(DAY),
        2,
        Whole("refused,1,3,1\n"),
    ),
    (
        "replay bad.csv x.csv",
        Plain(DAY),
        2,
        Whole("refused,1,3,1\n"),
    ),
    ("replay x.csv a.csv", Plain(DAY), 4, Whole("")),
    ("replay two.csv x.csv", Plain(DAY), 4, Whole("")),
    (
        "replay two.csv a.csv --workers 2",
        Plain(DAY),
        1,
        Whole(USAGE),
    ),
];

/// Each reason at the first record that can have it, and at the last of a short day.
const RECORDS_REFUSED: &[Ended] = &[
    (
        "replay two.csv a.csv",
        Plain("stop,0,P\n"),
        2,
        Whole("refused,2,92,1\n"),
    ),
    (
        "replay two.csv a.csv",
        Plain("Call,0,P\n"),
        2,
        Whole("refused,2,92,1\n"),
    ),
    (
        "replay two.csv a.csv",
        Plain("call,0\n"),
        2,
        Whole("refused,2,92,1\n"),
    ),
    (
        "replay two.csv a.csv",
        Plain("call,0,P,Q\n"),
        2,
        Whole("refused,2,92,1\n"),
    ),
    (
        "replay two.csv a.csv",
        Plain("call,,P\n"),
        2,
        Whole("refused,2,92,1\n"),
    ),
    (
        "replay two.csv a.csv",
        Plain("call,-1,P\n"),
        2,
        Whole("refused,2,92,1\n"),
    ),
    (
        "replay two.csv a.csv",
        Plain("call,1.5,P\n"),
        2,
        Whole("refused,2,92,1\n"),
    ),
    (
        "replay two.csv a.csv",
        Plain("call,1000000000,P\n"),
        2,
        Whole("refused,2,92,1\n"),
    ),
    (
        "replay two.csv a.csv",
        Longer(DAY, "call,50\n"),
        2,
        Whole("refused,2,92,7\n"),
    ),
    (
        "replay two.csv a.csv",
        Plain("call,0,X\n"),
        2,
        Whole("refused,2,93,1\n"),
    ),
    (
        "replay two.csv a.csv",
        Plain("call,0,A\n"),
        2,
        Whole("refused,2,93,1\n"),
    ),
    (
        "replay two.csv a.csv",
        Plain("free,0,P\n"),
        2,
        Whole("refused,2,93,1\n"),
    ),
    (
        "replay two.csv a.csv",
        Plain("call,0,p\n"),
        2,
        Whole("refused,2,93,1\n"),
    ),
    (
        "replay two.csv a.csv",
        Changed(DAY, "P", b"\xff"),
        2,
        Whole("refused,2,93,1\n"),
    ),
    (
        "replay two.csv a.csv",
        Changed(DAY, "call", b"\xff"),
        2,
        Whole("refused,2,92,1\n"),
    ),
    (
        "replay two.csv a.csv",
        Longer(DAY, "free,60,C\n"),
        2,
        Whole("refused,2,93,7\n"),
    ),
    (
        "replay two.csv a.csv",
        Plain("call,5,P\ncall,4,P\n"),
        2,
        Whole("refused,2,94,2\n"),
    ),
    (
        "replay two.csv a.csv",
        Longer(DAY, "free,49,A\n"),
        2,
        Whole("refused,2,94,7\n"),
    ),
    (
        "replay two.csv a.csv",
        Plain("free,5,A\n"),
        2,
        Whole("refused,2,95,1\n"),
    ),
    (
        "replay two.csv a.csv",
        Longer(DAY, "free,60,B\n"),
        2,
        Whole("refused,2,95,7\n"),
    ),
];

/// Two reasons in both orders, and those of one record.
const TWO_REASONS: &[Ended] = &[
    (
        "replay two.csv a.csv",
        Plain("call,0,P\nfree,0,B\nfree,0,A\nfree,0,A\n"),
        2,
        Whole("refused,2,95,2\n"),
    ),
    (
        "replay two.csv a.csv",
        Plain("free,5,A\ncall,5,P\n"),
        2,
        Whole("refused,2,95,1\n"),
    ),
    (
        "replay late.csv a.csv",
        Plain("call,0,P\nfree,1,A\nfree,2,A\n"),
        2,
        Whole("refused,2,95,3\n"),
    ),
    (
        "replay two.csv a.csv",
        Plain("stop,0,P\ncall,0,X\n"),
        2,
        Whole("refused,2,92,1\n"),
    ),
    (
        "replay two.csv a.csv",
        Plain("call,0,X\nstop,0,P\n"),
        2,
        Whole("refused,2,93,1\n"),
    ),
    (
        "replay two.csv a.csv",
        Plain("call,5,P\ncall,4,P\ncall,6,X\n"),
        2,
        Whole("refused,2,94,2\n"),
    ),
    (
        "replay two.csv a.csv",
        Plain("call,5,P\ncall,6,X\ncall,4,P\n"),
        2,
        Whole("refused,2,93,2\n"),
    ),
    (
        "replay two.csv a.csv",
        Plain("call,5,P\nstop,6,P\ncall,4,P\n"),
        2,
        Whole("refused,2,92,2\n"),
    ),
    (
        "replay two.csv a.csv",
        Plain("call,5,P\ncall,4,P\nstop,6,P\n"),
        2,
        Whole("refused,2,94,2\n"),
    ),
    (
        "replay two.csv a.csv",
        Plain("call,5,P\ncall,4,X\n"),
        2,
        Whole("refused,2,93,2\n"),
    ),
    (
        "replay two.csv a.csv",
        Plain("call,5,P\nstop,4,X\n"),
        2,
        Whole("refused,2,92,2\n"),
    ),
    (
        "replay two.csv a.csv",
        Plain("call,5,P\nfree,4,B\n"),
        2,
        Whole("refused,2,94,2\n"),
    ),
    (
        "replay two.csv a.csv",
        Plain("free,5,A\ncall,4,P\n"),
        2,
        Whole("refused,2,94,2\n"),
    ),
    (
        "replay two.csv a.csv",
        Plain("free,5,A\ncall,6,X\n"),
        2,
        Whole("refused,2,93,2\n"),
    ),
    (
        "replay two.csv a.csv",
        Plain("free,5,A\nstop,6,P\n"),
        2,
        Whole("refused,2,92,2\n"),
    ),
];

/// Three calls, the end of the first, one more call, and the end of the second.
pub(crate) const DAY: &str = "\
call,0,P
call,10,P
call,20,Q
free,30,A
call,40,Q
free,50,B
";

/// The same day with a byte order mark, quotes, blanks, commas at the ends of rows, and rows without fields.
const SAVED_BY_A_SPREADSHEET: &str =
    "\u{feff}note,\"Monday, the first\",,\r\ncall,0,P,\r\n\"call\",\"10\",\"P\",\r\ncall, 020 ,Q,,\r\n,,,\r\nfree,30,\tA\t,\r\n\r\ncall,40,\"Q\",\r\nfree,50,B,\r\n";

/// Calls and completions in one second, of calls that wait among them.
const SAME_SECOND: &str = "\
call,7,P
call,7,Q
call,7,Q
free,7,B
call,7,Q
free,7,A
free,7,B
call,9,P
";

/// A day of three units in groups, up to the last second that a day may have.
const UNLIKE_UNITS: &str = "\
note,a day
call,0,P
call,60,P
call,61,Q
call,61,R
call,300,P
free,500,C
call,500,Q
free,500,A
free,999,B
free,999,B
free,1200,A
call,999999998,R
free,999999999,C
";

pub(crate) const TWO_UNITS_PLAYED: &str = "\
replay,1
calls,4
answered,3
lost,1
send,1,A
send,2,B
send,5,A
dispatch,A,P,1,0.399999,0.400001
dispatch,A,Q,1,0.099999,0.100001
dispatch,B,P,1,0.099999,0.100001
dispatch,B,Q,0,0.399999,0.400001
busy,A,40,0.294117,0.294118
busy,B,40,0.294117,0.294118
end
";

const TWO_UNITS_PLAYED_LATE: &str = "\
replay,1
calls,4
answered,4
waiting,0
send,1,A
send,2,B
send,3,A
send,5,B
dispatch,A,P,1,0.374999,0.375001
dispatch,A,Q,1,0.124999,0.125001
dispatch,B,P,1,0.124999,0.125001
dispatch,B,Q,1,0.374999,0.375001
busy,A,50,0.333333,0.333334
busy,B,40,0.333333,0.333334
end
";

const EMPTY_DAY: &str = "\
replay,1
calls,0
answered,0
lost,0
dispatch,A,P,0,0.399999,0.400001
dispatch,A,Q,0,0.099999,0.100001
dispatch,B,P,0,0.099999,0.100001
dispatch,B,Q,0,0.399999,0.400001
busy,A,0,0.294117,0.294118
busy,B,0,0.294117,0.294118
end
";

const SAVED_BY_A_SPREADSHEET_PLAYED: &str = "\
replay,1
calls,4
answered,3
lost,1
send,2,A
send,3,B
send,7,A
dispatch,A,P,1,0.399999,0.400001
dispatch,A,Q,1,0.099999,0.100001
dispatch,B,P,1,0.099999,0.100001
dispatch,B,Q,0,0.399999,0.400001
busy,A,40,0.294117,0.294118
busy,B,40,0.294117,0.294118
end
";

const SAME_SECOND_PLAYED: &str = "\
replay,1
calls,5
answered,5
waiting,0
send,1,A
send,2,B
send,3,B
send,5,A
send,8,B
dispatch,A,P,1,0.374999,0.375001
dispatch,A,Q,1,0.124999,0.125001
dispatch,B,P,1,0.124999,0.125001
dispatch,B,Q,2,0.374999,0.375001
busy,A,2,0.333333,0.333334
busy,B,0,0.333333,0.333334
end
";

const UNLIKE_UNITS_PLAYED: &str = "\
replay,1
calls,7
answered,7
waiting,0
send,2,A
send,3,C
send,4,B
send,5,C
send,6,A
send,8,B
send,13,B
dispatch,A,P,2,0.141159,0.141160
dispatch,A,Q,0,0.168231,0.168232
dispatch,A,R,0,0.035921,0.035922
dispatch,B,P,0,0.055629,0.055630
dispatch,B,Q,2,0.153537,0.153538
dispatch,B,R,1,0.038733,0.038734
dispatch,C,P,1,0.110903,0.110904
dispatch,C,Q,0,0.139769,0.139770
dispatch,C,R,1,0.156114,0.156115
busy,A,1200,0.641294,0.641295
busy,B,939,0.644541,0.644542
busy,C,999999939,0.480748,0.480749
end
";

/// Arguments, the plan's file and the day's.
const ASKED: [(&str, &str, &str); 4] = [
    ("replay a.csv b.csv", "a.csv", "b.csv"),
    ("replay a.csv a.csv", "a.csv", "a.csv"),
    ("-- replay -x.csv --y", "-x.csv", "--y"),
    ("replay - 7", "-", "7"),
];

#[test]
fn files_and_days(rt: HostRuntime) -> Result<(), Fail> {
    for (line, plan, other) in ASKED {
        let file = name(&rt, rt.alloc(), plan)?;
        let day = name(&rt, rt.alloc(), other)?;
        assert_eq!(rt;
            read(rt.alloc(), line)?,
            Ok(Command::Replay { file, day }),
            "{line}"
        );
    }
    Ok(())
}
