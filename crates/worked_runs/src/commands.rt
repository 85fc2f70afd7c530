use crate::cases::Text::Plain;
use crate::cases::Written::{self, Begins, Lines, Whole};
use crate::cases::{Case, check};
use crate::reports::{MADE_PLAN, THIRD_LOAD_REPORT, THIRD_LOAD_SUMMARY};
use hypercube_cli::{Command, WordsEnd, read_words};
use plan_maker::{MakeRefusal, make};
use std::alloc::{AllocError, Global};
use std::test::Fail;
use worked_plans::THIRD_LOAD;

#[test]
fn command_lines_end_so(rt: HostRuntime) -> Result<(), Fail> {
    for (line, status, written) in ENDED {
        let case = Case {
            name: *line,
            line: *line,
            text: Plain(THIRD_LOAD),
            status: *status,
            written: *written,
        };
        check(&rt, rt.alloc(), &case)?;
    }
    Ok(())
}

/// A command line, the status of its end, and what is written.
type Ended = (&'static str, u8, Written);

pub(crate) const USAGE: &str = "\
usage: hypercube solve FILE | compare STUDY | make UNITS NUMBER | finite FILE PLACES | pairs FILE PERCENT | sweep FILE UNIT MEASURE | replay FILE DAY [--width W] [--time-width W] [--workers N] [--summary]
";

const ENDED: &[Ended] = &[
    ("solve a.csv", 0, Whole(THIRD_LOAD_REPORT)),
    (
        "--summary solve a.csv --width=2",
        0,
        Whole(THIRD_LOAD_SUMMARY),
    ),
    ("solve a.csv --workers 3", 0, Whole(THIRD_LOAD_REPORT)),
    ("solve x.csv", 4, Whole("")),
    ("solve -- -y.csv", 4, Whole("")),
    ("solve", 1, Whole(USAGE)),
    ("solve a.csv --width 1", 1, Whole(USAGE)),
    ("solve a.csv --width=5 --width 6", 1, Whole(USAGE)),
    ("solve a.csv --workers 17", 1, Whole(USAGE)),
    ("solve a.csv -x", 1, Whole(USAGE)),
    ("compare a.csv", 2, Whole("refused,0,60\n")),
    ("compare x.toml", 4, Whole("")),
    ("make 2 0 --workers 1", 1, Whole(USAGE)),
    ("make 1 0", 2, Whole("refused,0,70\n")),
    ("make 11 0", 2, Whole("refused,0,70\n")),
    ("make 2 4294967296", 2, Whole("refused,0,70\n")),
    ("make 11 999999999999999999", 2, Whole("refused,0,70\n")),
    ("make 2 0", 0, Whole(MADE_PLAN)),
    ("make 000000000000000002 0", 0, Whole(MADE_PLAN)),
    ("make -- 02 00", 0, Whole(MADE_PLAN)),
    ("make 2 4294967295", 0, Begins(LAST_MADE_HEAD)),
    (
        "make 02 4294967295",
        0,
        Lines(&["travel,A1,A2,686", "travel,A7,A8,556", "at,U2,A4,300"]),
    ),
];

/// What `make 2 4294967295` writes before the trips.
const LAST_MADE_HEAD: &str = "\
version,1
line,zero
rule,modified
period,3600
unit,U1,20
unit,U2,20
atom,A1,2,2311,8835,U1
atom,A2,4,7029,7284,U2
atom,A3,2,7440,5474,U1
atom,A4,4,2478,3457,U2
atom,A5,1,1164,1014,U1
atom,A6,1,6344,9429,U2
atom,A7,4,9669,4641,U1
atom,A8,4,7846,1499,U2
";

#[test]
fn made_plans_of_ten_units_and_of_one(rt: HostRuntime) -> Result<(), Fail> {
    assert_eq!(rt; make(rt.alloc(), 10, 7)?.len(), 31331);
    assert_eq!(rt; make(rt.alloc(), 1, 0).err(), Some(MakeRefusal::MakeRange));
    Ok(())
}

/// The text of a made plan.
pub(crate) fn made_text(alloc: Global, units: u64, number: u64) -> Result<Vec<u8>, Fail> {
    Ok(make(alloc, units, number)?)
}

/// Arguments with a blank between them.
pub(crate) fn read(alloc: Global, line: &str) -> Result<Result<Command, WordsEnd>, AllocError> {
    let mut words = Vec::new(alloc);
    for word in line.split(' ') {
        words
            .push(String::from_str(alloc, word)?)
            .map_err(|_| AllocError)?;
    }
    Ok(read_words(alloc, &words))
}

/// Arguments, and the units and the number of the plan that they ask for.
const ASKED: [(&str, u64, u64); 6] = [
    ("make 2 0", 2, 0),
    ("make 02 0", 2, 0),
    ("make -- 10 7", 10, 7),
    ("make 0 4294967296", 0, 4_294_967_296),
    ("make 000000000000000012 1", 12, 1),
    ("make 11 999999999999999999", 11, 999_999_999_999_999_999),
];

#[test]
fn units_and_numbers_of_plans_to_be_made(rt: HostRuntime) -> Result<(), Fail> {
    for (line, units, number) in ASKED {
        assert_eq!(rt;
            read(rt.alloc(), line)?,
            Ok(Command::Make { units, number })
        );
    }
    Ok(())
}

/// Among them words that are empty: before a first blank, after a last one, and between two.
const NO_COMMANDS: &str = " \n\
    a.csv\n\
    solve\n\
    solve \n\
    Solve a.csv\n\
    solve a.csv b.csv\n\
    solve  a.csv\n\
    solve -- a.csv --summary\n\
    -- solve a.csv --\n\
    compare\n\
    compare s.toml t.toml\n\
    compare s.toml --summary\n\
    make\n\
    make 2\n\
    make 2 \n\
    make 2 0 0\n\
    make -- -2 0\n\
    make +2 0\n\
    make 2 1000000000000000000\n\
    make 0000000000000000002 0\n\
    make 2 0 --workers 1\n\
    make --summary 2 0\n\
    finite\n\
    finite a.csv\n\
    finite  1\n\
    finite a.csv \n\
    finite a.csv 1 1\n\
    finite 1 a.csv\n\
    Finite a.csv 1\n\
    finite a.csv 0\n\
    finite a.csv 0000\n\
    finite a.csv 00001\n\
    finite a.csv 1001\n\
    finite a.csv 9999\n\
    finite a.csv +1\n\
    finite a.csv 1.5\n\
    finite -- a.csv -1\n\
    finite a.csv 1 --summary\n\
    finite a.csv 1 --width 2\n\
    finite --time-width=2 a.csv 1\n\
    --workers 2 finite a.csv 1\n\
    pairs\n\
    pairs a.csv\n\
    pairs  1\n\
    pairs a.csv \n\
    pairs a.csv 1 1\n\
    pairs 1 a.csv\n\
    Pairs a.csv 1\n\
    pairs a.csv 101\n\
    pairs a.csv 999\n\
    pairs a.csv 0001\n\
    pairs a.csv +1\n\
    pairs a.csv 5%\n\
    pairs -- a.csv -1\n\
    pairs a.csv 1 --summary\n\
    pairs a.csv 1 --width 2\n\
    pairs --time-width=2 a.csv 1\n\
    --workers 2 pairs a.csv 1\n\
    sweep\n\
    sweep a.csv\n\
    sweep a.csv A\n\
    sweep a.csv A \n\
    sweep a.csv  loss\n\
    sweep  A loss\n\
    sweep a.csv A loss loss\n\
    sweep a.csv loss A\n\
    Sweep a.csv A loss\n\
    sweep a.csv A Loss\n\
    sweep a.csv A losses\n\
    sweep a.csv A queue\n\
    sweep a.csv A wait\n\
    sweep a.csv A workload\n\
    sweep a.csv A travel-unit\n\
    sweep a.csv ABCDEFGHIJKLMNOPQRSTUVWXYZABCDEFG loss\n\
    sweep a.csv ÜÜÜÜÜÜÜÜÜÜÜÜÜÜÜÜA loss\n\
    sweep a.csv A loss --summary\n\
    sweep a.csv A travel --width 2\n\
    sweep --time-width=2 a.csv A travel\n\
    --workers 2 sweep a.csv A travel\n\
    sweep a.csv -- A loss --workers\n\
    replay\n\
    replay a.csv\n\
    replay a.csv \n\
    replay  b.csv\n\
    replay a.csv b.csv c.csv\n\
    Replay a.csv b.csv\n\
    replay a.csv -b.csv\n\
    replay a.csv b.csv --summary\n\
    replay a.csv b.csv --width 2\n\
    replay --time-width=2 a.csv b.csv\n\
    --workers 2 replay a.csv b.csv\n\
    reach\n\
    reach a.csv\n\
    reach a.csv \n\
    reach  480\n\
    reach 480 a.csv\n\
    reach a.csv 480 720\n\
    Reach a.csv 480\n\
    reach a.csv 480,\n\
    reach a.csv ,480\n\
    reach a.csv 240,,480\n\
    reach a.csv 480,240\n\
    reach a.csv 480,480\n\
    reach a.csv 100001\n\
    reach a.csv 0000480\n\
    reach a.csv +480\n\
    reach a.csv 8.5\n\
    reach a.csv 240;480\n\
    reach a.csv 1,2,3,4,5,6,7,8,9,10,11,12,13,14,15,16,17\n\
    reach a.csv 480 --summary\n\
    reach a.csv 480 --method elimination\n\
    --workers 2 reach a.csv 480\n\
    make 2 0 --method certificate\n\
    finite a.csv 1 --method=certificate\n\
    pairs a.csv 1 --method=elimination\n\
    sweep a.csv A loss --method certificate\n\
    replay a.csv b.csv --method certificate";

#[test]
fn plain_words_that_give_no_command(rt: HostRuntime) -> Result<(), Fail> {
    for line in NO_COMMANDS.lines() {
        assert_eq!(rt; read(rt.alloc(), line)?, Err(WordsEnd::NoCommand), "{line}");
    }
    assert_eq!(rt; read_words(rt.alloc(), &[]), Err(WordsEnd::NoCommand));
    Ok(())
}
