use crate::cases::{run, run_with_faults};
use crate::commands::USAGE;
use crate::days::{DAY, TWO_UNITS_PLAYED};
use crate::finite::HALF_LOAD_ONE_PLACE;
use crate::fleets::HALF_LOAD_AS_A_FLEET;
use crate::pairs::TWO_UNITS_ALL;
use crate::reports::{HALF_LOAD_REPORT, MADE_PLAN};
use crate::shelves::words_of;
use crate::sites::FIRST_OF_TWO_BY_TRAVEL;
use crate::studies::{TWO_AND_HALF, TWO_AND_HALF_COMPARED};
use day_replay::DayRefusal;
use finite_line::FiniteRefusal;
use hyper_model::Measure;
use hypercube_cli::{Outcome, Refusal, hypercube};
use outer_world::{FileShelf, StdoutSink};
use pair_dispatch::PairRefusal;
use plan_compare::StudyRefusal;
use plan_reader::{FleetRefusal, PlanRefusal};
use rate_matrix::OpenGate;
use site_sweep::SweepRefusal;
use std::alloc::Global;
use std::fs;
use std::process::Abort;
use std::test::Fail;
use std::thread::Threads;
use worked_plans::{
    ELEVEN_UNITS, HALF_LOAD, ONE_GROUP, THIRD_LOAD, THIRD_LOAD_WITH_A_QUEUE, THREE_UNITS, TWO_UNITS,
};

/// A command line and its text; the calls of a shelf that gives ten bytes at a time, which are an opening, the pieces and
/// the end of each text, and those of a sink that takes a hundred; and how the run ends if none of them fails.
#[derive(Clone, Copy)]
struct Command {
    line: &'static str,
    text: &'static str,
    reads: u8,
    writes: u8,
    outcome: Outcome,
    written: &'static str,
}

const COMMANDS: &[Command] = &[
    Command {
        line: "solve a.csv",
        text: HALF_LOAD,
        reads: 9,
        writes: 4,
        outcome: Outcome::Done,
        written: HALF_LOAD_REPORT,
    },
    Command {
        line: "compare s.toml",
        text: TWO_AND_HALF,
        reads: 35,
        writes: 2,
        outcome: Outcome::Done,
        written: TWO_AND_HALF_COMPARED,
    },
    Command {
        line: "make 2 0",
        text: "",
        reads: 0,
        writes: 14,
        outcome: Outcome::Done,
        written: MADE_PLAN,
    },
    Command {
        line: "finite a.csv 1",
        text: HALF_LOAD,
        reads: 9,
        writes: 2,
        outcome: Outcome::Done,
        written: HALF_LOAD_ONE_PLACE,
    },
    Command {
        line: "finite a.csv 1",
        text: THIRD_LOAD_WITH_A_QUEUE,
        reads: 10,
        writes: 1,
        outcome: Outcome::Refused(Refusal::Finite(FiniteRefusal::LineNotZero)),
        written: "refused,1,80\n",
    },
    Command {
        line: "pairs a.csv 100",
        text: TWO_UNITS,
        reads: 18,
        writes: 2,
        outcome: Outcome::Done,
        written: TWO_UNITS_ALL,
    },
    Command {
        line: "pairs a.csv 0",
        text: ONE_GROUP,
        reads: 19,
        writes: 1,
        outcome: Outcome::Refused(Refusal::Pair(PairRefusal::PairGroup(1))),
        written: "refused,1,84,1\n",
    },
    Command {
        line: "sweep a.csv A travel",
        text: TWO_UNITS,
        reads: 18,
        writes: 1,
        outcome: Outcome::Done,
        written: FIRST_OF_TWO_BY_TRAVEL,
    },
    Command {
        line: "sweep a.csv C travel",
        text: TWO_UNITS,
        reads: 18,
        writes: 1,
        outcome: Outcome::Refused(Refusal::Sweep(SweepRefusal::SweepUnit)),
        written: "refused,1,85\n",
    },
    Command {
        line: "replay two.csv a.csv",
        text: DAY,
        reads: 26,
        writes: 3,
        outcome: Outcome::Done,
        written: TWO_UNITS_PLAYED,
    },
    Command {
        line: "replay two.csv a.csv",
        text: "free,5,A\n",
        reads: 21,
        writes: 1,
        outcome: Outcome::Refused(Refusal::Day(DayRefusal::NotBusy(1))),
        written: "refused,2,95,1\n",
    },
    Command {
        line: "fleet a.csv",
        text: HALF_LOAD,
        reads: 9,
        writes: 5,
        outcome: Outcome::Done,
        written: HALF_LOAD_AS_A_FLEET,
    },
    Command {
        line: "fleet a.csv",
        text: "station,A\n",
        reads: 3,
        writes: 1,
        outcome: Outcome::Refused(Refusal::Fleet(FleetRefusal::Plan(PlanRefusal::UnknownKind(1)))),
        written: "refused,1,3,1\n",
    },
    Command {
        line: "solve a.csv",
        text: "station,A\n",
        reads: 3,
        writes: 1,
        outcome: Outcome::Refused(Refusal::Plan(1, PlanRefusal::UnknownKind(1))),
        written: "refused,1,3,1\n",
    },
    Command {
        line: "solve x.csv",
        text: "",
        reads: 1,
        writes: 0,
        outcome: Outcome::Absent(1),
        written: "",
    },
    Command {
        line: "solve",
        text: "",
        reads: 0,
        writes: 3,
        outcome: Outcome::Usage,
        written: USAGE,
    },
];

#[test]
fn a_fault_at_each_call(rt: HostRuntime) -> Result<(), Fail> {
    for command in COMMANDS {
        for before in 0..36u8 {
            check_reading(&rt, rt.alloc(), command, before)?;
            check_writing(&rt, rt.alloc(), command, before)?;
        }
    }
    Ok(())
}

/// The call after so many calls of the shelf fails.
fn check_reading<R: Abort + Threads + Sync>(
    rt: &R,
    alloc: Global,
    command: &Command,
    before: u8,
) -> Result<(), Fail> {
    let fails = [u64::from(before) + 1];
    let (got, bytes) = run_with_faults(rt, alloc, command.line, command.text, &fails, &[])?;
    let (outcome, written) = if before < command.reads {
        (Outcome::ReadFault, "")
    } else {
        (command.outcome, command.written)
    };
    assert_eq!(rt; got, outcome, "{} {before}", command.line);
    assert_eq!(rt; bytes.as_slice(), written.as_bytes());
    Ok(())
}

/// The call after so many calls of the sink fails.
fn check_writing<R: Abort + Threads + Sync>(
    rt: &R,
    alloc: Global,
    command: &Command,
    before: u8,
) -> Result<(), Fail> {
    let fails = [u64::from(before) + 1];
    let (got, bytes) = run_with_faults(rt, alloc, command.line, command.text, &[], &fails)?;
    let (outcome, taken) = if before < command.writes {
        (Outcome::WriteFault, 100 * usize::from(before))
    } else {
        (command.outcome, command.written.len())
    };
    assert_eq!(rt; got, outcome, "{} {before}", command.line);
    assert_eq!(rt;
        Some(bytes.as_slice()),
        command.written.as_bytes().get(..taken)
    );
    Ok(())
}

/// A command line, its text, and how the run ends.
type Ended = (&'static str, &'static str, Outcome);

/// The times before the one that is too wide are narrow, so that the least width ends the run at the same one.
const ENDED: &[Ended] = &[
    ("compare x.toml", "", Outcome::Absent(0)),
    (
        "compare s.toml",
        "plans = ['half.csv', 'none.csv']\nmeasures = ['loss']",
        Outcome::Absent(2),
    ),
    (
        "compare s.toml",
        "plans = ['half.csv', 'bad.csv']\nmeasures = ['loss']",
        Outcome::Refused(Refusal::Plan(2, PlanRefusal::UnknownKind(1))),
    ),
    (
        "compare s.toml",
        "plans = 3",
        Outcome::Refused(Refusal::Study(StudyRefusal::BadStudy)),
    ),
    (
        "solve a.csv",
        "unit,A,0\n",
        Outcome::Refused(Refusal::Plan(1, PlanRefusal::BadNumber(1, 3))),
    ),
    (
        "finite a.csv 1",
        "unit,A,0\n",
        Outcome::Refused(Refusal::Plan(1, PlanRefusal::BadNumber(1, 3))),
    ),
    (
        "finite a.csv 1000",
        THIRD_LOAD_WITH_A_QUEUE,
        Outcome::Refused(Refusal::Finite(FiniteRefusal::LineNotZero)),
    ),
    ("finite x.csv 1", "", Outcome::Absent(1)),
    (
        "pairs a.csv 1",
        "unit,A,0\n",
        Outcome::Refused(Refusal::Plan(1, PlanRefusal::BadNumber(1, 3))),
    ),
    (
        "pairs a.csv 1",
        THIRD_LOAD_WITH_A_QUEUE,
        Outcome::Refused(Refusal::Pair(PairRefusal::PairLine)),
    ),
    (
        "pairs a.csv 1",
        ELEVEN_UNITS,
        Outcome::Refused(Refusal::Pair(PairRefusal::PairUnits(11))),
    ),
    ("pairs x.csv 1", "", Outcome::Absent(1)),
    ("replay x.csv a.csv", DAY, Outcome::Absent(1)),
    ("replay two.csv x.csv", DAY, Outcome::Absent(2)),
    (
        "replay bad.csv x.csv",
        DAY,
        Outcome::Refused(Refusal::Plan(1, PlanRefusal::UnknownKind(1))),
    ),
    (
        "replay two.csv a.csv",
        "call,5,P\ncall,4,P\n",
        Outcome::Refused(Refusal::Day(DayRefusal::DayOrder(2))),
    ),
    (
        "sweep a.csv A loss",
        "unit,A,0\n",
        Outcome::Refused(Refusal::Plan(1, PlanRefusal::BadNumber(1, 3))),
    ),
    (
        "sweep a.csv B loss",
        THIRD_LOAD_WITH_A_QUEUE,
        Outcome::Refused(Refusal::Sweep(SweepRefusal::SweepUnit)),
    ),
    ("sweep x.csv A loss", "", Outcome::Absent(1)),
    (
        "solve a.csv --time-width 12",
        THREE_UNITS,
        Outcome::TooWide(1, Measure::TravelUnit(2), 299_987, 300_000),
    ),
    (
        "solve a.csv --time-width 2",
        THREE_UNITS,
        Outcome::TooWide(1, Measure::TravelUnit(2), 299_987, 300_000),
    ),
];

#[test]
fn each_end_of_a_run(rt: HostRuntime) -> Result<(), Fail> {
    for (line, text, outcome) in ENDED {
        let (got, _) = run(&rt, rt.alloc(), line, text.as_bytes(), &OpenGate)?;
        assert_eq!(rt; got, *outcome, "{line}");
    }
    Ok(())
}

#[test]
fn a_real_file_is_solved(rt: HostRuntime) -> Result<(), Fail> {
    let file = "/tmp/hypercube-third-load-plan.csv";
    fs::write(&rt, file, THIRD_LOAD)?;
    let words = words_of(
        rt.alloc(),
        "solve /tmp/hypercube-third-load-plan.csv --summary",
    )?;
    let mut shelf = FileShelf::of(&rt);
    let mut sink = StdoutSink::of(&rt);
    let got = hypercube(&rt, rt.alloc(), &words, &mut shelf, &mut sink, &OpenGate);
    fs::remove_file(&rt, file)?;
    assert_eq!(rt; got, Outcome::Done);
    Ok(())
}
