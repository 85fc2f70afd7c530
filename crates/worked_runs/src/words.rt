use crate::commands::read;
use crate::words::Asked::*;
use hyper_model::Method;
use hypercube_cli::{Command, Name255, WordsEnd};
use report_text::Widths;
use std::alloc::{AllocError, Global};
use std::process::Abort;
use std::test::Fail;

/// The name of a file.
pub(crate) fn name(rt: &impl Abort, alloc: Global, text: &str) -> Result<Name255, AllocError> {
    assert!(rt; !text.is_empty() && text.len() <= 255);
    Name255::of(alloc, text)
}

/// What is asked for.
#[derive(Clone, Copy)]
enum Asked {
    Solve,
    Summary,
    Compare,
}

/// What is asked for, the arguments, the name of a text, the widths of shares and of times, and the workers.
type Row = (
    Asked,
    &'static str,
    &'static str,
    Option<u32>,
    Option<u32>,
    u32,
);

const ASKED: [Row; 25] = [
    (Solve, "solve a.csv", "a.csv", None, None, 1),
    (Solve, "solve solve", "solve", None, None, 1),
    (Solve, "solve a-b=c.csv", "a-b=c.csv", None, None, 1),
    (Solve, "solve Übersicht.csv", "Übersicht.csv", None, None, 1),
    (Solve, "solve -", "-", None, None, 1),
    (Solve, "solve -- -x.csv", "-x.csv", None, None, 1),
    (Solve, "-- solve a.csv", "a.csv", None, None, 1),
    (Solve, "solve a.csv --", "a.csv", None, None, 1),
    (Solve, "solve -- --", "--", None, None, 1),
    (Solve, "solve -- --width=2", "--width=2", None, None, 1),
    (Solve, "solve a.csv --width=2", "a.csv", Some(2), None, 1),
    (Solve, "--width 02 solve a.csv", "a.csv", Some(2), None, 1),
    (
        Solve,
        "solve --width=000000003 a.csv",
        "a.csv",
        Some(3),
        None,
        1,
    ),
    (
        Solve,
        "solve --width 999999999 a.csv",
        "a.csv",
        Some(999_999_999),
        None,
        1,
    ),
    (
        Solve,
        "solve a.csv --time-width=2",
        "a.csv",
        None,
        Some(2),
        1,
    ),
    (
        Solve,
        "solve --time-width 40 a.csv",
        "a.csv",
        None,
        Some(40),
        1,
    ),
    (Solve, "solve a.csv --workers 1", "a.csv", None, None, 1),
    (Solve, "solve a.csv --workers=16", "a.csv", None, None, 16),
    (
        Solve,
        "--workers 3 solve --width=5 a.csv --time-width 7",
        "a.csv",
        Some(5),
        Some(7),
        3,
    ),
    (
        Summary,
        "--summary solve a.csv --workers 3",
        "a.csv",
        None,
        None,
        3,
    ),
    (
        Summary,
        "solve a.csv --workers=3 --summary --",
        "a.csv",
        None,
        None,
        3,
    ),
    (Compare, "compare s.toml", "s.toml", None, None, 1),
    (
        Compare,
        "--width 9 compare s.toml",
        "s.toml",
        Some(9),
        None,
        1,
    ),
    (
        Compare,
        "compare --time-width=8 -- s.toml",
        "s.toml",
        None,
        Some(8),
        1,
    ),
    (
        Compare,
        "compare --workers=2 s.toml",
        "s.toml",
        None,
        None,
        2,
    ),
];

#[test]
fn commands_with_their_options(rt: HostRuntime) -> Result<(), Fail> {
    for (asked, line, text, share, time, workers) in ASKED {
        let name = name(&rt, rt.alloc(), text)?;
        let widths = Widths { share, time };
        let command = match asked {
            Compare => Command::Compare {
                study: name,
                widths,
                workers,
                method: Method::Elimination,
            },
            Solve | Summary => Command::Solve {
                file: name,
                widths,
                workers,
                summary: matches!(asked, Summary),
                method: Method::Elimination,
            },
        };
        assert_eq!(rt; read(rt.alloc(), line)?, Ok(command), "{line}");
    }
    Ok(())
}

/// Arguments, and the method that they ask for.
const METHODS: [(&str, Method); 6] = [
    ("solve a.csv --method elimination", Method::Elimination),
    ("solve a.csv --method certificate", Method::Certificate),
    (
        "--method=certificate solve a.csv --workers 2",
        Method::Certificate,
    ),
    (
        "solve a.csv --summary --method=certificate --",
        Method::Certificate,
    ),
    ("compare s.toml --method certificate", Method::Certificate),
    ("compare --method=elimination s.toml", Method::Elimination),
];

#[test]
fn commands_with_a_method(rt: HostRuntime) -> Result<(), Fail> {
    for (line, method) in METHODS {
        let asked = match read(rt.alloc(), line)? {
            Ok(Command::Solve { method, .. }) | Ok(Command::Compare { method, .. }) => Some(method),
            _ => None,
        };
        assert_eq!(rt; asked, Some(method), "{line}");
    }
    Ok(())
}

const BAD_OPTIONS: &str = "-x\n\
    --x\n\
    --width5\n\
    -width=5\n\
    --Width=5\n\
    --widths=5\n\
    --time=5\n\
    --width\n\
    --width=\n\
    --width \n\
    --width 1\n\
    --width=0\n\
    --width=+2\n\
    --width=2.5\n\
    --width==2\n\
    --width=1000000000\n\
    --width=0000000002\n\
    --width -5\n\
    --width --\n\
    --width --summary\n\
    --width=5 --width 6\n\
    --width=5 --width=5\n\
    --time-width\n\
    --time-width 1\n\
    --time-width=1000000000\n\
    --time-width 3 --time-width=3\n\
    --workers\n\
    --workers=0\n\
    --workers 17\n\
    --workers=0000000016\n\
    --workers=one\n\
    --workers=2 --workers=2\n\
    --workers --workers 2\n\
    --method\n\
    --method=\n\
    --method=Certificate\n\
    --method certify\n\
    --method=1\n\
    --method certificate --method=certificate\n\
    --method certificate --method elimination\n\
    --summary=\n\
    --summary=yes\n\
    --summary yes\n\
    --summary --summary\n\
    --summary --width=2 --summary";

#[test]
fn options_that_give_no_command(rt: HostRuntime) -> Result<(), Fail> {
    for options in BAD_OPTIONS.lines() {
        let line = format!(in rt.alloc(); "solve a.csv {options}")?;
        assert_eq!(rt;
            read(rt.alloc(), &line)?,
            Err(WordsEnd::NoCommand),
            "{options}"
        );
    }
    Ok(())
}

/// The longest name has 255 bytes.
#[test]
fn a_file_name_of_256_bytes(rt: HostRuntime) -> Result<(), Fail> {
    let mut line = String::from_str(rt.alloc(), "compare ")?;
    for _ in 0..255 {
        line.push('a')?;
    }
    assert!(rt; read(rt.alloc(), &line)?.is_ok());
    line.push('a')?;
    assert_eq!(rt; read(rt.alloc(), &line)?, Err(WordsEnd::NoCommand));
    Ok(())
}
