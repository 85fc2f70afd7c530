use crate::commands::made_text;
use crate::shelves::{text_of, texts_of, words_of};
use hypercube_cli::{Outcome, hypercube};
use outer_world::{NamedText, SureShelf, SureSink};
use rate_matrix::OpenGate;
use std::alloc::{AllocError, Global};
use std::process::Abort;
use std::str::from_utf8;
use std::test::Fail;
use std::thread::Threads;
use worked_plans::{TWO_UNITS, grid};

const MADE: [(&str, u64, u64); 17] = [
    ("1.csv", 4, 1),
    ("2.csv", 4, 2),
    ("3.csv", 4, 3),
    ("4.csv", 4, 4),
    ("5.csv", 4, 5),
    ("6.csv", 4, 6),
    ("7.csv", 4, 7),
    ("8.csv", 4, 8),
    ("9.csv", 4, 9),
    ("10.csv", 4, 10),
    ("11.csv", 4, 11),
    ("12.csv", 4, 12),
    ("13.csv", 4, 13),
    ("14.csv", 4, 14),
    ("15.csv", 4, 15),
    ("16.csv", 4, 16),
    ("ten.csv", 10, 7),
];

const STUDY: &str = "\
plans = [
    \"1.csv\",
    \"2.csv\",
    \"3.csv\",
    \"4.csv\",
    \"5.csv\",
    \"6.csv\",
    \"7.csv\",
    \"8.csv\",
    \"9.csv\",
    \"10.csv\",
    \"11.csv\",
    \"12.csv\",
    \"13.csv\",
    \"14.csv\",
    \"15.csv\",
    \"16.csv\",
]
measures = [\"loss\", \"interdistrict\", \"travel\"]
";

/// In each, lines that write the same bytes.
const ALIKE: [[&str; 3]; 3] = [
    [
        "solve two.csv --workers 1",
        "solve two.csv --workers 3",
        "solve two.csv --workers 16",
    ],
    [
        "solve ten.csv --summary --workers 1",
        "solve ten.csv --summary --workers 3",
        "solve ten.csv --summary --workers 16",
    ],
    [
        "compare s.toml --workers 1",
        "compare s.toml --workers 3",
        "compare s.toml --workers 16",
    ],
];

#[test]
fn lines_alike_write_the_same_bytes(rt: HostRuntime) -> Result<(), Fail> {
    let texts = shelf(rt.alloc())?;
    for [first, second, third] in ALIKE {
        let bytes = bytes_written(&rt, rt.alloc(), &texts, first)?;
        assert!(rt; bytes == bytes_written(&rt, rt.alloc(), &texts, second)?);
        assert!(rt; bytes == bytes_written(&rt, rt.alloc(), &texts, third)?);
    }
    Ok(())
}

/// Two units with opposite lists, made plans, and a study of sixteen of them.
fn shelf(alloc: Global) -> Result<Vec<NamedText>, Fail> {
    let mut texts = texts_of(alloc, &[("two.csv", TWO_UNITS), ("s.toml", STUDY)])?;
    for (name, units, number) in MADE {
        let text = made_text(alloc, units, number)?;
        texts
            .push(text_of(alloc, name, &text)?)
            .map_err(|_| AllocError)?;
    }
    Ok(texts)
}

fn bytes_written<R: Abort + Threads + Sync>(
    rt: &R,
    alloc: Global,
    texts: &[NamedText],
    line: &str,
) -> Result<Vec<u8>, Fail> {
    let words = words_of(alloc, line)?;
    let mut shelf = SureShelf::of(texts, 1000);
    let mut sink = SureSink::of(1000);
    let got = hypercube(rt, alloc, &words, &mut shelf, &mut sink, &OpenGate);
    assert_eq!(rt; got, Outcome::Done, "{line}");
    Ok(Vec::from_slice(alloc, sink.bytes())?)
}

/// No order of dispatch changes Erlang's loss of eight servers and four calls for each service.
#[test]
fn loss_of_eight_units_on_a_grid(rt: HostRuntime) -> Result<(), Fail> {
    let text = grid(rt.alloc())?;
    let texts = texts_of(rt.alloc(), &[("grid.csv", text.as_str())])?;
    let bytes = bytes_written(&rt, rt.alloc(), &texts, "solve grid.csv --summary")?;
    let loss = from_utf8(&bytes)?
        .split('\n')
        .find(|line| line.starts_with("loss,"));
    assert_eq!(rt; loss, Some("loss,0.030420,0.030421"));
    Ok(())
}
