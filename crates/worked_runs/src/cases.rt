use crate::commands::made_text;
use crate::shelves::{shelf_with, words_of};
use hypercube_cli::{Outcome, hypercube, status};
use outer_world::{MemoryShelf, MemorySink};
use rate_matrix::{Gate, OpenGate};
use std::alloc::{AllocError, Global};
use std::process::Abort;
use std::str::from_utf8;
use std::test::Fail;
use std::thread::Threads;
use worked_plans::street;

/// A command line over a shelf with a text, and how the run ends.
#[derive(Clone, Copy)]
pub(crate) struct Case {
    pub name: &'static str,
    pub line: &'static str,
    pub text: Text,
    pub status: u8,
    pub written: Written,
}

/// A text: a base, or the base with a change.
#[derive(Clone, Copy)]
pub(crate) enum Text {
    /// The base itself.
    Plain(&'static str),
    /// The base, a part of which is replaced.
    Changed(&'static str, &'static str, &'static [u8]),
    /// So many bytes of the base.
    Cut(&'static str, usize),
    /// The base, and lines after it.
    Longer(&'static str, &'static str),
    /// The base, and so many rows after it, each with its number, from 1 on, between these two parts.
    Counted(&'static str, &'static str, &'static str, u32),
    /// The base after so many notes.
    Noted(&'static str, usize),
    /// The base, and a note that makes it so many bytes longer.
    Filled(&'static str, usize),
    /// So many times this part.
    Repeated(&'static str, usize),
    /// The made plan of so many units and this number.
    Made(u64, u64),
    /// So many units and two hundred atoms along a street.
    Street(u8),
}

/// What is written.
#[derive(Clone, Copy)]
pub(crate) enum Written {
    /// This text.
    Whole(&'static str),
    /// A text that begins so.
    Begins(&'static str),
    /// A text with these lines among others.
    Lines(&'static [&'static str]),
}

/// A command line, the text of `a.csv` and `s.toml`, the status of the end, and what is written.
pub(crate) type Ended = (&'static str, Text, u8, Written);

/// Whether runs end so; each goes by the name of its command line.
pub(crate) fn check_all<R: Abort + Threads + Sync>(
    rt: &R,
    alloc: Global,
    ended: &[Ended],
) -> Result<(), Fail> {
    for (line, text, status, written) in ended {
        let case = Case {
            name: *line,
            line: *line,
            text: *text,
            status: *status,
            written: *written,
        };
        check(rt, alloc, &case)?;
    }
    Ok(())
}

/// How a case ends, after a look at its status and at what it writes.
pub(crate) fn check<R: Abort + Threads + Sync>(
    rt: &R,
    alloc: Global,
    case: &Case,
) -> Result<Outcome, Fail> {
    let text = bytes_of(alloc, &case.text)?;
    let (got, bytes) = run(rt, alloc, case.line, &text, &OpenGate)?;
    assert_eq!(rt; status(&got), case.status, "{}", case.name);
    let written = from_utf8(&bytes)?;
    assert!(rt; is_as(written, &case.written), "{}: {written}", case.name);
    Ok(got)
}

/// How a command line ends over a shelf with this text, and what it writes.
pub(crate) fn run<R: Threads + Sync, G: Gate + Sync>(
    rt: &R,
    alloc: Global,
    line: &str,
    text: &[u8],
    gate: &G,
) -> Result<(Outcome, Vec<u8>), Fail> {
    let texts = shelf_with(alloc, text)?;
    let words = words_of(alloc, line)?;
    let mut shelf = MemoryShelf::of(&texts, 65536, &[]);
    let mut sink = MemorySink::of(4096, &[]);
    let got = hypercube(rt, alloc, &words, &mut shelf, &mut sink, gate);
    Ok((got, Vec::from_slice(alloc, sink.bytes())?))
}

/// The same, if the shelf gives ten bytes at a time, the sink takes a hundred, and their calls of these numbers fail.
pub(crate) fn run_with_faults<R: Threads + Sync>(
    rt: &R,
    alloc: Global,
    line: &str,
    text: &str,
    reads: &[u64],
    writes: &[u64],
) -> Result<(Outcome, Vec<u8>), Fail> {
    let texts = shelf_with(alloc, text.as_bytes())?;
    let words = words_of(alloc, line)?;
    let mut shelf = MemoryShelf::of(&texts, 10, reads);
    let mut sink = MemorySink::of(100, writes);
    let got = hypercube(rt, alloc, &words, &mut shelf, &mut sink, &OpenGate);
    Ok((got, Vec::from_slice(alloc, sink.bytes())?))
}

fn is_as(written: &str, wanted: &Written) -> bool {
    match *wanted {
        Written::Whole(text) => written == text,
        Written::Begins(text) => written.starts_with(text),
        Written::Lines(lines) => lines.iter().all(|line| has_line(written, line)),
    }
}

fn has_line(written: &str, line: &str) -> bool {
    written.split('\n').any(|found| found == line)
}

fn bytes_of(alloc: Global, text: &Text) -> Result<Vec<u8>, Fail> {
    Ok(match *text {
        Text::Plain(base) => Vec::from_slice(alloc, base.as_bytes())?,
        Text::Changed(base, old, new) => changed_text(alloc, base, old, new)?,
        Text::Cut(base, bytes) => {
            let front = base.as_bytes().get(..bytes).ok_or("too short")?;
            Vec::from_slice(alloc, front)?
        },
        Text::Longer(base, lines) => text_of_both(alloc, base.as_bytes(), lines.as_bytes())?,
        Text::Counted(base, front, back, rows) => text_with_rows(alloc, base, front, back, rows)?,
        Text::Noted(base, notes) => {
            let front = repeated_text(alloc, "note,x\n", notes)?;
            text_of_both(alloc, &front, base.as_bytes())?
        },
        Text::Filled(base, bytes) => text_of_size(alloc, base, bytes)?,
        Text::Repeated(part, times) => repeated_text(alloc, part, times)?,
        Text::Made(units, number) => made_text(alloc, units, number)?,
        Text::Street(units) => Vec::from_slice(alloc, street(alloc, units)?.as_bytes())?,
    })
}

fn changed_text(alloc: Global, base: &str, old: &str, new: &[u8]) -> Result<Vec<u8>, Fail> {
    let (front, back) = base.split_once(old).ok_or("no such part")?;
    let mut text = text_of_both(alloc, front.as_bytes(), new)?;
    text.extend_from_slice(back.as_bytes())?;
    Ok(text)
}

fn text_of_both(alloc: Global, front: &[u8], back: &[u8]) -> Result<Vec<u8>, AllocError> {
    let mut text = Vec::from_slice(alloc, front)?;
    text.extend_from_slice(back)?;
    Ok(text)
}

fn text_with_rows(
    alloc: Global,
    base: &str,
    front: &str,
    back: &str,
    rows: u32,
) -> Result<Vec<u8>, AllocError> {
    let mut text = String::from_str(alloc, base)?;
    for row in 0..rows {
        write!(text, "{front}{}{back}", u64::from(row) + 1)?;
    }
    Vec::from_slice(alloc, text.as_bytes())
}

fn repeated_text(alloc: Global, part: &str, times: usize) -> Result<Vec<u8>, AllocError> {
    let mut text = Vec::new(alloc);
    for _ in 0..times {
        text.extend_from_slice(part.as_bytes())?;
    }
    Ok(text)
}

fn text_of_size(alloc: Global, base: &str, bytes: usize) -> Result<Vec<u8>, AllocError> {
    let mut text = text_of_both(alloc, base.as_bytes(), b"note,")?;
    for _ in 5..bytes {
        text.push(b'x')?;
    }
    Ok(text)
}
