//! Times the readers of plans and days beside a bare pass of the CSV reader over the same text.
//!
//! An argument names a plan's file; without it a small plan is read. A second one names the file of a day, which is read
//! and played again in place of the plan. What was read goes to standard output, and the least time of each way to
//! standard error.
#![tactic(auto)]

mod ways;

use plan_reader::read_plan;
use std::time::{Duration, Instant};
use std::{env, fs, io};
use ways::Way;
use worked_plans::HALF_LOAD;

/// How often a text is read in each way.
const ROUNDS: u32 = 9;

fn main(rt: HostRuntime) -> io::Result<()> {
    let mut names = env::args(&rt)?.skip(1);
    let Some(plan) = names.next() else {
        return compare(&rt, HALF_LOAD.as_bytes(), Way::Plan)
    };
    let text = fs::read(&rt, plan)?;
    match names.next() {
        Some(day) => {
            let day = fs::read(&rt, day)?;
            compare_day(&rt, &text, &day)
        }
        None => compare(&rt, &text, Way::Plan),
    }
}

/// Reads a day beside a bare pass over its text, if the plan is accepted.
fn compare_day(rt: &HostRuntime, plan: &[u8], day: &[u8]) -> io::Result<()> {
    match read_plan(rt.alloc(), plan) {
        Ok(plan) => compare(rt, day, Way::Day(&plan)),
        Err(refusal) => eprintln!(rt; "refused: {refusal}"),
    }
}

/// Reads a text by a bare pass and in another way, and prints what each found and how long it took.
fn compare(rt: &HostRuntime, text: &[u8], other: Way<'_>) -> io::Result<()> {
    for way in [Way::Fields, other] {
        let found = ways::read(rt.alloc(), way, text)?;
        println!(rt; "{found}")?;
        let time = least_time(rt, way, text)?;
        eprintln!(rt; "{way}: {} microseconds", time.as_micros())?;
    }
    Ok(())
}

fn least_time(rt: &HostRuntime, way: Way<'_>, text: &[u8]) -> io::Result<Duration> {
    let mut least = Duration::MAX;
    for _ in 0..ROUNDS {
        least = least.min(time(rt, way, text)?);
    }
    Ok(least)
}

fn time(rt: &HostRuntime, way: Way<'_>, text: &[u8]) -> io::Result<Duration> {
    let start = Instant::now(rt)?;
    let _found = ways::read(rt.alloc(), way, text)?;
    start.elapsed(rt)
}
