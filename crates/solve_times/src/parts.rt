ghost use Rattle.std.specs.Prelude.{◌≤◌};

use crate::measuring::measure;
use crate::refusal::TimesRefusal;
use hyper_model::Plan;
use plan_reader::read_plan;
use plan_solver::{Solver, enclose_with};
use rate_matrix::OpenGate;
use report_text::{Widths, report};
use std::alloc::Global;
use std::io;
use std::thread::Threads;
use std::time::{Clock, Instant};

/// The widths that any interval keeps.
const ANY: Widths = Widths {
    share: None,
    time: None,
};

/// The nanoseconds of each part of solving a plan.
#[derive(Clone, Copy, Debug)]
pub(crate) struct Parts {
    /// From the text to the plan.
    pub(crate) reading: u128,
    /// From the plan to the weights of its states.
    pub(crate) weighing: u128,
    /// From the weights to the ends of all measures.
    pub(crate) measuring: u128,
    /// From the ends to the report.
    pub(crate) writing: u128,
}

/// Solves the plan of a text by so many workers, and looks at the clock around each part. What is reported is found
/// once more, since the solver hands out weights or measures, and not both.
pub(crate) fn solve<R: Threads + Sync + Clock>(
    rt: &R,
    alloc: Global,
    text: &[u8],
    workers: u32,
) -> Result<(Vec<u8>, Parts), TimesRefusal>
    requires some { 1 ≤ workers }
    requires most { workers ≤ 16 }
{
    let start = Instant::now(rt)?;
    let plan = read_plan(alloc, text)?;
    let reading = start.elapsed(rt)?.as_nanos();
    let (weighing, measuring) = weigh(rt, alloc, &plan, workers)?;
    let (text, writing) = write(rt, alloc, &plan, workers)?;
    let parts = Parts {
        reading,
        weighing,
        measuring,
        writing,
    };
    Ok((text, parts))
}

// The report, and the nanoseconds of its writing.
fn write<R: Threads + Sync + Clock>(
    rt: &R,
    alloc: Global,
    plan: &Plan,
    workers: u32,
) -> Result<(Vec<u8>, u128), TimesRefusal>
    requires some { 1 ≤ workers }
    requires most { workers ≤ 16 }
{
    let found = enclose_with(rt, alloc, plan, workers, &OpenGate, 0)?;
    let start = Instant::now(rt)?;
    let text = report(alloc, plan, &found, ANY, false)?;
    Ok((text, start.elapsed(rt)?.as_nanos()))
}

// The nanoseconds of the weights, and of the measures.
fn weigh<R: Threads + Sync + Clock>(
    rt: &R,
    alloc: Global,
    plan: &Plan,
    workers: u32,
) -> io::Result<(u128, u128)>
    requires some { 1 ≤ workers }
    requires most { workers ≤ 16 }
{
    let start = Instant::now(rt)?;
    let weighed = Solver::reserved(alloc, plan)?.weigh_with(rt, workers, &OpenGate, 0);
    let weighing = start.elapsed(rt)?.as_nanos();
    let middle = Instant::now(rt)?;
    measure(alloc, plan, &weighed)?;
    Ok((weighing, middle.elapsed(rt)?.as_nanos()))
}
