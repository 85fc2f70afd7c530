ghost use Rattle.std.specs.Prelude.{◌≤◌, IfOk};
ghost use Rattle.command_words.specs.Options.{AreWorkers};
ghost use Rattle.plan_solver.specs.SoundEnclosures.{AreEnclosuresBy};

use command_words::Command;
use hyper_model::{Enclosures, Method, Plan};
use plan_compare::enclose_all;
use plan_solver::enclose_by;
use rate_matrix::Gate;
use std::alloc::{AllocError, Global};
use std::thread::{Threads, available_parallelism};

/// The most workers.
const MOST_WORKERS: usize = 16;

/// How many workers there are if the number of processors cannot be known.
const USUAL_WORKERS: u32 = 4;

/// All measures of each plan by a method, in the order of the plans, found by 1 to 16 workers: those of one plan by all workers
/// together, and more plans shared out among them.
pub(crate) fn enclose<R: Threads + Sync, G: Gate + Sync>(
    rt: &R,
    alloc: Global,
    plans: &[Plan],
    method: Method,
    workers: u32,
    gate: &G,
) -> Result<Vec<Enclosures>, AllocError>
    requires { AreWorkers workers }
    ensures { IfOk result (λ found. AreEnclosuresBy method plans.now found.items) }
{
    if plans.len() != 1 {
        return enclose_all(rt, alloc, plans, method, workers, gate);
    }
    let mut found = Vec::new(alloc);
    found.push(enclose_by(rt, alloc, &plans[0], method, workers, gate, 0)?)?;
    Ok(found)
}

/// How many workers can be at work at once for a command whose arguments do not say how many.
///
/// It is asked only for a sweep, since it reads a file of the system's.
pub(crate) fn processors_for<R: Threads>(rt: &R, command: &Command) -> u32
    ensures { AreWorkers result }
{
    match command {
        Command::Sweep { .. } => processors(rt),
        _ => 1,
    }
}

/// How many workers can be at work at once, each on a processor of its own, but at most 16.
fn processors<R: Threads>(rt: &R) -> u32
    ensures { AreWorkers result }
{
    match available_parallelism(rt) {
        Ok(count) => count.get().min(MOST_WORKERS) as u32,
        Err(_) => USUAL_WORKERS,
    }
}
