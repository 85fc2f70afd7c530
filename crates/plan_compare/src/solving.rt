ghost use Rattle.std.specs.Prelude.{◌≡◌, ◌≤◌, IfOk};
ghost use Rattle.std.specs.Thread.{IsSync};
ghost use Rattle.plan_compare.specs.Solving.{AreSolvedOf};
ghost use Rattle.plan_solver.specs.SoundEnclosures.{AreEnclosuresBy};

use crate::slots::{Solved, in_order, slots_of};
use hyper_model::{Enclosures, Method, Plan};
use plan_solver::enclose_by;
use rate_matrix::Gate;
use std::alloc::{AllocError, Global};
use std::sync::atomic::{AtomicUsize, Ordering};
use std::thread::{Threads, map_indices};

/// All measures of each plan by a method, in the order of the plans, found by 1 to 16 workers.
///
/// Each worker takes the next plan that none has taken, until none is left. Each entry that an elimination changes is
/// computed by the gate, which is given the plan's place, counted from 0. Neither the number of workers nor the gate has
/// a part in what is found. There is an error only for lack of memory.
pub fn enclose_all<R: Threads + Sync, G: Gate + Sync>(
    rt: &R,
    alloc: Global,
    plans: &[Plan],
    method: Method,
    workers: u32,
    gate: &G,
) -> Result<Vec<Enclosures>, AllocError>
    requires some { 1 ≤ workers }
    requires most { workers ≤ 16 }
    ensures { IfOk result (λ found. AreEnclosuresBy method plans.now found.items) }
{
    let next = AtomicUsize::new(0);
    let lists = map_indices(
        rt,
        alloc,
        plans.len().min(workers as usize),
        &|_worker: usize| -> Result<Vec<Solved>, AllocError>
            requires { IsSync R.row × IsSync G.row }
            ensures { IfOk result (λ solved. AreSolvedOf method plans.entry.now solved.items) }
        { solve_next(rt, alloc, plans, method, gate, &next) },
    )?;
    let slots = slots_of(alloc, plans, lists)?;
    in_order(rt, alloc, plans, method, gate, slots)
}

/// What one worker finds, which takes the next plan that none has taken until none is left.
fn solve_next<R: Threads + Sync, G: Gate + Sync>(
    rt: &R,
    alloc: Global,
    plans: &[Plan],
    method: Method,
    gate: &G,
    next: &AtomicUsize,
) -> Result<Vec<Solved>, AllocError>
    ensures { IfOk result (λ solved. AreSolvedOf method plans.now solved.items) }
{
    let mut solved = Vec::new(alloc);
    for _ in 0..plans.len() {
        let place = next.fetch_add(1, Ordering::SeqCst);
        if place >= plans.len() {
            break;
        }
        let found = enclose_by(rt, alloc, &plans[place], method, 1, gate, place)?;
        solved.push(Solved { place, found })?;
    }
    Ok(solved)
}
