ghost use Rattle.std.specs.Prelude.{◌≤◌, IfOk};
ghost use Rattle.hyper_model.specs.Measures.{AreInRange, ContainsSolutions};
ghost use Rattle.hyper_model.specs.Solutions.{HasSolution};
ghost use Rattle.plan_solver.specs.SoundEnclosures.{IsEnclosureBy};

use crate::{enclose_certified, enclose_with};
use hyper_model::{Enclosures, Method, Plan};
use rate_matrix::Gate;
use std::alloc::{AllocError, Global};
use std::thread::Threads;

/// All measures of a plan by a method, as [`enclose_with`] and [`enclose_certified`] find them.
///
/// A plan for which no certificate is found is answered by elimination. A certificate is looked for by one worker. By either
/// method the gate hears of the plan once all measures are found. There is an error only for lack of memory.
pub fn enclose_by<R: Threads + Sync, G: Gate + Sync>(
    rt: &R,
    alloc: Global,
    plan: &Plan,
    method: Method,
    workers: u32,
    gate: &G,
    place: usize,
) -> Result<Enclosures, AllocError>
    requires some { 1 ≤ workers }
    requires most { workers ≤ 16 }
    ensures solvable { HasSolution plan.now }
    ensures exact { IfOk result (λ found. IsEnclosureBy method plan.now found.items) }
    ensures contains { IfOk result (λ found. ContainsSolutions plan.now found.items) }
    ensures in_range { IfOk result (λ found. AreInRange plan.now found.items) }
{
    match method {
        Method::Elimination => enclose_with(rt, alloc, plan, workers, gate, place),
        Method::Certificate => match enclose_certified(alloc, plan)? {
            Some(found) => {
                gate.solved(place);
                Ok(found)
            }
            None => enclose_with(rt, alloc, plan, workers, gate, place),
        },
    }
}
