ghost use Rattle.std.specs.Prelude.{◌≡◌, ◌≤◌, All, IfOk, List};
ghost use Rattle.hyper_model.specs.Solutions.{HasSolution};
ghost use Rattle.plan_solver.specs.PlanWeights.{ArePlanWeights};
ghost use Rattle.timely_reach.specs.Reach.{ContainsReach, IsReachRow};
ghost use Rattle.timely_reach.specs.ReachRows.{IsReachOf};
ghost use Rattle.timely_reach.specs.declared.kinds.ReachRow.{ReachRow};

use crate::ReachRows;
use crate::rows::all_rows;
use crate::timely::timely_plans;
use dispatch_fractions::Parts;
use hyper_model::{Limits, Plan, law_existence};
use plan_solver::{Solver, Weighed};
use rate_matrix::Gate;
use std::alloc::{AllocError, Global};
use std::thread::Threads;

/// The shares of calls that are reached within each limit, in the order in which they are printed, each with ends that contain
/// its value for every solution of the balance equations.
///
/// A limit is a number of seconds. The plan is weighed once for all limits. There is only one such list of rows. There is an
/// error only for lack of memory.
pub fn reach(alloc: Global, plan: &Plan, limits: &Limits) -> Result<ReachRows, AllocError>
    ensures solvable { HasSolution plan.now }
    ensures exact { IfOk result (IsReachOf plan.now limits.now) }
    ensures alone { IfOk result (λ rows. (others : List ReachRow) → IsReachOf plan.now limits.now others → others ≡ rows) }
    ensures contains { IfOk result (ContainsReach plan.now limits.now) }
    ensures in_range { IfOk result (All (IsReachRow plan.now)) }
{
    law_existence(plan);
    let weighed = Solver::reserved(alloc, plan)?.weigh();
    reached(alloc, plan, limits, &weighed)
}

/// Does what [`reach`] does, the rows of each elimination by 1 to 16 workers.
///
/// Each entry that an elimination changes is computed by the gate, which is given the place of the plan among others.
/// Neither the number of workers nor the gate has a part in what is found.
pub fn reach_with<R: Threads + Sync, G: Gate + Sync>(
    rt: &R,
    alloc: Global,
    plan: &Plan,
    limits: &Limits,
    workers: u32,
    gate: &G,
    place: usize,
) -> Result<ReachRows, AllocError>
    requires some { 1 ≤ workers }
    requires most { workers ≤ 16 }
    ensures solvable { HasSolution plan.now }
    ensures exact { IfOk result (IsReachOf plan.now limits.now) }
    ensures alone { IfOk result (λ rows. (others : List ReachRow) → IsReachOf plan.now limits.now others → others ≡ rows) }
    ensures contains { IfOk result (ContainsReach plan.now limits.now) }
    ensures in_range { IfOk result (All (IsReachRow plan.now)) }
{
    law_existence(plan);
    let weighed = Solver::reserved(alloc, plan)?.weigh_with(rt, workers, gate, place);
    reached(alloc, plan, limits, &weighed)
}

// The shares with the ends that a plan's weights give.
fn reached(
    alloc: Global,
    plan: &Plan,
    limits: &Limits,
    weighed: &Weighed,
) -> Result<ReachRows, AllocError>
    requires { ArePlanWeights plan.now weighed.now.order weighed.now.weights.items }
    ensures exact { IfOk result (IsReachOf plan.now limits.now) }
    ensures alone { IfOk result (λ rows. (others : List ReachRow) → IsReachOf plan.now limits.now others → others ≡ rows) }
    ensures contains { IfOk result (ContainsReach plan.now limits.now) }
    ensures in_range { IfOk result (All (IsReachRow plan.now)) }
{
    law_existence(plan);
    let _places = plan.travel_table().cols();
    let _calls = plan.calls();
    let timely = timely_plans(alloc, plan, limits)?;
    let parts = Parts::of(alloc, plan, &weighed.order, &weighed.weights)?;
    all_rows(alloc, plan, &timely, &parts)
}
