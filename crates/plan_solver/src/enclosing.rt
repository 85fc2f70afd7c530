ghost use Rattle.std.specs.Prelude.{◌≤◌, IfOk};
ghost use Rattle.hyper_model.specs.Measures.{AreInRange, ContainsSolutions};
ghost use Rattle.hyper_model.specs.Solutions.{HasSolution};
ghost use Rattle.plan_solver.specs.Enclosures.{IsEnclosureOf, IsOnlyEnclosure};
ghost use Rattle.plan_solver.specs.PlanWeights.{ArePlanWeights};

use crate::measuring::measures;
use crate::{Solver, Weighed};
use hyper_model::{Enclosures, Plan, law_accepted, law_existence};
use rate_matrix::Gate;
use std::alloc::{AllocError, Global};
use std::thread::Threads;

/// All measures of a plan in the order in which a report prints them, each with ends that contain its value.
///
/// The value is the one that Larson's formulas give for any solution of the plan's balance equations, and there is
/// one (Larson 1974; Larson and Odoni, Urban Operations Research, chapter 5). The two measures of a district from
/// which no call comes have no value, and no ends. There is only one such list. There is an error only for lack of
/// memory.
pub fn enclose(alloc: Global, plan: &Plan) -> Result<Enclosures, AllocError>
    ensures solvable { HasSolution plan.now }
    ensures exact { IfOk result (λ found. IsEnclosureOf plan.now found.items) }
    ensures alone { IfOk result (λ found. IsOnlyEnclosure plan.now found.items) }
    ensures contains { IfOk result (λ found. ContainsSolutions plan.now found.items) }
    ensures in_range { IfOk result (λ found. AreInRange plan.now found.items) }
{
    law_existence(plan);
    let weighed = Solver::reserved(alloc, plan)?.weigh();
    enclosures(alloc, plan, &weighed)
}

/// Does what [`enclose`] does, the rows of each elimination by 1 to 16 workers.
///
/// Each entry that an elimination changes is computed by the gate, which is given the place of the plan among others,
/// and hears of it once all measures are found. Neither the number of workers nor the gate has a part in what is found.
pub fn enclose_with<R: Threads + Sync, G: Gate + Sync>(
    rt: &R,
    alloc: Global,
    plan: &Plan,
    workers: u32,
    gate: &G,
    place: usize,
) -> Result<Enclosures, AllocError>
    requires some { 1 ≤ workers }
    requires most { workers ≤ 16 }
    ensures solvable { HasSolution plan.now }
    ensures exact { IfOk result (λ found. IsEnclosureOf plan.now found.items) }
    ensures alone { IfOk result (λ found. IsOnlyEnclosure plan.now found.items) }
    ensures contains { IfOk result (λ found. ContainsSolutions plan.now found.items) }
    ensures in_range { IfOk result (λ found. AreInRange plan.now found.items) }
{
    law_existence(plan);
    let weighed = Solver::reserved(alloc, plan)?.weigh_with(rt, workers, gate, place);
    let found = enclosures(alloc, plan, &weighed)?;
    gate.solved(place);
    Ok(found)
}

/// The measures with the ends that a plan's weights give.
fn enclosures(alloc: Global, plan: &Plan, weighed: &Weighed) -> Result<Enclosures, AllocError>
    requires { ArePlanWeights plan.now weighed.now.order weighed.now.weights.items }
    ensures exact { IfOk result (λ found. IsEnclosureOf plan.now found.items) }
    ensures alone { IfOk result (λ found. IsOnlyEnclosure plan.now found.items) }
    ensures contains { IfOk result (λ found. ContainsSolutions plan.now found.items) }
    ensures in_range { IfOk result (λ found. AreInRange plan.now found.items) }
{
    law_accepted(plan);
    measures(alloc, plan, weighed)
}
