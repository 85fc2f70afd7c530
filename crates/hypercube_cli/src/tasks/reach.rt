ghost use Rattle.std.specs.Prelude.{IfOk};
ghost use Rattle.hypercube_cli.specs.Tasks.ReachedCalls.{IsReachReported, IsTrueReach};

use crate::answer::Answer;
use crate::stop::Stop;
use crate::tasks::plan_task::PlanTask;
use command_words::LimitList;
use hyper_model::{Enclosures, Limits, Method, Plan};
use std::alloc::{AllocError, Global};
use timely_reach::{law_reached, reach, reach_text};

/// Reports the shares of a plan's calls that are reached within each limit.
#[derive(Drop)]
pub(crate) struct Reach {
    pub limits: LimitList,
}

impl PlanTask for Reach {
    ghost ends = { λ task plan. IsReachReported plan task.limits };

    ghost proves = { λ task plan. IsTrueReach plan task.limits };

    ghost in_range = { λ _. Unit {0} };

    fn answer_for<E: Fn(&[Plan], Method, u32) -> Result<Vec<Enclosures>, AllocError>>(
        self,
        alloc: Global,
        plan: Plan,
        _enclose: &E,
    ) -> Result<Answer, Stop> {
        Ok(reach_answer(alloc, &plan, self.limits.limits())?)
    }
}

/// The text of the shares.
fn reach_answer(alloc: Global, plan: &Plan, limits: &Limits) -> Result<Answer, AllocError>
    ensures ending { IfOk result (IsReachReported plan.now limits.now) }
    ensures proved { IfOk result (λ answer. IsTrueReach plan.now limits.now answer.text) }
{
    law_reached(plan);
    let rows = reach(alloc, plan, limits)?;
    Ok(Answer::of_text(reach_text(alloc, plan, limits, &rows)?))
}
