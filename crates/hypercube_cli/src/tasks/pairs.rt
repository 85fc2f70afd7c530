ghost use Rattle.std.specs.Prelude.{◌≤◌};
ghost use Rattle.hypercube_cli.specs.Tasks.PairedCalls.{IsPairsEnding, IsTruePairs};

use crate::Refusal;
use crate::answer::Answer;
use crate::stop::Stop;
use crate::tasks::plan_task::PlanTask;
use hyper_model::{Enclosures, Method, Plan};
use pair_dispatch::{check_pairs, enclose_pairs, pair_text};
use std::alloc::{AllocError, Global};

/// Reports the measures of a plan, of whose calls so many in a hundred need two units, or why they may not.
#[derive(Drop)]
pub(crate) struct Pairs {
    pub percent: u32,
}

impl PlanTask for Pairs {
    ghost ends = { λ task plan. IsPairsEnding plan task.percent };

    ghost proves = { λ task plan. IsTruePairs plan task.percent };

    ghost in_range = { λ task. task.percent ≤ 100 };

    fn answer_for<E: Fn(&[Plan], Method, u32) -> Result<Vec<Enclosures>, AllocError>>(
        self,
        alloc: Global,
        plan: Plan,
        _enclose: &E,
    ) -> Result<Answer, Stop> {
        if let Err(refusal) = check_pairs(&plan) {
            return Err(Stop::Refused(Refusal::Pair(refusal)));
        }
        let found = enclose_pairs(alloc, &plan, self.percent)?;
        Ok(Answer::of_text(pair_text(alloc, &plan, self.percent, &found)?))
    }
}
