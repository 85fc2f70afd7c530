ghost use Rattle.command_words.specs.Command.{ArePlaces};
ghost use Rattle.hypercube_cli.specs.Tasks.FiniteLines.{IsFiniteEnding, IsTrueFinite};

use crate::Refusal;
use crate::answer::Answer;
use crate::stop::Stop;
use crate::tasks::plan_task::PlanTask;
use finite_line::{check_finite, enclose_finite, finite_text};
use hyper_model::{Enclosures, Method, Plan};
use std::alloc::{AllocError, Global};

/// Reports the measures of a plan with a limited number of waiting places, or why it can have none.
#[derive(Drop)]
pub(crate) struct Finite {
    pub places: u32,
}

impl PlanTask for Finite {
    ghost ends = { λ task plan. IsFiniteEnding plan task.places };

    ghost proves = { λ task plan. IsTrueFinite plan task.places };

    ghost in_range = { λ task. ArePlaces task.places };

    fn answer_for<E: Fn(&[Plan], Method, u32) -> Result<Vec<Enclosures>, AllocError>>(
        self,
        alloc: Global,
        plan: Plan,
        _enclose: &E,
    ) -> Result<Answer, Stop> {
        if let Err(refusal) = check_finite(&plan) {
            return Err(Stop::Refused(Refusal::Finite(refusal)));
        }
        let found = enclose_finite(alloc, &plan, self.places)?;
        Ok(Answer::of_text(finite_text(alloc, &plan, self.places, &found)?))
    }
}
