ghost use Rattle.std.specs.Prelude.{◌≡◌, IfOk};
ghost use Rattle.hyper_model.specs.Plans.{IsAccepted};
ghost use Rattle.command_words.specs.Options.{AreWorkers};
ghost use Rattle.plan_solver.specs.SoundEnclosures.{IsEnclosureBy};
ghost use Rattle.hypercube_cli.specs.Tasks.Reports.{IsReported, IsTrueReport};

use crate::Outcome;
use crate::answer::Answer;
use crate::stop::Stop;
use crate::tasks::plan_task::PlanTask;
use hyper_model::{Enclosures, Method, Plan};
use report_text::{ReportEnd, Widths, label, report};
use std::alloc::{AllocError, Global};

/// Reports the measures of a plan.
#[derive(Drop)]
pub(crate) struct Solve {
    pub widths: Widths,
    pub workers: u32,
    pub summary: bool,
    pub method: Method,
}

impl PlanTask for Solve {
    ghost ends = { λ task plan. IsReported plan task.method task.widths task.summary };

    ghost proves = { λ task plan. IsTrueReport plan task.method task.summary };

    ghost in_range = { λ task. AreWorkers task.workers };

    fn answer_for<E: Fn(&[Plan], Method, u32) -> Result<Vec<Enclosures>, AllocError>>(
        self,
        alloc: Global,
        plan: Plan,
        enclose: &E,
    ) -> Result<Answer, Stop> {
        let plans = [plan];
        let found = enclose(&plans, self.method, self.workers)?;
        let Solve {
            widths,
            summary,
            method,
            ..
        } = self;
        Ok(report_answer(alloc, &plans[0], &found[0], method, widths, summary)?)
    }
}

/// The report of a plan, or its summary, or the first of its measures that is too wide.
fn report_answer(
    alloc: Global,
    plan: &Plan,
    found: &Enclosures,
    method: Method,
    widths: Widths,
    summary: bool,
) -> Result<Answer, AllocError>
    requires accepted { IsAccepted plan.now }
    requires enclosed { IsEnclosureBy method plan.now found.now.items }
    ensures ending { IfOk result (λ answer. IsReported plan.now method widths summary answer) }
    ensures proved { IfOk result (λ answer. answer.outcome ≡ Outcome.Done → IsTrueReport plan.now method summary answer.text) }
{
    match report(alloc, plan, found, widths, summary) {
        Ok(text) => Ok(Answer::of_text(text)),
        Err(ReportEnd::TooWide(measure, low, high)) => {
            Answer::of_wide(alloc, &label(alloc, plan, measure)?, 1, measure, low, high)
        }
        Err(ReportEnd::NoMemory) => Err(AllocError),
    }
}
