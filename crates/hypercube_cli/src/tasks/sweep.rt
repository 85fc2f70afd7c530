ghost use Rattle.std.specs.Prelude.{◌≡◌, ◌<◌, true, IfOk};
ghost use Rattle.hyper_model.specs.Measures.{is_of_region};
ghost use Rattle.hyper_model.specs.Plans.{IsAccepted, units};
ghost use Rattle.command_words.specs.Options.{AreWorkers};
ghost use Rattle.plan_solver.specs.Enclosures.{AreEnclosuresOf};
ghost use Rattle.site_sweep.specs.Sites.{AreSitesOf};
ghost use Rattle.hypercube_cli.specs.Tasks.SweptSites.{IsSweepEnding, IsTrueSweep};

use crate::Refusal;
use crate::answer::Answer;
use crate::stop::Stop;
use crate::tasks::plan_task::PlanTask;
use command_words::Name255;
use hyper_model::{Enclosures, Measure, Method, Plan};
use site_sweep::{find_unit, sweep_text, sweep_with};
use std::alloc::{AllocError, Global};

/// Tries a unit of a plan at each atom, the sites shared out among so many workers.
#[derive(Drop)]
pub(crate) struct Sweep {
    pub unit: Name255,
    pub measure: Measure,
    pub workers: u32,
}

impl PlanTask for Sweep {
    ghost ends = { λ task plan. IsSweepEnding plan task.unit task.measure };

    ghost proves = { λ task plan. IsTrueSweep plan task.unit task.measure };

    ghost in_range = { λ task. (is_of_region task.measure ≡ true) × AreWorkers task.workers };

    fn answer_for<E: Fn(&[Plan], Method, u32) -> Result<Vec<Enclosures>, AllocError>>(
        self,
        alloc: Global,
        plan: Plan,
        enclose: &E,
    ) -> Result<Answer, Stop> {
        let unit = match find_unit(&plan, self.unit.text().as_bytes()) {
            Ok(unit) => unit,
            Err(refusal) => return Err(Stop::Refused(Refusal::Sweep(refusal))),
        };
        let sites = sweep_with(
            alloc,
            &plan,
            unit,
            self.measure,
            self.workers,
            &|plans: &[Plan], workers: u32| -> Result<Vec<Enclosures>, AllocError>
                requires { E.pre enclose.now plans Method.Elimination workers }
                ensures { E.post enclose.entry.now plans.entry Method.Elimination workers result }
            { enclose(plans, Method::Elimination, workers) },
        )?;
        Ok(Answer::of_text(sweep_text(alloc, &plan, unit, self.measure, &sites)?))
    }
}
