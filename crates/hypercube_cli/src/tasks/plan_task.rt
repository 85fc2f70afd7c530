ghost use Rattle.std.specs.Prelude.{◌≡◌, ◌≤◌, ℕ, List, IfErr, IfOk};
ghost use Rattle.hyper_model.specs.Plans.{IsAccepted};
ghost use Rattle.hyper_model.specs.declared.parts.PlanParts.{PlanParts};
ghost use Rattle.command_words.specs.Options.{AreWorkers};
ghost use Rattle.plan_solver.specs.SoundEnclosures.{AreEnclosuresBy};
ghost use Rattle.hypercube_cli.specs.Endings.{Ending};
ghost use Rattle.hypercube_cli.specs.Runs.{Answers};
ghost use Rattle.hypercube_cli.specs.Stops.{IsOfReading};
ghost use Rattle.hypercube_cli.specs.Tasks.Plans.{plan_meaning};

use crate::Outcome;
use crate::answer::Answer;
use crate::reading::{PlanText, read_named};
use crate::stop::Stop;
use crate::tasks::Task;
use command_words::Name255;
use hyper_model::{Enclosures, Method, Plan, law_accepted};
use outer_world::Shelf;
use std::alloc::{AllocError, Global};

/// What a command asks of one plan, once it is read.
pub(crate) trait PlanTask {
    ghost ends: { Self → PlanParts → Ending → Type 0 };

    // What is proved of the plan and of the text that is written if it ends well.
    ghost proves: { Self → PlanParts → List ℕ → Type 0 };

    ghost in_range: { Self → Type 0 };

    /// What it comes to for this plan.
    fn answer_for<E: Fn(&[Plan], Method, u32) -> Result<Vec<Enclosures>, AllocError>>(
        self,
        alloc: Global,
        plan: Plan,
        enclose: &E,
    ) -> Result<Answer, Stop>
        requires in_range { in_range self }
        requires accepted { IsAccepted plan }
        requires may_enclose { (plans : _) (method : _) (workers : ℕ) → AreWorkers workers
            → E.pre enclose.now plans method workers }
        requires encloses { (plans : _) (method : _) (workers : ℕ) (found : _)
            → E.post enclose.now plans method workers found → IfOk found (λ found. AreEnclosuresBy method plans.now found.items) }
        ensures ending { Answers (ends self plan) result }
        ensures proved { IfOk result (λ answer. answer.outcome ≡ Outcome.Done → proves self plan answer.text) }
        ensures stop { IfErr result IsOfReading };
}

/// A task of the plan in a file.
#[derive(Drop)]
pub(crate) struct OfPlan<T> {
    pub file: Name255,
    pub task: T,
}

impl<T: PlanTask + Drop> Task for OfPlan<T> {
    ghost meaning = { λ asked. plan_meaning asked.file (T.ends asked.task) (T.proves asked.task) };

    ghost in_range = { λ asked. T.in_range asked.task };

    fn answer<S: Shelf, E: Fn(&[Plan], Method, u32) -> Result<Vec<Enclosures>, AllocError>>(
        self,
        alloc: Global,
        shelf: &mut S,
        enclose: &E,
    ) -> Result<Answer, Stop> {
        let OfPlan { file, task } = self;
        let plan = read_named(alloc, shelf, &PlanText { place: 1 }, file.text())?;
        law_accepted(&plan);
        task.answer_for(alloc, plan, enclose)
    }
}
