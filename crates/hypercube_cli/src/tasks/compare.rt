ghost use Rattle.std.specs.Prelude.{◌≡◌, ◌≤◌, All, Contains, IsSome, IfErr, IfOk, IfSome, length};
ghost use Rattle.std.specs.Result.{IsErrOf};
ghost use Rattle.outer_world.specs.Faults.{Rose};
ghost use Rattle.hyper_model.specs.Plans.{IsAccepted};
ghost use Rattle.command_words.specs.Options.{AreWorkers};
ghost use Rattle.plan_solver.specs.SoundEnclosures.{AreEnclosuresBy};
ghost use Rattle.hypercube_cli.specs.Readings.{ReachesAs};
ghost use Rattle.hypercube_cli.specs.Stops.{IsOfCommand};
ghost use Rattle.hypercube_cli.specs.Tasks.Comparisons.{IsCompared, IsTrueComparison, compare_meaning, plans_from, study_in};

use crate::answer::Answer;
use crate::reading::{PlanText, Readable, read_named};
use crate::stop::Stop;
use crate::tasks::Task;
use crate::{Outcome, Refusal};
use command_words::Name255;
use hyper_model::{Enclosures, Method, Plan, law_accepted};
use outer_world::Shelf;
use plan_compare::{
    CompareEnd, Study, StudyRefusal, VerdictList, comparison, read_study, verdicts,
};
use report_text::Widths;
use std::alloc::{AllocError, Global};

/// Compares the plans of a study.
#[derive(Drop)]
pub(crate) struct Compare {
    pub study: Name255,
    pub widths: Widths,
    pub workers: u32,
    pub method: Method,
}

impl Task for Compare {
    ghost meaning = { λ task. compare_meaning task.study task.widths task.method };

    ghost in_range = { λ task. AreWorkers task.workers };

    fn answer<S: Shelf, E: Fn(&[Plan], Method, u32) -> Result<Vec<Enclosures>, AllocError>>(
        self,
        alloc: Global,
        shelf: &mut S,
        enclose: &E,
    ) -> Result<Answer, Stop> {
        let study = read_named(alloc, shelf, &StudyText, self.study.text())?;
        let plans = read_plans(alloc, shelf, &study)?;
        let Compare {
            widths,
            workers,
            method,
            ..
        } = self;
        let found = enclose(&plans, method, workers)?;
        Ok(comparison_answer(alloc, &study, &plans, &found, method, widths)?)
    }
}

/// The text of a study, which stands at place 0.
#[derive(Clone, Copy, Debug, PartialEq, Eq)]
struct StudyText;

impl Readable for StudyText {
    type Content = Study;

    ghost place = { λ _. 0 };

    ghost content = { λ _. study_in };

    ghost keeps = { λ _ _. Unit {0} };

    fn place(&self) -> u32 {
        0
    }

    fn read(&self, alloc: Global, text: &[u8]) -> Result<Study, Stop> {
        match read_study(alloc, text) {
            Ok(study) => Ok(study),
            Err(StudyRefusal::NoMemory) => Err(Stop::NoMemory),
            Err(refusal) => Err(Stop::Refused(Refusal::Study(refusal))),
        }
    }
}

/// Reads the plans of a study one after the other, up to the first that is missing or refused.
fn read_plans<S: Shelf>(alloc: Global, shelf: &mut S, study: &Study) -> Result<Vec<Plan>, Stop>
    ensures plans { IfSome (S.told shelf.old) (λ texts.
        ReachesAs (λ plans. plans.items) (plans_from texts 1 study.now.plans) result) }
    ensures accepted { IfOk result (λ plans. All IsAccepted plans.items) }
    ensures one_each { IfOk result (λ plans. length plans.items ≡ length study.now.plans) }
    ensures stop { IfErr result IsOfCommand }
    ensures fault { IsErrOf result Stop.ReadFault → Rose S.last_count (S.faults shelf.old) (S.faults shelf.new)
        × IfSome (S.last_fault shelf.new) (Contains study.now.plans) }
    ensures named { IsErrOf result Stop.ReadFault → IsSome (S.last_fault shelf.new) }
    ensures told { S.told shelf.new ≡ S.told shelf.old }
    ensures count { S.faults shelf.old ≤ S.faults shelf.new }
{
    let mut plans = Vec::new(alloc);
    for i in 0..study.plans() {
        let kind = PlanText {
            place: i as u32 + 1,
        };
        let plan = read_named(alloc, shelf, &kind, study.plan_name(i))?;
        law_accepted(&plan);
        if plans.push(plan).is_err() {
            return Err(Stop::NoMemory);
        }
    }
    Ok(plans)
}

/// The comparison of the plans of a study, or the first value that is too wide.
fn comparison_answer(
    alloc: Global,
    study: &Study,
    plans: &[Plan],
    found: &[Enclosures],
    method: Method,
    widths: Widths,
) -> Result<Answer, AllocError>
    requires one_each { length plans.now ≡ length study.now.plans }
    requires accepted { All IsAccepted plans.now }
    requires enclosed { AreEnclosuresBy method plans.now found.now }
    ensures ending { IfOk result (λ answer. IsCompared plans.now method study.now widths answer) }
    ensures proved { IfOk result (λ answer. answer.outcome ≡ Outcome.Done
        → IsTrueComparison method study.now plans.now answer.text) }
{
    let mut list = VerdictList::reserved(alloc, study)?;
    verdicts(study, found, &mut list);
    match comparison(alloc, study, found, &list, widths) {
        Ok(text) => Ok(Answer::of_text(text)),
        Err(CompareEnd::TooWide(place, measure, low, high)) => {
            Answer::of_wide(alloc, measure.word().as_bytes(), place, measure, low, high)
        }
        Err(CompareEnd::NoMemory) => Err(AllocError),
    }
}
