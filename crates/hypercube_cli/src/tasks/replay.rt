ghost use Rattle.std.specs.Prelude.{◌≡◌, ◌≤◌, ℕ, Some, IfErr, IfOk, IfSome, length};
ghost use Rattle.std.specs.Result.{IsErrOf};
ghost use Rattle.outer_world.specs.Faults.{Rose};
ghost use Rattle.hyper_model.specs.Plans.{IsAccepted};
ghost use Rattle.command_words.specs.Options.{AreWorkers};
ghost use Rattle.plan_solver.specs.SoundEnclosures.{AreEnclosuresBy};
ghost use Rattle.day_replay.specs.Days.{IsDayOf};
ghost use Rattle.day_replay.specs.Played.{IsReplayOf};
ghost use Rattle.hypercube_cli.specs.Endings.{EndsFrom};
ghost use Rattle.hypercube_cli.specs.Runs.{Answers};
ghost use Rattle.hypercube_cli.specs.Stops.{IsOfCommand, IsOfReading};
ghost use Rattle.hypercube_cli.specs.Tasks.ReplayedDays.{IsReplayed, IsReplayText, IsTextOfPlayed, IsTrueReplay, day_at, day_in, replay_meaning};

use crate::Refusal;
use crate::answer::Answer;
use crate::reading::{PlanText, Readable, read_named};
use crate::stop::Stop;
use crate::tasks::Task;
use command_words::Name255;
use day_replay::{Day, DayRefusal, Played, ReplayEnd, read_day, replay, replay_text};
use hyper_model::{Enclosures, Method, Plan, law_accepted};
use outer_world::{MOST_SHELF_NAME_BYTES, Shelf};
use std::alloc::{AllocError, Global};

/// Replays a recorded day of a plan.
#[derive(Drop)]
pub(crate) struct Replay {
    pub file: Name255,
    pub day: Name255,
}

impl Task for Replay {
    ghost meaning = { λ task. replay_meaning task.file task.day };

    ghost in_range = { λ _. Unit {0} };

    fn answer<S: Shelf, E: Fn(&[Plan], Method, u32) -> Result<Vec<Enclosures>, AllocError>>(
        self,
        alloc: Global,
        shelf: &mut S,
        enclose: &E,
    ) -> Result<Answer, Stop> {
        let plan = read_named(alloc, shelf, &PlanText { place: 1 }, self.file.text())?;
        law_accepted(&plan);
        day_answer(alloc, shelf, plan, self.day.text(), enclose)
    }
}

/// The text of a recorded day of this plan, which is asked for at place 2.
#[derive(Drop)]
struct DayText<'a> {
    plan: &'a Plan,
}

impl<'a> Readable for DayText<'a> {
    type Content = Day;

    ghost place = { λ _. 2 };

    ghost content = { λ kind. day_in kind.plan.now };

    ghost keeps = { λ kind day. IsDayOf kind.plan.now day };

    fn place(&self) -> u32 {
        2
    }

    fn read(&self, alloc: Global, text: &[u8]) -> Result<Day, Stop> {
        match read_day(alloc, self.plan, text) {
            Ok(day) => Ok(day),
            Err(DayRefusal::NoMemory) => Err(Stop::NoMemory),
            Err(refusal) => Err(Stop::Refused(Refusal::Day(refusal))),
        }
    }
}

/// Replays the day of this name.
fn day_answer<S: Shelf, E: Fn(&[Plan], Method, u32) -> Result<Vec<Enclosures>, AllocError>>(
    alloc: Global,
    shelf: &mut S,
    plan: Plan,
    name: &str,
    enclose: &E,
) -> Result<Answer, Stop>
    requires accepted { IsAccepted plan }
    requires name { length name.now ≤ MOST_SHELF_NAME_BYTES }
    requires may_enclose { (plans : _) (method : _) (workers : ℕ) → AreWorkers workers
        → E.pre enclose.now plans method workers }
    requires encloses { (plans : _) (method : _) (workers : ℕ) (found : _)
        → E.post enclose.now plans method workers found → IfOk found (λ found. AreEnclosuresBy method plans.now found.items) }
    ensures ending { IfSome (S.told shelf.old) (λ texts.
        Answers (EndsFrom (day_at texts plan name.now) (IsReplayed plan)) result) }
    ensures proved { IfSome (S.told shelf.old) (λ texts.
        IfOk result (λ answer. IsTrueReplay texts plan name.now answer.text)) }
    ensures stop { IfErr result IsOfCommand }
    ensures fault { IsErrOf result Stop.ReadFault → Rose S.last_count (S.faults shelf.old) (S.faults shelf.new)
        × (S.last_fault shelf.new ≡ Some name.now) }
    ensures told { S.told shelf.new ≡ S.told shelf.old }
    ensures count { S.faults shelf.old ≤ S.faults shelf.new }
{
    let day = read_named(alloc, shelf, &DayText { plan: &plan }, name)?;
    replay_answer(alloc, plan, &day, enclose)
}

/// Replays a day, which is refused if it frees a unit that is not busy.
fn replay_answer<E: Fn(&[Plan], Method, u32) -> Result<Vec<Enclosures>, AllocError>>(
    alloc: Global,
    plan: Plan,
    day: &Day,
    enclose: &E,
) -> Result<Answer, Stop>
    requires form { IsDayOf plan day.now }
    requires may_enclose { (plans : _) (method : _) (workers : ℕ) → AreWorkers workers
        → E.pre enclose.now plans method workers }
    requires encloses { (plans : _) (method : _) (workers : ℕ) (found : _)
        → E.post enclose.now plans method workers found → IfOk found (λ found. AreEnclosuresBy method plans.now found.items) }
    ensures ending { Answers (IsReplayed plan day.now) result }
    ensures proved { IfOk result (λ answer. IsReplayText plan day.now answer.text) }
    ensures stop { IfErr result IsOfReading }
{
    match replay(alloc, &plan, day) {
        Ok(played) => Ok(Answer::of_text(played_text(alloc, plan, &played, enclose)?)),
        Err(ReplayEnd::NotBusy(number)) => {
            let refusal = DayRefusal::NotBusy(u64::from(number));
            Err(Stop::Refused(Refusal::Day(refusal)))
        }
        Err(ReplayEnd::NoMemory) => Err(Stop::NoMemory),
    }
}

/// The text of a replayed day.
fn played_text<E: Fn(&[Plan], Method, u32) -> Result<Vec<Enclosures>, AllocError>>(
    alloc: Global,
    plan: Plan,
    played: &Played,
    enclose: &E,
) -> Result<Vec<u8>, AllocError>
    requires played { IsReplayOf plan played.now }
    requires may_enclose { (plans : _) (method : _) (workers : ℕ) → AreWorkers workers
        → E.pre enclose.now plans method workers }
    requires encloses { (plans : _) (method : _) (workers : ℕ) (found : _)
        → E.post enclose.now plans method workers found → IfOk found (λ found. AreEnclosuresBy method plans.now found.items) }
    ensures { IfOk result (λ text. IsTextOfPlayed plan played.now text.items) }
{
    let plans = [plan];
    let found = enclose(&plans, Method::Elimination, 1)?;
    replay_text(alloc, &plans[0], played, &found[0])
}
