ghost use Rattle.std.specs.Prelude.{◌≡◌, ◌≤◌, ℕ, Some, false, IfErr, IfOk, IfSome};
ghost use Rattle.std.specs.Result.{IsErrOf};
ghost use Rattle.outer_world.specs.Faults.{Rose};
ghost use Rattle.command_words.specs.Command.{NumbersInRange};
ghost use Rattle.command_words.specs.Options.{AreWorkers};
ghost use Rattle.plan_solver.specs.SoundEnclosures.{AreEnclosuresBy};
ghost use Rattle.hypercube_cli.specs.Meanings.{Meaning, texts_for};
ghost use Rattle.hypercube_cli.specs.Commands.{meaning_of};
ghost use Rattle.hypercube_cli.specs.Runs.{Answers};
ghost use Rattle.hypercube_cli.specs.Stops.{IsOfCommand};
ghost use Rattle.hypercube_cli.specs.Untouched.{IsUntouched};

mod compare;
mod finite;
mod fleet;
mod make;
mod pairs;
mod plan_task;
mod reach;
mod replay;
mod solve;
mod sweep;

use crate::Outcome;
use crate::answer::Answer;
use crate::stop::Stop;
use command_words::Command;
use compare::Compare;
use finite::Finite;
use fleet::FleetReport;
use hyper_model::{Enclosures, Method, Plan};
use make::Make;
use outer_world::Shelf;
use pairs::Pairs;
use plan_task::OfPlan;
use reach::Reach;
use replay::Replay;
use solve::Solve;
use std::alloc::{AllocError, Global};
use sweep::Sweep;

/// What a command asks for, done over any shelf.
///
/// A task knows neither threads nor a gate: whoever does it hands in what encloses plans by so many workers.
pub(crate) trait Task {
    ghost meaning: { Self → Meaning };

    // Whether its numbers are in range: that of its workers, or whatever else it has.
    ghost in_range: { Self → Type 0 };

    /// What it comes to.
    fn answer<S: Shelf, E: Fn(&[Plan], Method, u32) -> Result<Vec<Enclosures>, AllocError>>(
        self,
        alloc: Global,
        shelf: &mut S,
        enclose: &E,
    ) -> Result<Answer, Stop>
        requires in_range { in_range self }
        requires may_enclose { (plans : _) (method : _) (workers : ℕ) → AreWorkers workers
            → E.pre enclose.now plans method workers }
        requires encloses { (plans : _) (method : _) (workers : ℕ) (found : _)
            → E.post enclose.now plans method workers found → IfOk found (λ found. AreEnclosuresBy method plans.now found.items) }
        ensures ending { IfSome (texts_for (meaning self) (S.told shelf.old)) (λ texts.
            Answers ((meaning self).ends texts) result) }
        ensures proved { IfSome (texts_for (meaning self) (S.told shelf.old)) (λ texts.
            IfOk result (λ answer. answer.outcome ≡ Outcome.Done → (meaning self).proves texts answer.text)) }
        ensures stop { IfErr result IsOfCommand }
        ensures fault { IsErrOf result Stop.ReadFault → Rose S.last_count (S.faults shelf.old) (S.faults shelf.new)
            × (meaning self).asks (S.told shelf.old) (S.last_fault shelf.new) }
        ensures untouched { (meaning self).reads ≡ false →
            IsUntouched S.told S.left S.open_name S.faults S.last_fault shelf.old shelf.new }
        ensures told { S.told shelf.new ≡ S.told shelf.old }
        ensures count { S.faults shelf.old ≤ S.faults shelf.new };
}

/// A command, and how many workers can be at work for it at once: it uses them if its arguments do not say how many.
#[derive(Drop)]
pub(crate) struct Job {
    pub command: Command,
    pub processors: u32,
}

impl Task for Job {
    ghost meaning = { λ job. meaning_of (Some job.command) };

    ghost in_range = { λ job. NumbersInRange job.command × AreWorkers job.processors };

    #[tactic(auto, unfolding(crate::specs::Commands::meaning_of))]
    fn answer<S: Shelf, E: Fn(&[Plan], Method, u32) -> Result<Vec<Enclosures>, AllocError>>(
        self,
        alloc: Global,
        shelf: &mut S,
        enclose: &E,
    ) -> Result<Answer, Stop> {
        let Job {
            command,
            processors,
        } = self;
        match command {
            Command::Solve {
                file,
                widths,
                workers,
                summary,
                method,
            } => {
                let task = Solve {
                    widths,
                    workers,
                    summary,
                    method,
                };
                OfPlan { file, task }.answer(alloc, shelf, enclose)
            }
            Command::Compare {
                study,
                widths,
                workers,
                method,
            } => Compare {
                study,
                widths,
                workers,
                method,
            }
            .answer(alloc, shelf, enclose),
            Command::Make { units, number } => Make { units, number }.answer(alloc, shelf, enclose),
            Command::Finite { file, places } => {
                let task = Finite { places };
                OfPlan { file, task }.answer(alloc, shelf, enclose)
            }
            Command::Pairs { file, percent } => {
                let task = Pairs { percent };
                OfPlan { file, task }.answer(alloc, shelf, enclose)
            }
            Command::Sweep {
                file,
                unit,
                measure,
            } => {
                let task = Sweep {
                    unit,
                    measure,
                    workers: processors,
                };
                OfPlan { file, task }.answer(alloc, shelf, enclose)
            }
            Command::Replay { file, day } => Replay { file, day }.answer(alloc, shelf, enclose),
            Command::Reach { file, limits } => {
                let task = Reach { limits };
                OfPlan { file, task }.answer(alloc, shelf, enclose)
            }
            Command::Fleet {
                file,
                widths,
                summary,
            } => FleetReport {
                file,
                widths,
                summary,
            }
            .answer(alloc, shelf, enclose),
        }
    }
}
