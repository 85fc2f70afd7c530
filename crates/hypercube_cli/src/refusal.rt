ghost use Rattle.std.specs.Prelude.{◌≡◌};

use day_replay::DayRefusal;
use finite_line::FiniteRefusal;
use pair_dispatch::PairRefusal;
use plan_compare::StudyRefusal;
use plan_maker::MakeRefusal;
use plan_reader::{FleetRefusal, PlanRefusal};
use site_sweep::SweepRefusal;
use text_lines::RefusalCode;

/// What was refused, and why. It is never for lack of memory.
#[derive(Clone, Copy, Debug, PartialEq, Eq)]
pub enum Refusal {
    /// The plan at this place: 1 for the plan that is solved, and from 1 on those of a study.
    Plan(u32, PlanRefusal),
    /// The study.
    Study(StudyRefusal),
    /// The plan that was to be made.
    Make(MakeRefusal),
    /// The plan that was to have waiting places.
    Finite(FiniteRefusal),
    /// The plan whose calls were to need two units.
    Pair(PairRefusal),
    /// The unit of a plan that was to be tried at each atom.
    Sweep(SweepRefusal),
    /// The recorded day, at place 2.
    Day(DayRefusal),
    /// The fleet, at place 1.
    Fleet(FleetRefusal),
}

/// What the text line of a refusal says.
#[derive(Clone, Copy, Debug, PartialEq, Eq)]
pub struct RefusalFields {
    /// The place of the text that is refused, and 0 for what stands at none.
    pub place: u32,
    /// The number of the reason, and its arguments.
    pub code: RefusalCode,
}

impl Refusal {
    ghost use Rattle.hypercube_cli.specs.Refusals.{fields_of};

    /// What its text line says.
    pub fn fields(self) -> RefusalFields
        ensures { result ≡ fields_of self }
    {
        let (place, code) = match self {
            Refusal::Plan(place, plan) => (place, plan.code()),
            Refusal::Study(study) => (0, study.code()),
            Refusal::Make(plan) => (0, plan.code()),
            Refusal::Finite(plan) => (1, plan.code()),
            Refusal::Pair(plan) => (1, plan.code()),
            Refusal::Sweep(unit) => (1, unit.code()),
            Refusal::Day(day) => (2, day.code()),
            Refusal::Fleet(fleet) => (1, fleet.code()),
        };
        RefusalFields { place, code }
    }
}
