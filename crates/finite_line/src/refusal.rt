ghost use Rattle.std.specs.Prelude.{◌≡◌, ℕ, ◌↔◌, OnOk, Err, IfErr};
ghost use Rattle.hyper_model.specs.declared.TheConstants.{MOST_UNITS};
ghost use Rattle.hyper_model.specs.Plans.{units};
ghost use Rattle.finite_line.specs.Refusals.{IsCauseOf, IsFinitePlan};

use crate::MOST_FINITE_UNITS;
use hyper_model::{Line, Plan};
use text_lines::RefusalCode;
use thiserror::Error;

/// Why a plan has no answer with waiting places.
#[derive(Clone, Copy, Debug, PartialEq, Eq, Error)]
pub enum FiniteRefusal {
    /// The plan's own line is without end.
    #[error("the plan's line is infinite, and so has all places")]
    LineNotZero,
    /// The plan has this many units, more than [`MOST_FINITE_UNITS`].
    #[error("the plan has {0} units, and not at most 11")]
    FiniteUnits(u64),
}

impl FiniteRefusal {
    ghost use Rattle.finite_line.specs.Refusals.{code_of};

    /// The number by which the refusal is reported, and the number of units if that is the reason.
    pub fn code(&self) -> RefusalCode
        ensures { result ≡ code_of self.now }
    {
        match self {
            FiniteRefusal::LineNotZero => RefusalCode::plain(80),
            FiniteRefusal::FiniteUnits(count) => RefusalCode::of_one(81, *count),
        }
    }
}

/// Whether the plan can have waiting places: its line is the zero line, and it has at most 11 units. More calls than service
/// are allowed.
pub fn check_finite(plan: &Plan) -> Result<(), FiniteRefusal>
    ensures line { (result ≡ Err FiniteRefusal.LineNotZero) ↔ (plan.now.line ≡ Line.Infinite) }
    ensures units { (count : ℕ) → (result ≡ Err (FiniteRefusal.FiniteUnits count))
        ↔ IsCauseOf plan.now (FiniteRefusal.FiniteUnits count) }
    ensures possible { OnOk result (IsFinitePlan plan.now) }
    ensures cause { IfErr result (IsCauseOf plan.now) }
{
    let units = plan.units();
    match plan.line() {
        Line::Infinite => Err(FiniteRefusal::LineNotZero),
        Line::Zero if units > MOST_FINITE_UNITS => Err(FiniteRefusal::FiniteUnits(units as u64)),
        Line::Zero => Ok(()),
    }
}
