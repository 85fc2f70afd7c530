//! What holds of every plan with waiting places. The call answers nothing: its contract is a theorem.
ghost use Rattle.std.specs.Prelude.{ℕ, ◌≤◌};
ghost use Rattle.finite_line.specs.FiniteMeasures.{HavePositiveFiniteDenominators};
ghost use Rattle.finite_line.specs.FiniteSolutions.{HasFiniteSolution};

use hyper_model::{Plan, law_accepted};

/// With any number of waiting places, from one on, the balance equations have a solution in whole numbers, not all 0, and
/// in every solution each measure is a ratio whose denominator is not 0. More calls than service are allowed.
pub fn law_finite(plan: &Plan)
    ensures solvable { (room : ℕ) → 1 ≤ room → HasFiniteSolution plan.now room }
    ensures positive { (room : ℕ) → 1 ≤ room → HavePositiveFiniteDenominators plan.now room }
{
    law_accepted(plan);
}
