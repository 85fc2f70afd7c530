//! What holds of every plan whose calls may need two units. The calls answer nothing: each one's contract is a theorem.
ghost use Rattle.std.specs.Prelude.{◌≡◌, ℕ, ◌<◌, ◌≤◌, All, List};
ghost use Rattle.hyper_model.specs.declared.parts.PlanParts.{PlanParts};
ghost use Rattle.hyper_model.specs.Plans.{IsAccepted};
ghost use Rattle.hyper_model.specs.Solutions.{mass_in};
ghost use Rattle.hyper_model.specs.Tables.{AreProportional};
ghost use Rattle.hyper_model.specs.Words.{words};
ghost use Rattle.pair_dispatch.specs.declared.measure.PairEnds.{PairEnds};
ghost use Rattle.pair_dispatch.specs.PairEnds.{IsPairEnclosureOf};
ghost use Rattle.pair_dispatch.specs.PairMeasures.{ContainsSolutions, IsOfUnits};
ghost use Rattle.pair_dispatch.specs.PairRates.{HasPairSolution, IsPairSolution, pair_table};

use hyper_model::{Plan, law_accepted};

/// The balance of the words has a solution in whole numbers, not all 0; in every solution the word without a busy unit
/// has a mass; and any two solutions are proportional.
pub fn law_pair_solutions(plan: &Plan, percent: u32)
    requires { percent ≤ 100 }
    ensures exists { HasPairSolution plan.now percent }
    ensures first { (xs : List ℕ) → IsPairSolution plan.now percent xs → 0 < mass_in xs 0 }
    ensures proportion { AreProportional (words plan.now) (pair_table plan.now percent) }
{
    law_accepted(plan);
}

/// The measures of a plan with the ends of the method are one list. They are of the plan's units, and each contains its
/// value for every solution, a ratio whose denominator is positive.
pub fn law_pairs()
    ensures alone { (p : PlanParts) (percent : ℕ) (found others : List PairEnds) → IsPairEnclosureOf p percent found
        → IsPairEnclosureOf p percent others → others ≡ found }
    ensures contains { (p : PlanParts) (percent : ℕ) → IsAccepted p → percent ≤ 100 → (found : List PairEnds)
        → IsPairEnclosureOf p percent found → ContainsSolutions p percent found }
    ensures in_range { (p : PlanParts) (percent : ℕ) (found : List PairEnds) → IsPairEnclosureOf p percent found
        → All (λ e. IsOfUnits p e.measure) found }
{}
