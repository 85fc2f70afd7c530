//! What follows from the weights of a plan, and from the ends of its measures. The calls answer nothing: each one's
//! contract is a theorem.
ghost use Rattle.std.specs.Prelude.{ℕ, List};
ghost use Rattle.fixed_interval.specs.Ends.{Ends};
ghost use Rattle.hyper_model.specs.declared.kinds.Enclosed.{Enclosed};
ghost use Rattle.hyper_model.specs.declared.kinds.Method.{Method};
ghost use Rattle.hyper_model.specs.declared.parts.PlanParts.{PlanParts};
ghost use Rattle.hyper_model.specs.Measures.{AreInRange, ContainsSolutions};
ghost use Rattle.hyper_model.specs.Plans.{IsAccepted};
ghost use Rattle.hyper_model.specs.Solutions.{IsSolution};
ghost use Rattle.busy_words.specs.Order.{WordOrder};
ghost use Rattle.busy_words.specs.WeightParts.{EnclosesSolution};
ghost use Rattle.plan_solver.specs.Enclosures.{IsEnclosureOf, IsOnlyEnclosure};
ghost use Rattle.plan_solver.specs.PlanWeights.{ArePlanWeights};
ghost use Rattle.plan_solver.specs.SoundEnclosures.{IsEnclosureBy, IsSoundEnclosure};

/// The weights of a plan enclose every solution of it, up to one common factor.
pub fn law_weights()
    ensures { (p : PlanParts) → IsAccepted p → (order : WordOrder) (items : List Ends) → ArePlanWeights p order items
        → (xs : List ℕ) (z : ℕ) → IsSolution p xs z → EnclosesSolution p order items xs z }
{}

/// The measures of a plan with the ends of the method are one list. They are of the plan's units and atoms, and each
/// contains its value for every solution.
pub fn law_enclosure()
    ensures alone { (p : PlanParts) (found : List Enclosed) → IsEnclosureOf p found → IsOnlyEnclosure p found }
    ensures contains { (p : PlanParts) → IsAccepted p → (found : List Enclosed) → IsEnclosureOf p found
        → ContainsSolutions p found }
    ensures in_range { (p : PlanParts) (found : List Enclosed) → IsEnclosureOf p found → AreInRange p found }
{}

/// What either method finds for an accepted plan is sound: its ends are those of weights that enclose every solution. And what is
/// sound is of the plan's units and atoms, and each of its measures contains its value for every solution.
pub fn law_sound()
    ensures sound { (m : Method) (p : PlanParts) → IsAccepted p → (found : List Enclosed) → IsEnclosureBy m p found
        → IsSoundEnclosure p found }
    ensures contains { (p : PlanParts) → IsAccepted p → (found : List Enclosed) → IsSoundEnclosure p found
        → ContainsSolutions p found }
    ensures in_range { (p : PlanParts) (found : List Enclosed) → IsSoundEnclosure p found → AreInRange p found }
{}
