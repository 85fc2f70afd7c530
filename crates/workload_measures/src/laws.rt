//! What follows from the ends of these measures. The calls answer nothing: each one's contract is a theorem.
ghost use Rattle.std.specs.Prelude.{ℕ, All, List};
ghost use Rattle.fixed_interval.specs.Ends.{Ends};
ghost use Rattle.hyper_model.specs.declared.parts.PlanParts.{PlanParts};
ghost use Rattle.hyper_model.specs.Measures.{AreContained, IsInRange};
ghost use Rattle.hyper_model.specs.Plans.{IsAccepted};
ghost use Rattle.hyper_model.specs.Solutions.{mass_in};
ghost use Rattle.busy_words.specs.Order.{WordOrder};
ghost use Rattle.busy_words.specs.WeightParts.{EnclosesMasses, EnclosesSolution, IsOrderOf};
ghost use Rattle.workload_measures.specs.LoadEnds.{loads_of};

/// The ends contain the measures, for every solution of the plan that the weights enclose, and for any other masses of
/// words that they enclose; and each measure is of one of the plan's units, or of the region.
pub fn law_loads()
    ensures contains { (p : PlanParts) → IsAccepted p → (order : WordOrder) → IsOrderOf p order
        → (items : List Ends) (xs : List ℕ) (z : ℕ) → EnclosesSolution p order items xs z
        → AreContained p (mass_in xs) z (loads_of p order items) }
    ensures contains_masses { (p : PlanParts) → IsAccepted p → (order : WordOrder) → IsOrderOf p order
        → (items : List Ends) (xs : List ℕ) (z : ℕ) → EnclosesMasses p order items xs z
        → AreContained p (mass_in xs) z (loads_of p order items) }
    ensures in_range { (p : PlanParts) (order : WordOrder) (items : List Ends)
        → All (λ e. IsInRange p e.measure) (loads_of p order items) }
{}
