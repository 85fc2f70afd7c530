//! What follows from the parts and the ends of these measures. The calls answer nothing: each one's contract is a
//! theorem.
ghost use Rattle.std.specs.Prelude.{ℕ, All, List, ◌++◌};
ghost use Rattle.fixed_interval.specs.Ends.{Ends};
ghost use Rattle.fixed_interval.specs.WeightList.{ends_at};
ghost use Rattle.hyper_model.specs.declared.parts.PlanParts.{PlanParts};
ghost use Rattle.hyper_model.specs.Measures.{AreContained, IsInRange};
ghost use Rattle.hyper_model.specs.Plans.{IsAccepted};
ghost use Rattle.hyper_model.specs.Solutions.{mass_in};
ghost use Rattle.busy_words.specs.Order.{WordOrder};
ghost use Rattle.busy_words.specs.WeightParts.{EnclosesMasses, EnclosesSolution, IsOrderOf};
ghost use Rattle.dispatch_fractions.specs.PartLists.{ArePartsOf, HasParts, PartList, parts_from};
ghost use Rattle.dispatch_fractions.specs.Fractions.{HasEndsOnly, fractions_of, interdistrict_of};

/// The parts of a plan's weights stand where [`Parts`](crate::Parts) reads them, and contain what they stand for, for
/// every solution that the weights enclose, and for any other masses of words that they enclose.
pub fn law_parts()
    ensures parts { (p : PlanParts) (order : WordOrder) (w : ℕ → Ends) → ArePartsOf p order w (parts_from p order w) }
    ensures encloses { (p : PlanParts) → IsAccepted p → (order : WordOrder) → IsOrderOf p order
        → (items : List Ends) (xs : List ℕ) (z : ℕ) → EnclosesSolution p order items xs z
        → HasParts p xs z (parts_from p order (ends_at items)) }
    ensures encloses_masses { (p : PlanParts) → IsAccepted p → (order : WordOrder) → IsOrderOf p order
        → (items : List Ends) (xs : List ℕ) (z : ℕ) → EnclosesMasses p order items xs z
        → HasParts p xs z (parts_from p order (ends_at items)) }
{}

/// The ends contain the measures, for every solution that has these parts, and any other masses of words. Each measure is of the region, or of one
/// of the plan's units and atoms. Only those of a district that no call comes from are without ends.
pub fn law_dispatches()
    ensures contains { (p : PlanParts) (parts : PartList) (xs : List ℕ) (z : ℕ) → HasParts p xs z parts
        → AreContained p (mass_in xs) z (fractions_of p parts ++ interdistrict_of p parts) }
    ensures in_range { (p : PlanParts) (parts : PartList)
        → All (λ e. IsInRange p e.measure) (fractions_of p parts ++ interdistrict_of p parts) }
    ensures without { (p : PlanParts) (parts : PartList)
        → All (HasEndsOnly p) (fractions_of p parts ++ interdistrict_of p parts) }
{}
