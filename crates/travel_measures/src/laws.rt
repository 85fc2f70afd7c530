//! What follows from the ends of mean travel times. The call answers nothing: its contract is a theorem.
ghost use Rattle.std.specs.Prelude.{ℕ, All, List};
ghost use Rattle.hyper_model.specs.declared.parts.PlanParts.{PlanParts};
ghost use Rattle.hyper_model.specs.Measures.{AreContained, IsInRange};
ghost use Rattle.hyper_model.specs.Solutions.{mass_in};
ghost use Rattle.dispatch_fractions.specs.PartLists.{HasParts, PartList};
ghost use Rattle.dispatch_fractions.specs.Fractions.{HasEndsOnly};
ghost use Rattle.travel_measures.specs.TravelEnds.{travel_times_of};

/// The ends contain the mean times, for every solution that has these parts. Each is of the region, or of one of the
/// plan's units and atoms. Only those of a district that no call comes from are without ends.
pub fn law_travel_times()
    ensures contains { (p : PlanParts) (parts : PartList) (xs : List ℕ) (z : ℕ) → HasParts p xs z parts
        → AreContained p (mass_in xs) z (travel_times_of p parts) }
    ensures in_range { (p : PlanParts) (parts : PartList) → All (λ e. IsInRange p e.measure) (travel_times_of p parts) }
    ensures without { (p : PlanParts) (parts : PartList) → All (HasEndsOnly p) (travel_times_of p parts) }
{}
