//! What follows of placed plans and of the sites of a unit. The calls answer nothing: each one's contract is a theorem.
ghost use Rattle.std.specs.Prelude.{◌≡◌, ◌<◌, ◌==◌, if◌then◌else◌, ℕ, true, List};
ghost use Rattle.hyper_model.specs.Measures.{is_of_region};
ghost use Rattle.hyper_model.specs.Plans.{IsAccepted, atoms, located, units};
ghost use Rattle.hyper_model.specs.declared.TheConstants.{WHOLE_TIME};
ghost use Rattle.hyper_model.specs.declared.kinds.Measure.{Measure};
ghost use Rattle.hyper_model.specs.declared.parts.PlanParts.{PlanParts};
ghost use Rattle.site_sweep.specs.Placed.{placed};
ghost use Rattle.site_sweep.specs.Sites.{AreSitesOf};
ghost use Rattle.site_sweep.specs.Truth.{AreBestKept, AreDroppedBeaten, ContainsSites};
ghost use Rattle.site_sweep.specs.declared.site_list.Site.{Site};

/// A plan that was accepted still is with a unit placed at an atom: this unit is there and nowhere else, and each other
/// one where it was.
pub fn law_placed()
    ensures accepted { (p : PlanParts) → IsAccepted p → (n k : ℕ) → n < units p → k < atoms p → IsAccepted (placed p n k) }
    ensures located { (p : PlanParts) → IsAccepted p → (n k : ℕ) → n < units p → (m j : ℕ) → m < units p → j < atoms p
        → located (placed p n k) m j ≡ (if m == n then (if j == k then WHOLE_TIME else 0) else located p m j) }
{}

/// The sites of a unit are one list, and the ends of each contain the measure of the plan with the unit there, for every
/// solution. Each site that is dropped has a measure that is strictly greater than that of a site that is kept, for every
/// solution of both plans. So no site with the least measure is dropped.
pub fn law_sites()
    ensures alone { (p : PlanParts) (n : ℕ) (m : Measure) (sites others : List Site) → AreSitesOf p n m sites
        → AreSitesOf p n m others → others ≡ sites }
    ensures contains { (p : PlanParts) → IsAccepted p → (n : ℕ) → n < units p → (m : Measure) → is_of_region m ≡ true
        → (sites : List Site) → AreSitesOf p n m sites → ContainsSites p n m sites }
    ensures beaten { (p : PlanParts) → IsAccepted p → (n : ℕ) → n < units p → (m : Measure) → is_of_region m ≡ true
        → (sites : List Site) → AreSitesOf p n m sites → AreDroppedBeaten p n m sites }
    ensures best { (p : PlanParts) → IsAccepted p → (n : ℕ) → n < units p → (m : Measure) → is_of_region m ≡ true
        → (sites : List Site) → AreSitesOf p n m sites → AreBestKept p n m sites }
{}
