//! What holds of the shares of calls that are reached in time. The calls answer nothing: each one's contract is a theorem.
ghost use Rattle.std.specs.Prelude.{◌≡◌, ℕ, ◌<◌, ◌≤◌, All, List};
ghost use Rattle.hyper_model.specs.declared.TheConstants.{MOST_TRAVEL};
ghost use Rattle.hyper_model.specs.Plans.{atoms, travel};
ghost use Rattle.hyper_model.specs.Solutions.{IsSolution, mass_in};
ghost use Rattle.timely_reach.specs.Reach.{ContainsReach, IsReachInRange, IsReachRow, reached_of};
ghost use Rattle.timely_reach.specs.ReachLaws.{AreTimelyTimes, HavePositiveReachDenominators, IsAtMost, IsWhole};
ghost use Rattle.timely_reach.specs.ReachRows.{IsReachOf};
ghost use Rattle.timely_reach.specs.declared.kinds.ReachMeasure.{ReachMeasure};
ghost use Rattle.timely_reach.specs.declared.kinds.ReachRow.{ReachRow};

use hyper_model::{Plan, law_accepted, law_existence};

/// Each share is the mean travel time of the timely plan. It does not fall as the limit grows. Every call of the region is
/// reached if the limit is at least any travel time, and none if it is less than each. The denominator of each share that has
/// a value is not 0.
pub fn law_reached(plan: &Plan)
    ensures times { (limit : ℕ) → AreTimelyTimes plan.now limit }
    ensures grows { (x : ℕ → ℕ) (z limit more : ℕ) → limit ≤ more → (m : ReachMeasure)
        → IsAtMost (reached_of plan.now x z limit m) (reached_of plan.now x z more m) }
    ensures whole { (xs : List ℕ) (z : ℕ) → IsSolution plan.now xs z → (limit : ℕ) → MOST_TRAVEL ≤ limit
        → IsWhole (reached_of plan.now (mass_in xs) z limit ReachMeasure.Region) }
    ensures none { (x : ℕ → ℕ) (z limit : ℕ)
        → ((k j : ℕ) → k < atoms plan.now → j < atoms plan.now → limit < travel plan.now k j)
        → (m : ReachMeasure) → IsReachInRange plan.now m → (reached_of plan.now x z limit m).numerator ≡ 0 }
    ensures positive { HavePositiveReachDenominators plan.now }
{
    law_accepted(plan);
    let _places = plan.travel_table().cols();
}

/// The rows of a plan for some limits are one list. They are of the plan's units and atoms, and the ends of each contain its
/// share for every solution.
pub fn law_reach(plan: &Plan)
    ensures alone { (limits : List ℕ) (rows others : List ReachRow) → IsReachOf plan.now limits rows
        → IsReachOf plan.now limits others → others ≡ rows }
    ensures contains { (limits : List ℕ) (rows : List ReachRow) → IsReachOf plan.now limits rows
        → ContainsReach plan.now limits rows }
    ensures in_range { (limits : List ℕ) (rows : List ReachRow) → IsReachOf plan.now limits rows
        → All (IsReachRow plan.now) rows }
{
    law_existence(plan);
    let _calls = plan.calls();
    let _places = plan.travel_table().cols();
}
