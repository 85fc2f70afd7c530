ghost use Rattle.travel_measures.specs.Totals.{AreTravelTotals};

use crate::table_sums::longest_mean;
use hyper_model::Plan;

/// What all mean travel times of a plan have in common.
#[derive(Clone, Copy, Debug, PartialEq, Eq)]
pub struct TravelTotals {
    /// The rate of all calls.
    pub calls: u32,
    /// What no mean travel time exceeds, in thousandths of a second.
    pub longest: u64,
}

impl TravelTotals {
    /// Those of a plan, found by going over all its travel times.
    pub fn of(plan: &Plan) -> TravelTotals
        ensures { AreTravelTotals plan.now result }
    {
        TravelTotals {
            calls: plan.calls(),
            longest: longest_mean(plan),
        }
    }
}
