use crate::MOST_REACH_ROWS;
use hyper_model::{Bounded, MOST_LIMITS, Plan, Value};
use std::marker::Model;
use travel_measures::TravelTotals;

/// A share of calls that are reached in time. Units and atoms are counted from 0.
#[derive(Clone, Copy, Debug, PartialEq, Eq)]
pub enum ReachMeasure {
    /// Of the calls that are answered.
    Region,
    /// Of all calls: one that is lost is not reached.
    All,
    /// Of all calls, those that find a free unit which is there in time: no wait is counted.
    AtOnce,
    /// Of the answered calls of an atom.
    Atom(u16),
    /// Of the calls that a unit answers.
    Unit(u8),
    /// Of the answered calls of a unit's district, whichever unit answers them.
    District(u8),
}

/// A share with the low and the high end that were found of it for each limit, in millionths. There are none for a district
/// that no call comes from.
#[derive(Debug, Drop)]
pub struct ReachRow {
    pub measure: ReachMeasure,
    pub ends: Bounded<Value, MOST_LIMITS>,
}

/// What was found of all shares of a plan, in the order in which they are printed.
pub type ReachRows = Bounded<ReachRow, MOST_REACH_ROWS>;

/// The timely plan of a limit, with what all its mean travel times have in common. Contracts see the plan.
#[derive(Drop)]
pub(crate) struct TimelyPlan {
    pub plan: Plan,
    pub totals: TravelTotals,
}

impl Model for TimelyPlan {
    ghost use Rattle.hyper_model.specs.declared.parts.PlanParts.{PlanParts};
    ghost use Rattle.travel_measures.specs.Totals.{AreTravelTotals};

    ghost Value = { PlanParts };

    ghost view = { λ a. a.plan };

    ghost invariant = { λ a. AreTravelTotals a.plan a.totals };
}

/// The timely plan of each limit.
pub(crate) type TimelyPlans = Bounded<TimelyPlan, MOST_LIMITS>;
