//! The laws of the model, over its definitions only (Larson 1974; Larson and Odoni, Urban Operations
//! Research, chapter 5). Their calls answer nothing: each one's contract is a theorem on the plan.
ghost use Rattle.hyper_model.specs.Plans.{IsAccepted};
ghost use Rattle.hyper_model.specs.Solutions.{HasSolution};
ghost use Rattle.hyper_model.specs.Laws.{AreWordsPositive, IsTailPositive, HavePositiveDenominators, AreWordsProportional, IsTailProportional, HaveOneValue, TailLaw, LevelsLaw, HoldsForAnyUnits};

use crate::Plan;

/// The plan's parts are within their limits, and its calls do not queue without end.
pub fn law_accepted(plan: &Plan)
    ensures { IsAccepted plan.now }
{
    let _parts = plan.parts();
}

/// The balance equations have a solution in whole numbers, not all 0.
///
/// Its proof takes one word away after the other (Grassmann, Taksar and Heyman 1985).
pub fn law_existence(plan: &Plan)
    ensures { HasSolution plan.now }
{
    law_accepted(plan);
}

/// In every solution each word has a mass, and so have the waiting calls if calls wait. So each measure
/// that has a value is a ratio whose denominator is not 0.
pub fn law_positive(plan: &Plan)
    ensures words { AreWordsPositive plan.now }
    ensures waiting { IsTailPositive plan.now }
    ensures measures { HavePositiveDenominators plan.now }
{
    law_accepted(plan);
}

/// Any two solutions are proportional, so that every measure, a ratio of masses, has one value.
pub fn law_proportion(plan: &Plan)
    ensures words { AreWordsProportional plan.now }
    ensures waiting { IsTailProportional plan.now }
    ensures measures { HaveOneValue plan.now }
{
    law_accepted(plan);
}

/// With any number of waiting places, from one on, the words have the balance that they have without any,
/// and the waiting calls have the balance of the line without end, but for the calls that find no place.
pub fn law_tail(plan: &Plan)
    ensures { TailLaw plan.now }
{
    law_accepted(plan);
}

/// If all units serve at one rate, the number of busy units is distributed as in Erlang's loss model:
/// `k + 1` times this rate times the mass of the words with `k + 1` busy units is the rate of all calls
/// times the mass of those with `k`.
pub fn law_levels(plan: &Plan)
    ensures { LevelsLaw plan.now }
{
    law_accepted(plan);
}

/// All these laws hold of plans with any number of units, if the other limits are kept. [`Plan::of`] accepts up to
/// 12 units, since only so many are solved.
pub fn law_any_units()
    ensures existence { HoldsForAnyUnits HasSolution }
    ensures words_positive { HoldsForAnyUnits AreWordsPositive }
    ensures waiting_positive { HoldsForAnyUnits IsTailPositive }
    ensures denominators { HoldsForAnyUnits HavePositiveDenominators }
    ensures words_proportional { HoldsForAnyUnits AreWordsProportional }
    ensures waiting_proportional { HoldsForAnyUnits IsTailProportional }
    ensures one_value { HoldsForAnyUnits HaveOneValue }
    ensures tail { HoldsForAnyUnits TailLaw }
    ensures levels { HoldsForAnyUnits LevelsLaw }
{}
