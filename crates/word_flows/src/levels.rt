ghost use Rattle.std.specs.Prelude.{◌^◌, ◌<◌, ◌≤◌};
ghost use Rattle.hyper_model.specs.Plans.{units};
ghost use Rattle.hyper_model.specs.Words.{words};
ghost use Rattle.state_certificate.specs.Masses.{AreMasses};

use crate::rates::words_of;
use busy_words::level;
use hyper_model::Plan;

/// Gives the words of each number of busy units one factor, so that between each two such levels as many calls come as
/// services end (Larson 1974).
///
/// It goes outward from the heaviest level, whose masses stay.
pub(crate) fn balance_levels(plan: &Plan, leavings: &[u64], masses: &mut [u64])
    requires leavings { AreMasses (words plan.now) (2 ^ 54) leavings.now }
    requires masses { AreMasses (words plan.now) (2 ^ 61) masses.old }
    ensures { AreMasses (words plan.now) (2 ^ 61) masses.new }
{
    let heaviest = heaviest_level(plan, leavings, masses);
    balance_above(plan, leavings, masses, heaviest);
    balance_below(plan, leavings, masses, heaviest);
}

/// The level up to which more calls come in a level's words than services end.
fn heaviest_level(plan: &Plan, leavings: &[u64], masses: &[u64]) -> u8
    requires leavings { AreMasses (words plan.now) (2 ^ 54) leavings.now }
    requires masses { AreMasses (words plan.now) (2 ^ 61) masses.now }
    ensures { result ≤ units plan.now }
{
    let units = plan.units() as u8;
    for busy in 1..units + 1 {
        let (coming, ending) = level_flows(plan, leavings, masses, busy);
        if coming < ending {
            return busy - 1;
        }
    }
    units
}

/// Balances each level above this one with the level below it.
fn balance_above(plan: &Plan, leavings: &[u64], masses: &mut [u64], heaviest: u8)
    requires leavings { AreMasses (words plan.now) (2 ^ 54) leavings.now }
    requires masses { AreMasses (words plan.now) (2 ^ 61) masses.old }
    requires heaviest { heaviest ≤ units plan.now }
    ensures { AreMasses (words plan.now) (2 ^ 61) masses.new }
{
    for busy in heaviest..plan.units() as u8 {
        let (coming, _) = level_flows(plan, leavings, masses, busy);
        let (_, ending) = level_flows(plan, leavings, masses, busy + 1);
        scale_level(plan, masses, busy + 1, coming, ending);
    }
}

/// Balances each level below this one with the level above it.
fn balance_below(plan: &Plan, leavings: &[u64], masses: &mut [u64], heaviest: u8)
    requires leavings { AreMasses (words plan.now) (2 ^ 54) leavings.now }
    requires masses { AreMasses (words plan.now) (2 ^ 61) masses.old }
    requires heaviest { heaviest ≤ units plan.now }
    ensures { AreMasses (words plan.now) (2 ^ 61) masses.new }
{
    for step in 0..heaviest {
        let busy = heaviest - step;
        let (coming, _) = level_flows(plan, leavings, masses, busy - 1);
        let (_, ending) = level_flows(plan, leavings, masses, busy);
        scale_level(plan, masses, busy - 1, ending, coming);
    }
}

/// The flow of the calls that come in the words of a level, and that of the services that end.
fn level_flows(plan: &Plan, leavings: &[u64], masses: &[u64], busy: u8) -> (u128, u128)
    requires leavings { AreMasses (words plan.now) (2 ^ 54) leavings.now }
    requires masses { AreMasses (words plan.now) (2 ^ 61) masses.now }
{
    let calls = u64::from(plan.split()) * u64::from(plan.calls());
    let full = words_of(plan) - 1;
    let mut coming = 0;
    let mut ending = 0;
    for word in 0..words_of(plan) {
        if level(word) == busy {
            let mass = u128::from(masses[usize::from(word)]);
            let leaving = leavings[usize::from(word)];
            let services = if word == full {
                leaving
            } else {
                leaving.saturating_sub(calls)
            };
            coming += mass * u128::from(calls);
            ending += mass * u128::from(services);
        }
    }
    (coming, ending)
}

/// Multiplies the masses of a level's words by a factor, of which the numerator and the denominator are given. If either is 0
/// they stay as they are: masses that are 0 would never grow.
#[tactic(auto, using(state_certificate::proofs::MassLists::masses_set))]
fn scale_level(plan: &Plan, masses: &mut [u64], busy: u8, numerator: u128, denominator: u128)
    requires { AreMasses (words plan.now) (2 ^ 61) masses.old }
    ensures { AreMasses (words plan.now) (2 ^ 61) masses.new }
{
    let (numerator, denominator) = narrow(numerator, denominator);
    if numerator == 0 || denominator == 0 {
        return;
    }
    for word in 0..words_of(plan) {
        if level(word) == busy {
            let place = usize::from(word);
            let mass = u128::from(masses[place]) * numerator / denominator;
            masses[place] = mass.min(1 << 61) as u64;
        }
    }
}

/// A factor near to this one, of numbers of at most 62 bits.
fn narrow(numerator: u128, denominator: u128) -> (u128, u128)
    ensures { result.0 ≤ 2 ^ 62 }
{
    let bits = u128::BITS - numerator.max(denominator).leading_zeros();
    let excess = bits.saturating_sub(62);
    ((numerator >> excess).min(1 << 62), denominator >> excess)
}
