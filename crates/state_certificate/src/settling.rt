ghost use Rattle.std.specs.Prelude.{◌^◌};
ghost use Rattle.state_certificate.specs.Masses.{AreMasses};

use crate::Flows;
use crate::masses::{balanced_mass, heaviest, mass_of, moved_mass};
use crate::pace::{ONE, Pace};

/// In so many sweeps the table improves the masses first. Later it would round each mass anew.
const IMPROVED_SWEEPS: u32 = 16;

/// The most sweeps after these.
const MOST_SWEEPS: u32 = 4080;

/// Sweeps the states until their masses hardly change, or come no nearer to a solution.
pub(crate) fn settle<F: Flows>(flows: &F, masses: &mut [u64])
    requires { AreMasses (F.states flows.now) (2 ^ 61) masses.old }
    ensures { AreMasses (F.states flows.now) (2 ^ 61) masses.new }
{
    let mut pace = Pace::first();
    improve_often(flows, masses);
    for _ in 0..MOST_SWEEPS {
        let distance = sweep(flows, masses, pace.factor());
        if pace.is_last(distance) {
            return;
        }
    }
}

/// Lets the table improve the masses, and sweeps them, some times.
fn improve_often<F: Flows>(flows: &F, masses: &mut [u64])
    requires { AreMasses (F.states flows.now) (2 ^ 61) masses.old }
    ensures { AreMasses (F.states flows.now) (2 ^ 61) masses.new }
{
    for _ in 0..IMPROVED_SWEEPS {
        flows.improve(masses);
        raise(flows, masses);
        sweep(flows, masses, ONE);
    }
}

/// Doubles all masses as often as the largest stays below `2^60`, so that rounding counts little.
#[tactic(auto, using(crate::proofs::MassLists::masses_set))]
fn raise<F: Flows>(flows: &F, masses: &mut [u64])
    requires { AreMasses (F.states flows.now) (2 ^ 61) masses.old }
    ensures { AreMasses (F.states flows.now) (2 ^ 61) masses.new }
{
    let (_, most) = heaviest(masses);
    let doublings = most.leading_zeros().saturating_sub(4);
    for state in 0..flows.size() {
        masses[state] = mass_of(u128::from(masses[state]) << doublings);
    }
}

/// Moves the mass of each state toward that with which it balances, one after the other, by this factor of the distance,
/// in the unit of `ONE`. Answers how far one was from balance at most.
#[tactic(auto, using(crate::proofs::MassLists::masses_set, crate::proofs::MassLists::masses_roomy))]
fn sweep<F: Flows>(flows: &F, masses: &mut [u64], factor: u64) -> u64
    requires { AreMasses (F.states flows.now) (2 ^ 61) masses.old }
    ensures { AreMasses (F.states flows.now) (2 ^ 61) masses.new }
{
    let mut distance = 0;
    for state in 0..flows.size() {
        let aim = balanced_mass(flows.inflow(masses, state), flows.leaving(state));
        distance = distance.max(aim.abs_diff(masses[state]));
        masses[state] = moved_mass(masses[state], aim, factor);
    }
    distance
}
