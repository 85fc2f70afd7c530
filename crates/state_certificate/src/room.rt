ghost use Rattle.std.specs.Prelude.{◌^◌};
ghost use Rattle.state_certificate.specs.Masses.{AreMasses, AreOrdered};

use crate::Flows;
use crate::masses::{balanced_mass, mass_of};

/// How much smaller than its mass the first room of a state is, in bits: so room is in proportion to the masses, as what
/// the sweeps leave unbalanced is.
const FIRST_ROOM: u32 = 36;

/// Makes the first room, in proportion to the masses, and none at the reference.
#[tactic(auto, using(crate::proofs::MassLists::masses_set))]
pub(crate) fn make_room<F: Flows>(flows: &F, reference: usize, masses: &[u64], room: &mut [u64])
    requires masses { AreMasses (F.states flows.now) (2 ^ 61) masses.now }
    requires room { AreMasses (F.states flows.now) (2 ^ 61) room.old }
    ensures { AreMasses (F.states flows.now) (2 ^ 61) room.new }
{
    for state in 0..flows.size() {
        room[state] = if state == reference {
            0
        } else {
            mass_of(u128::from(masses[state] >> FIRST_ROOM))
        };
    }
}

/// Gives each state but the reference the room with which it balances, and one unit.
#[tactic(auto, using(crate::proofs::MassLists::masses_set, crate::proofs::MassLists::masses_roomy))]
pub(crate) fn widen<F: Flows>(flows: &F, reference: usize, unit: u64, room: &mut [u64])
    requires { AreMasses (F.states flows.now) (2 ^ 61) room.old }
    ensures { AreMasses (F.states flows.now) (2 ^ 61) room.new }
{
    for state in 0..flows.size() {
        if state != reference {
            let balanced = balanced_mass(flows.inflow(room, state), flows.leaving(state));
            room[state] = mass_of(u128::from(balanced) + u128::from(unit));
        }
    }
}

/// Doubles the room of each state.
#[tactic(auto, using(crate::proofs::MassLists::masses_set))]
pub(crate) fn double<F: Flows>(flows: &F, room: &mut [u64])
    requires { AreMasses (F.states flows.now) (2 ^ 61) room.old }
    ensures { AreMasses (F.states flows.now) (2 ^ 61) room.new }
{
    for state in 0..flows.size() {
        room[state] = mass_of(2 * u128::from(room[state]));
    }
}

/// The low and the high masses: each mass, less and more its room.
#[tactic(auto, using(crate::proofs::MassLists::masses_set, crate::proofs::MassLists::ordered_more))]
pub(crate) fn spread<F: Flows>(
    flows: &F,
    masses: &[u64],
    room: &[u64],
    low: &mut [u64],
    high: &mut [u64],
)
    requires masses { AreMasses (F.states flows.now) (2 ^ 61) masses.now }
    requires room { AreMasses (F.states flows.now) (2 ^ 61) room.now }
    requires ordered { AreOrdered (F.states flows.now) (2 ^ 62) low.old high.old }
    ensures { AreOrdered (F.states flows.now) (2 ^ 62) low.new high.new }
{
    for state in 0..flows.size() {
        low[state] = masses[state].saturating_sub(room[state]);
        high[state] = masses[state] + room[state];
    }
}
