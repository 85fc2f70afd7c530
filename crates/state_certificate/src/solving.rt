ghost use Rattle.std.specs.Prelude.{◌≡◌, ℕ, ◌^◌, ◌≤◌, IsFalse, IsTrue, length};
ghost use Rattle.hyper_model.specs.Solutions.{mass_in};
ghost use Rattle.state_certificate.specs.Certificates.{AreCertified, AreWidest, BoundSolutions, IsCertificate};
ghost use Rattle.state_certificate.specs.Masses.{AreMasses, AreOrdered};

use crate::masses::{fill, heaviest};
use crate::room::{double, make_room, spread, widen};
use crate::settling::settle;
use crate::{Flows, is_certificate};

/// The mass of each state before the first sweep.
const FIRST_MASS: u64 = 1 << 48;

/// The least first unit of room: more than the sweeps leave unbalanced.
const LEAST_UNIT: u64 = 16;

/// The first unit of room is one more for so many states: the more there are, the further away from the reference one is.
const STATES_A_UNIT: usize = 256;

/// How often the room is doubled at most.
const MOST_DOUBLINGS: u32 = 32;

/// How often the low and the high masses are checked before the room is doubled.
const MOST_CHECKS: u32 = 32;

/// How often the room is widened before the low and the high masses are checked.
const WIDENINGS: u32 = 16;

/// Bounds every solution of the table from below and from above, up to one common factor, and answers whether the bounds
/// are certified.
///
/// Masses are swept until they are near to a solution. Around them room is made, the same below as above, until the masses
/// less and more their room are a certificate, with the heaviest state as the reference. Bounds that are not certified
/// are the widest: from 0 to 1 at each state. All four lists have one place for each state, and what they had before does
/// not count. No memory is taken.
pub fn bound_solutions<F: Flows>(
    flows: &F,
    masses: &mut [u64],
    room: &mut [u64],
    low: &mut [u64],
    high: &mut [u64],
) -> bool
    requires masses { length masses.old ≡ F.states flows.now }
    requires room { length room.old ≡ F.states flows.now }
    requires low { length low.old ≡ F.states flows.now }
    requires high { length high.old ≡ F.states flows.now }
    ensures certified { IsTrue result → AreCertified (F.states flows.now) (F.rates flows.now) (mass_in low.new) (mass_in high.new) }
    ensures widest { IsFalse result → AreWidest (F.states flows.now) (mass_in low.new) (mass_in high.new) }
    ensures bounds { BoundSolutions (F.states flows.now) (F.rates flows.now) (mass_in low.new) (mass_in high.new) }
    ensures ordered { AreOrdered (F.states flows.now) (2 ^ 62) low.new high.new }
{
    fill(masses, FIRST_MASS);
    fill(room, 0);
    fill(low, 0);
    fill(high, 1);
    settle(flows, masses);
    let (reference, _) = heaviest(masses);
    if certify(flows, reference, masses, room, low, high) {
        return true;
    }
    fill(low, 0);
    fill(high, 1);
    false
}

/// Makes room until the low and the high masses are a certificate, and answers whether they are.
fn certify<F: Flows>(
    flows: &F,
    reference: usize,
    masses: &[u64],
    room: &mut [u64],
    low: &mut [u64],
    high: &mut [u64],
) -> bool
    requires masses { AreMasses (F.states flows.now) (2 ^ 61) masses.now }
    requires room { AreMasses (F.states flows.now) (2 ^ 61) room.old }
    requires ordered { AreOrdered (F.states flows.now) (2 ^ 62) low.old high.old }
    ensures certified { IsTrue result
        → IsCertificate (F.states flows.now) (F.rates flows.now) reference (mass_in low.new) (mass_in high.new) }
    ensures ordered { AreOrdered (F.states flows.now) (2 ^ 62) low.new high.new }
{
    let first = LEAST_UNIT + (flows.size() / STATES_A_UNIT) as u64;
    make_room(flows, reference, masses, room);
    for doublings in 0..MOST_DOUBLINGS {
        if certify_by(
            flows,
            reference,
            first << doublings,
            masses,
            room,
            low,
            high,
        ) {
            return true;
        }
        double(flows, room);
    }
    false
}

/// Does so by one unit of room.
fn certify_by<F: Flows>(
    flows: &F,
    reference: usize,
    unit: u64,
    masses: &[u64],
    room: &mut [u64],
    low: &mut [u64],
    high: &mut [u64],
) -> bool
    requires masses { AreMasses (F.states flows.now) (2 ^ 61) masses.now }
    requires room { AreMasses (F.states flows.now) (2 ^ 61) room.old }
    requires ordered { AreOrdered (F.states flows.now) (2 ^ 62) low.old high.old }
    ensures certified { IsTrue result
        → IsCertificate (F.states flows.now) (F.rates flows.now) reference (mass_in low.new) (mass_in high.new) }
    ensures room { AreMasses (F.states flows.now) (2 ^ 61) room.new }
    ensures ordered { AreOrdered (F.states flows.now) (2 ^ 62) low.new high.new }
{
    for _ in 0..MOST_CHECKS {
        widen_often(flows, reference, unit, room);
        spread(flows, masses, room, low, high);
        if is_certificate(flows, reference, low, high) {
            return true;
        }
    }
    false
}

/// Widens the room some times.
fn widen_often<F: Flows>(flows: &F, reference: usize, unit: u64, room: &mut [u64])
    requires { AreMasses (F.states flows.now) (2 ^ 61) room.old }
    ensures { AreMasses (F.states flows.now) (2 ^ 61) room.new }
{
    for _ in 0..WIDENINGS {
        widen(flows, reference, unit, room);
    }
}
