ghost use Rattle.std.specs.Prelude.{◌≡◌, ℕ, ◌^◌, ◌<◌, ◌≤◌, ◌↔◌, IsTrue};
ghost use Rattle.hyper_model.specs.Solutions.{mass_in};
ghost use Rattle.state_certificate.specs.Certificates.{IsCertificate, IsDrainedState, IsFedState};
ghost use Rattle.state_certificate.specs.Masses.{AreMasses};

use crate::Flows;

/// Whether the low and the high masses are a certificate of the table, with this state as the reference.
///
/// Each state but the reference is looked at once: its inflow and its outflow, by the low and by the high masses, in whole
/// numbers.
pub fn is_certificate<F: Flows>(flows: &F, reference: usize, low: &[u64], high: &[u64]) -> bool
    requires low { AreMasses (F.states flows.now) (2 ^ 62) low.now }
    requires high { AreMasses (F.states flows.now) (2 ^ 62) high.now }
    ensures { IsTrue result
        ↔ IsCertificate (F.states flows.now) (F.rates flows.now) reference (mass_in low.now) (mass_in high.now) }
{
    if reference >= flows.size() || low[reference] > high[reference] || high[reference] == 0 {
        return false;
    }
    for state in 0..flows.size() {
        if state != reference && !is_bounded_at(flows, state, low, high) {
            return false;
        }
    }
    true
}

// Whether no more flows out of the state than into it by the low masses, and more does by the high ones.
fn is_bounded_at<F: Flows>(flows: &F, state: usize, low: &[u64], high: &[u64]) -> bool
    requires low { AreMasses (F.states flows.now) (2 ^ 62) low.now }
    requires high { AreMasses (F.states flows.now) (2 ^ 62) high.now }
    requires state { state < F.states flows.now }
    ensures { IsTrue result
        ↔ (IsFedState (F.states flows.now) (F.rates flows.now) (mass_in low.now) state
        × IsDrainedState (F.states flows.now) (F.rates flows.now) (mass_in high.now) state) }
{
    let leaving = u128::from(flows.leaving(state));
    u128::from(low[state]) * leaving <= flows.inflow(low, state)
        && flows.inflow(high, state) < u128::from(high[state]) * leaving
}
