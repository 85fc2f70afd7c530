ghost use Rattle.std.specs.Prelude.{◌≡◌, ℕ, ◌+◌, ◌*◌, ◌^◌, ◌<◌, ◌≤◌, IfOk, length};
ghost use Rattle.hyper_model.specs.Solutions.{mass_in};
ghost use Rattle.crew_stations.specs.StateFlows.{came_sent, came_ended};
ghost use Rattle.crew_stations.specs.Stations.{stations, states, state_table, sent_rate};
ghost use Rattle.state_certificate.specs.Masses.{AreMasses};
ghost use Rattle.station_flows.specs.StateRates.{HasLeavings, HasRates};

use crate::levels::{balance_levels, balance_stations};
use crate::numbers::StateNumbers;
use crate::rates::{fill_leavings, fill_sent, sent_from};
use crew_stations::Fleet;
use state_certificate::Flows;
use std::alloc::{AllocError, Global};

/// The states of a fleet by their numbers, with all rates between them.
#[derive(Drop)]
pub struct StateFlows<'a> {
    pub(crate) numbers: StateNumbers<'a>,
    pub(crate) sent: Vec<u32>,
    pub(crate) leavings: Vec<u64>,
    ghost sends: { HasRates numbers (sent_rate numbers) sent.items },
    ghost leaves: { HasLeavings numbers leavings.items },
}

impl<'a> StateFlows<'a> {
    /// The states of this fleet. All memory is taken here: 5 bytes for each station and each state, and 8 more for each
    /// state.
    pub fn of(alloc: Global, fleet: &'a Fleet) -> Result<StateFlows<'a>, AllocError>
        ensures { IfOk result (λ flows. flows.numbers ≡ fleet.now) }
    {
        let numbers = StateNumbers::of(alloc, fleet)?;
        let mut sent = vec![in alloc; 0; numbers.size() * numbers.stations()]?;
        let mut leavings = vec![in alloc; 0; numbers.size()]?;
        fill_sent(&numbers, &mut sent);
        fill_leavings(&numbers, &sent, &mut leavings);
        Ok(StateFlows {
            numbers,
            sent,
            leavings,
        })
    }

    /// The flow into a state by crews of the station that are sent: from the state with one busy crew less.
    fn sent_into(&self, masses: &[u64], state: usize, station: usize) -> u128
        requires masses { AreMasses (states self.now.numbers) (2 ^ 62) masses.now }
        requires state { state < states self.now.numbers }
        requires station { station < stations self.now.numbers }
        ensures flow { result ≡ came_sent self.now.numbers (mass_in masses.now) state station }
        ensures most { result ≤ 2 ^ 90 }
    {
        if self.numbers.busy(state, station) == 0 {
            return 0;
        }
        let from = state - self.numbers.stride(station);
        u128::from(masses[from]) * u128::from(sent_from(&self.numbers, &self.sent, from, station))
    }

    /// The flow into a state by crews of the station that end their services: from the state with one busy crew more.
    fn ended_into(&self, masses: &[u64], state: usize, station: usize) -> u128
        requires masses { AreMasses (states self.now.numbers) (2 ^ 62) masses.now }
        requires state { state < states self.now.numbers }
        requires station { station < stations self.now.numbers }
        ensures flow { result ≡ came_ended self.now.numbers (mass_in masses.now) state station }
        ensures most { result ≤ 2 ^ 90 }
    {
        let busy = self.numbers.busy(state, station);
        if busy == self.numbers.crews(station) {
            return 0;
        }
        let from = state + self.numbers.stride(station);
        let rate = (busy as u64 + 1) * u64::from(self.numbers.rate(station));
        u128::from(masses[from]) * u128::from(rate)
    }
}

impl Flows for StateFlows<'_> {
    ghost states = { λ s. states s.numbers };

    ghost rates = { λ s. state_table s.numbers };

    fn size(&self) -> usize {
        self.numbers.size()
    }

    fn inflow(&self, masses: &[u64], state: usize) -> u128 {
        let mut flow = 0;
        for station in 0..self.numbers.stations() {
            flow += self.sent_into(masses, state, station)
                + self.ended_into(masses, state, station);
        }
        flow
    }

    fn leaving(&self, state: usize) -> u64 {
        let _fleet = self.numbers.fleet();
        self.leavings[state]
    }

    fn improve(&self, masses: &mut [u64]) {
        let _fleet = self.numbers.fleet();
        balance_levels(&self.numbers, &self.leavings, masses);
        balance_stations(&self.numbers, &self.sent, masses);
    }
}
