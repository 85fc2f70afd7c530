ghost use Rattle.std.specs.Prelude.{◌≡◌, ℕ, ◌+◌, ◌*◌, ◌<◌, ◌≤◌, ◌^◌, length};
ghost use Rattle.hyper_model.specs.declared.TheConstants.{MOST_RATE};
ghost use Rattle.hyper_model.specs.Plans.{atoms};
ghost use Rattle.crew_stations.specs.Stations.{stations, sent_rate, ended_rate, states};
ghost use Rattle.station_flows.specs.StateRates.{HasLeavings, HasRates, leaving_rate, sent_so_far};

use crate::numbers::StateNumbers;

/// Writes the rates at which crews are sent, state by state: the calls of each atom go to one station.
pub(crate) fn fill_sent(numbers: &StateNumbers, sent: &mut [u32])
    requires { HasRates numbers.now (λ state k. 0) sent.old }
    ensures { HasRates numbers.now (sent_rate numbers.now) sent.new }
{
    for state in 0..numbers.size() {
        add_calls(numbers, state, sent);
    }
}

/// Adds the rates at which crews are sent in one state.
fn add_calls(numbers: &StateNumbers, state: usize, sent: &mut [u32])
    requires state { state < states numbers.now }
    requires rates { HasRates numbers.now (sent_so_far numbers.now state 0) sent.old }
    ensures { HasRates numbers.now (sent_so_far numbers.now (state + 1) 0) sent.new }
{
    let fleet = numbers.fleet();
    let atoms = &fleet.parts().atoms;
    for atom in 0..atoms.len() {
        if let Some(station) = numbers.first_with_room(state, atom) {
            sent[state * numbers.stations() + station] += atoms.get(atom).rate;
        }
    }
}

/// Writes the rate out of each state, the sum over its stations.
pub(crate) fn fill_leavings(numbers: &StateNumbers, sent: &[u32], leavings: &mut [u64])
    requires sent { HasRates numbers.now (sent_rate numbers.now) sent.now }
    requires leavings { length leavings.old ≡ states numbers.now }
    ensures { HasLeavings numbers.now leavings.new }
{
    for state in 0..numbers.size() {
        leavings[state] = leaving(numbers, sent, state);
    }
}

/// The rate out of the state.
fn leaving(numbers: &StateNumbers, sent: &[u32], state: usize) -> u64
    requires sent { HasRates numbers.now (sent_rate numbers.now) sent.now }
    requires state { state < states numbers.now }
    ensures { result ≡ leaving_rate numbers.now state }
{
    let mut sum = 0;
    for station in 0..numbers.stations() {
        sum += u64::from(sent_from(numbers, sent, state, station))
            + ended_from(numbers, state, station);
    }
    sum
}

/// The rate at which crews of the station are sent in the state.
pub(crate) fn sent_from(numbers: &StateNumbers, sent: &[u32], state: usize, station: usize) -> u32
    requires sent { HasRates numbers.now (sent_rate numbers.now) sent.now }
    requires state { state < states numbers.now }
    requires station { station < stations numbers.now }
    ensures rate { result ≡ sent_rate numbers.now state station }
    ensures most { result ≤ MOST_RATE }
{
    let _fleet = numbers.fleet();
    sent[state * numbers.stations() + station]
}

/// The rate at which busy crews of the station end their services in the state.
pub(crate) fn ended_from(numbers: &StateNumbers, state: usize, station: usize) -> u64
    requires state { state < states numbers.now }
    requires station { station < stations numbers.now }
    ensures rate { result ≡ ended_rate numbers.now state station }
    ensures most { result ≤ 200 * MOST_RATE }
{
    let _fleet = numbers.fleet();
    numbers.busy(state, station) as u64 * u64::from(numbers.rate(station))
}
