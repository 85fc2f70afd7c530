ghost use Rattle.std.specs.Prelude.{ℕ, ◌*◌, ◌^◌, ◌<◌, ◌≤◌, slice_index};
ghost use Rattle.crew_stations.specs.declared.TheConstants.{MOST_CREWS};
ghost use Rattle.crew_stations.specs.Stations.{sent_rate, states, stations};
ghost use Rattle.state_certificate.specs.Masses.{AreMasses};
ghost use Rattle.station_flows.specs.StateRates.{HasRates};

use crate::numbers::StateNumbers;
use crate::rates::{ended_from, sent_from};
use crew_stations::MOST_CREWS;

/// How many levels there are at most: a level is the states with equally many busy crews, of all stations or of one.
const MOST_LEVELS: usize = MOST_CREWS + 1;

/// The factor 1, in the unit of all factors.
const ONE: u64 = 1 << 56;

/// The flows of each level up to the top one, at which all crews are busy: of the calls that come in its states and take a
/// crew, and of the services that end.
#[derive(Clone, Copy)]
struct LevelFlows {
    top: usize,
    coming: [u128; MOST_LEVELS],
    ending: [u128; MOST_LEVELS],
}

/// Gives the states of each level one factor, so that between each two levels as many calls come as services end
/// (Larson 1974).
///
/// It goes outward from the heaviest level, whose masses stay.
pub(crate) fn balance_levels(numbers: &StateNumbers, leavings: &[u64], masses: &mut [u64])
    requires leavings { AreMasses (states numbers.now) (2 ^ 54) leavings.now }
    requires masses { AreMasses (states numbers.now) (2 ^ 61) masses.old }
    ensures { AreMasses (states numbers.now) (2 ^ 61) masses.new }
{
    let flows = flows_of(numbers, leavings, masses);
    scale(numbers, &factors_of(&flows), masses);
}

/// Does the same station by station, with the states in which equally many crews of the station are busy: between each two of
/// their levels as many of its crews are sent as end their services.
pub(crate) fn balance_stations(numbers: &StateNumbers, sent: &[u32], masses: &mut [u64])
    requires sent { HasRates numbers.now (sent_rate numbers.now) sent.now }
    requires masses { AreMasses (states numbers.now) (2 ^ 61) masses.old }
    ensures { AreMasses (states numbers.now) (2 ^ 61) masses.new }
{
    for station in 0..numbers.stations() {
        let flows = flows_at(numbers, sent, station, masses);
        scale_at(numbers, station, &factors_of(&flows), masses);
    }
}

/// The factors of all levels that balance each two of them.
fn factors_of(flows: &LevelFlows) -> [u64; MOST_LEVELS]
    requires { flows.now.top ≤ MOST_CREWS }
{
    let heaviest = heaviest_level(flows);
    let mut factors = [ONE; MOST_LEVELS];
    balance_above(flows, heaviest, &mut factors);
    balance_below(flows, heaviest, &mut factors);
    factors
}

/// The flows of all levels.
fn flows_of(numbers: &StateNumbers, leavings: &[u64], masses: &[u64]) -> LevelFlows
    requires leavings { AreMasses (states numbers.now) (2 ^ 54) leavings.now }
    requires masses { AreMasses (states numbers.now) (2 ^ 61) masses.now }
    ensures { result.top ≤ MOST_CREWS }
{
    let calls = u64::from(numbers.fleet().calls());
    let full = numbers.size() - 1;
    let top = numbers.level(full);
    let mut coming = [0u128; MOST_LEVELS];
    let mut ending = [0u128; MOST_LEVELS];
    for state in 0..numbers.size() {
        let level = numbers.level(state);
        let services = if state == full {
            leavings[state]
        } else {
            leavings[state].saturating_sub(calls)
        };
        let mass = u128::from(masses[state]);
        coming[level] = coming[level].saturating_add(mass * u128::from(calls));
        ending[level] = ending[level].saturating_add(mass * u128::from(services));
    }
    LevelFlows {
        top,
        coming,
        ending,
    }
}

/// The flows of the levels of one station: of its crews that are sent, and of those that end their services.
fn flows_at(numbers: &StateNumbers, sent: &[u32], station: usize, masses: &[u64]) -> LevelFlows
    requires sent { HasRates numbers.now (sent_rate numbers.now) sent.now }
    requires station { station < stations numbers.now }
    requires masses { AreMasses (states numbers.now) (2 ^ 61) masses.now }
    ensures { result.top ≤ MOST_CREWS }
{
    let top = numbers.crews(station);
    let mut coming = [0u128; MOST_LEVELS];
    let mut ending = [0u128; MOST_LEVELS];
    for state in 0..numbers.size() {
        let level = numbers.busy(state, station);
        let mass = u128::from(masses[state]);
        let sending = u128::from(sent_from(numbers, sent, state, station));
        let services = u128::from(ended_from(numbers, state, station));
        coming[level] = coming[level].saturating_add(mass * sending);
        ending[level] = ending[level].saturating_add(mass * services);
    }
    LevelFlows {
        top,
        coming,
        ending,
    }
}

/// The level up to which more calls come in a level's states than services end.
fn heaviest_level(flows: &LevelFlows) -> usize
    requires { flows.now.top ≤ MOST_CREWS }
    ensures { result ≤ flows.now.top }
{
    for level in 1..flows.top + 1 {
        if flows.coming[level] < flows.ending[level] {
            return level - 1;
        }
    }
    flows.top
}

/// Balances each level above this one with the level below it.
fn balance_above(flows: &LevelFlows, heaviest: usize, factors: &mut [u64; MOST_LEVELS])
    requires { flows.now.top ≤ MOST_CREWS }
{
    for level in heaviest..flows.top {
        factors[level + 1] = scaled(factors[level], flows.coming[level], flows.ending[level + 1]);
    }
}

/// Balances each level below this one with the level above it.
fn balance_below(flows: &LevelFlows, heaviest: usize, factors: &mut [u64; MOST_LEVELS])
    requires { heaviest ≤ MOST_CREWS }
{
    for step in 0..heaviest {
        let level = heaviest - step;
        factors[level - 1] = scaled(factors[level], flows.ending[level], flows.coming[level - 1]);
    }
}

/// The factor times one flow over another, and the factor as it is if either is 0: masses that are 0 would never grow.
fn scaled(factor: u64, numerator: u128, denominator: u128) -> u64 {
    let (numerator, denominator) = narrow(numerator, denominator);
    if numerator == 0 || denominator == 0 {
        return factor;
    }
    (u128::from(factor) * numerator / denominator).min(u128::from(u64::MAX)) as u64
}

/// A ratio near to this one, of numbers of at most 62 bits.
fn narrow(numerator: u128, denominator: u128) -> (u128, u128)
    ensures { result.0 ≤ 2 ^ 62 }
{
    let bits = u128::BITS - numerator.max(denominator).leading_zeros();
    let excess = bits.saturating_sub(62);
    ((numerator >> excess).min(1 << 62), denominator >> excess)
}

/// Multiplies the masses of each level's states by its factor.
#[tactic(auto, using(state_certificate::proofs::MassLists::masses_set))]
fn scale(numbers: &StateNumbers, factors: &[u64; MOST_LEVELS], masses: &mut [u64])
    requires { AreMasses (states numbers.now) (2 ^ 61) masses.old }
    ensures { AreMasses (states numbers.now) (2 ^ 61) masses.new }
{
    for state in 0..numbers.size() {
        masses[state] = scaled_mass(masses[state], factors[numbers.level(state)]);
    }
}

/// Multiplies the masses of the states of each level of one station by its factor.
#[tactic(auto, using(state_certificate::proofs::MassLists::masses_set))]
fn scale_at(
    numbers: &StateNumbers,
    station: usize,
    factors: &[u64; MOST_LEVELS],
    masses: &mut [u64],
)
    requires station { station < stations numbers.now }
    requires masses { AreMasses (states numbers.now) (2 ^ 61) masses.old }
    ensures { AreMasses (states numbers.now) (2 ^ 61) masses.new }
{
    let _crews = numbers.crews(station);
    for state in 0..numbers.size() {
        masses[state] = scaled_mass(masses[state], factors[numbers.busy(state, station)]);
    }
}

/// The mass times the factor.
fn scaled_mass(mass: u64, factor: u64) -> u64
    ensures { result ≤ 2 ^ 61 }
{
    ((u128::from(mass) * u128::from(factor)) >> 56).min(1 << 61) as u64
}
