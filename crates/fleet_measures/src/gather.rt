ghost use Rattle.std.specs.Prelude.{◌≡◌, ℕ, ◌*◌, ◌^◌, ◌<◌, ◌≤◌, ◌++◌, IfOk, length, nat_lt, if◌then◌else◌};
ghost use Rattle.fixed_interval.specs.Ends.{shifted_ends};
ghost use Rattle.fixed_interval.specs.WeightList.{ends_at};
ghost use Rattle.busy_words.specs.Algebra.{total_ends};
ghost use Rattle.busy_words.specs.WeightParts.{IsOrderOf};
ghost use Rattle.crew_stations.specs.Stations.{stations, states};
ghost use Rattle.fleet_measures.specs.Pooled as spec;

use busy_words::Order;
use crew_stations::{Fleet, law_fleet};
use fixed_interval::{MOST_WEIGHTS, Weights, Wide, least_shift};
use hyper_model::Line;
use station_flows::FleetWeights;
use std::alloc::{AllocError, Global};

/// The weights of the states of a fleet, gathered by which stations have no free crew, in the order of these words: only
/// that decides who answers a call. After them, if calls wait, stands the weight of the calls that wait. All are divided by one
/// power of two and rounded outward, so that none has a high end past `2^52`.
pub(crate) fn gathered_weights(
    alloc: Global,
    fleet: &Fleet,
    order: &Order,
    weights: &FleetWeights,
) -> Result<Weights, AllocError>
    requires order { IsOrderOf (spec.pooled fleet.now) order.now }
    requires one_each { length weights.now.items ≡ spec.state_places fleet.now }
    ensures { IfOk result (λ gathered. spec.AreGathered fleet.now order.now weights.now.items gathered.items) }
{
    law_fleet(fleet);
    let sums = sums_by_word(alloc, fleet, weights)?;
    let power = least_shift(total(weights).hi());
    let mut gathered = Weights::reserved(alloc, MOST_WEIGHTS)?;
    for rank in 0..order.len() {
        let word = usize::from(order.word(rank));
        gathered.push(sums[word].shifted(power));
    }
    push_waiting(&mut gathered, fleet, weights, power);
    Ok(gathered)
}

/// Puts the weight of the calls that wait after the others, if calls wait.
fn push_waiting(gathered: &mut Weights, fleet: &Fleet, weights: &FleetWeights, power: u32)
    requires room { 1 ≤ gathered.old.spare }
    requires power { power ≤ 48 }
    requires one_each { length weights.now.items ≡ spec.state_places fleet.now }
    ensures { gathered.new.items ≡ gathered.old.items ++ spec.waiting_weights fleet.now.parts.line
        (shifted_ends power (ends_at weights.now.items (states fleet.now))) }
{
    if fleet.parts().line == Line::Infinite {
        let weight = weights.get(fleet.states()).wide();
        gathered.push(weight.shifted(power));
    }
}

/// Of each word, the sum of the weights of its states.
fn sums_by_word(
    alloc: Global,
    fleet: &Fleet,
    weights: &FleetWeights,
) -> Result<Vec<Wide>, AllocError>
    requires { states fleet.now ≤ length weights.now.items }
    ensures count { IfOk result (λ sums. length sums.items ≡ 2 ^ stations fleet.now) }
    ensures sums { IfOk result (λ sums. (word : ℕ) → word < 2 ^ stations fleet.now
        → ends_at sums.items word ≡ spec.pooled_weight fleet.now (ends_at weights.now.items) word) }
{
    law_fleet(fleet);
    let mut sums = vec![in alloc; Wide::new(0, 0); 1 << fleet.stations()]?;
    for state in 0..fleet.states() {
        let word = exhausted_word(fleet, state);
        sums[word] = sums[word].plus(weights.get(state).wide());
    }
    Ok(sums)
}

/// The word of a state: a unit is busy if no crew of its station is free.
fn exhausted_word(fleet: &Fleet, state: usize) -> usize
    ensures word { result ≡ spec.exhausted_word fleet.now state }
    ensures below { result < 2 ^ stations fleet.now }
{
    let mut word = 0;
    let mut rest = state;
    for k in 0..fleet.stations() {
        let crews = fleet.crews(k) as usize;
        word += bit_if_exhausted(rest % (crews + 1), crews, k);
        rest /= crews + 1;
    }
    word
}

/// The bit of station k if all of its crews are busy.
fn bit_if_exhausted(busy: usize, crews: usize, k: usize) -> usize
    requires { k < 12 }
    ensures bit { result ≡ (if nat_lt busy crews then 0 else 2 ^ k) }
    ensures most { result ≤ 2 ^ k }
{
    if busy < crews { 0 } else { 1 << k }
}

/// The sum of all weights.
fn total(weights: &FleetWeights) -> Wide
    requires { length weights.now.items ≤ 65537 }
    ensures sum { result ≡ total_ends (length weights.now.items) (ends_at weights.now.items) }
    ensures most { result.hi ≤ 65537 * 2 ^ 52 }
{
    let mut total = Wide::new(0, 0);
    for place in 0..weights.len() {
        total = total.plus(weights.get(place).wide());
    }
    total
}
