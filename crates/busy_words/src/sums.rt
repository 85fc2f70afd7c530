ghost use Rattle.std.specs.Prelude.{◌≡◌, ℕ, ◌+◌, ◌*◌, ◌^◌, ◌<◌, ◌≤◌, List, not, nat_le, length};
ghost use Rattle.fixed_interval.specs.Ends.{Encloses};
ghost use Rattle.fixed_interval.specs.WeightList.{ends_at};
ghost use Rattle.hyper_model.specs.Plans.{units, atoms, split, IsAccepted};
ghost use Rattle.hyper_model.specs.Words.{is_busy as is_busy_in, full_word, words};
ghost use Rattle.hyper_model.specs.Solutions.{mass_in};
ghost use Rattle.hyper_model.specs.Measures.{base, busy_mass, mass, taken_mass};
ghost use Rattle.busy_words.specs.Order.{WordOrder, word_or_full};
ghost use Rattle.busy_words.specs.Parts.{is_from_to, set_ends, set_part, weighed_ends};
ghost use Rattle.busy_words.specs.WeightParts.{EnclosesSolution, IsOrderOf, base_places, busy_part as busy_part_of, full_part as full_part_of, other_shares, places, tail_part as tail_part_of, taken_part as taken_part_of, taken_shares};

use crate::dispatch::taken_share;
use crate::orders::Order;
use crate::words::is_busy;
use fixed_interval::{Iv, Weights, Wide};
use hyper_model::{Line, Plan, law_accepted};

/// The part of the states in which all units are busy, those in which calls wait among them: the chance that a
/// call is lost or has to wait. In units of `1 / 2^62`.
pub fn full_part(plan: &Plan, weights: &Weights) -> Iv
    requires { length weights.now.items ≡ places plan.now }
    ensures ends { result ≡ full_part_of plan.now (ends_at weights.now.items) }
    ensures encloses { (order : WordOrder) → IsOrderOf plan.now order → (xs : List ℕ) (z : ℕ)
        → EnclosesSolution plan.now order weights.now.items xs z
        → Encloses result (2 ^ 62 * (mass_in xs (full_word plan.now) + z)) (mass plan.now (mass_in xs) z) }
{
    part_from(weights, words_of(plan) - 1)
}

/// The part of the states in which a call waits, in units of `1 / 2^62`. It is 0 if calls are lost.
pub fn tail_part(plan: &Plan, weights: &Weights) -> Iv
    requires { length weights.now.items ≡ places plan.now }
    ensures ends { result ≡ tail_part_of plan.now (ends_at weights.now.items) }
    ensures encloses { (order : WordOrder) → IsOrderOf plan.now order → (xs : List ℕ) (z : ℕ)
        → EnclosesSolution plan.now order weights.now.items xs z
        → Encloses result (2 ^ 62 * z) (mass plan.now (mass_in xs) z) }
{
    part_from(weights, words_of(plan))
}

/// The part of the states in which this unit is busy: its workload, in units of `1 / 2^62`.
pub fn busy_part(plan: &Plan, order: &Order, weights: &Weights, unit: u8) -> Iv
    requires order { IsOrderOf plan.now order.now }
    requires one_each { length weights.now.items ≡ places plan.now }
    requires unit { unit < units plan.now }
    ensures ends { result ≡ busy_part_of plan.now order.now (ends_at weights.now.items) unit }
    ensures encloses { (xs : List ℕ) (z : ℕ) → EnclosesSolution plan.now order.now weights.now.items xs z
        → Encloses result (2 ^ 62 * busy_mass plan.now (mass_in xs) z unit) (mass plan.now (mass_in xs) z) }
{
    unit_part(order, weights, unit)
}

/// The part of the weights at whose words this unit is busy, in units of `1 / 2^62`. All units are busy at the weights
/// that stand after those of the words.
pub fn unit_part(order: &Order, weights: &Weights, unit: u8) -> Iv
    requires { unit < order.now.units }
    ensures { result ≡ set_part (2 ^ 62) (length weights.now.items) (λ i. is_busy_in (word_or_full order.now i) unit)
        (ends_at weights.now.items) }
{
    let (inside, rest) = busy_sums(order, weights, unit);
    inside.part_of(rest)
}

/// The part of the weights from one place up to another, whose weight is not among them, in units of `1 / 2^62`.
pub fn part_between(weights: &Weights, first: usize, past: usize) -> Iv
    ensures { result ≡ set_part (2 ^ 62) (length weights.now.items) (is_from_to first past) (ends_at weights.now.items) }
{
    let mut inside = Wide::new(0, 0);
    let mut rest = Wide::new(0, 0);
    for place in 0..weights.len() {
        let weight = weights.get(place).wide();
        if first <= place && place < past {
            inside = inside.plus(weight);
        } else {
            rest = rest.plus(weight);
        }
    }
    inside.part_of(rest)
}

/// The part of the answered calls of this atom that go to this unit at once, in units of `1 / 2^62`.
///
/// If calls are lost, it is taken among the states in which a unit is free, else among all states.
pub fn taken_part(plan: &Plan, order: &Order, weights: &Weights, unit: u8, atom: usize) -> Iv
    requires order { IsOrderOf plan.now order.now }
    requires one_each { length weights.now.items ≡ places plan.now }
    requires unit { unit < units plan.now }
    requires atom { atom < atoms plan.now }
    ensures ends { result ≡ taken_part_of plan.now order.now (ends_at weights.now.items) unit atom }
    ensures encloses { (xs : List ℕ) (z : ℕ) → EnclosesSolution plan.now order.now weights.now.items xs z
        → Encloses result (2 ^ 62 * taken_mass plan.now (mass_in xs) unit atom)
        (split plan.now * base plan.now (mass_in xs) z) }
{
    let (inside, rest) = taken_sums(plan, order, weights, unit, atom);
    let split = split_of(plan);
    inside.ratio(1, split).part_of(rest.ratio(1, split))
}

// The plan's factor of all rates; and the plan is accepted.
fn split_of(plan: &Plan) -> u64
    ensures split { result ≡ split plan.now }
    ensures least { 1 ≤ result }
    ensures accepted { IsAccepted plan.now }
{
    law_accepted(plan);
    u64::from(plan.split())
}

// How many words the plan has.
fn words_of(plan: &Plan) -> usize
    ensures words { result ≡ words plan.now }
    ensures least { 1 ≤ result }
    ensures most { result ≤ 4096 }
{
    1 << plan.units()
}

// The part of the weights from this place on.
fn part_from(weights: &Weights, first: usize) -> Iv
    ensures { result ≡ set_part (2 ^ 62) (length weights.now.items) (λ i. nat_le first i) (ends_at weights.now.items) }
{
    part_between(weights, first, weights.len())
}

// The sum of the weights at which the unit is busy, and that of the others.
fn busy_sums(order: &Order, weights: &Weights, unit: u8) -> (Wide, Wide)
    requires { unit < order.now.units }
    ensures inside { result.0 ≡ set_ends (length weights.now.items) (λ i. is_busy_in (word_or_full order.now i) unit)
        (ends_at weights.now.items) }
    ensures rest { result.1 ≡ set_ends (length weights.now.items) (λ i. not (is_busy_in (word_or_full order.now i) unit))
        (ends_at weights.now.items) }
    ensures most { result.0.hi ≤ 2 ^ 65 }
    ensures most_rest { result.1.hi ≤ 2 ^ 65 }
{
    let mut inside = Wide::new(0, 0);
    let mut rest = Wide::new(0, 0);
    for place in 0..weights.len() {
        let weight = weights.get(place).wide();
        if is_busy(order.word_or_full(place), unit) {
            inside = inside.plus(weight);
        } else {
            rest = rest.plus(weight);
        }
    }
    (inside, rest)
}

// The sum of the weights of the states in which calls are answered, each times the shares of the atom's calls
// that go to the unit, and each times the other shares.
fn taken_sums(plan: &Plan, order: &Order, weights: &Weights, unit: u8, atom: usize) -> (Wide, Wide)
    requires order { IsOrderOf plan.now order.now }
    requires one_each { length weights.now.items ≡ places plan.now }
    requires unit { unit < units plan.now }
    requires atom { atom < atoms plan.now }
    ensures inside { result.0 ≡ weighed_ends (base_places plan.now)
        (λ i. taken_shares plan.now unit atom (word_or_full order.now i)) (ends_at weights.now.items) }
    ensures rest { result.1 ≡ weighed_ends (base_places plan.now)
        (λ i. other_shares plan.now unit atom (word_or_full order.now i)) (ends_at weights.now.items) }
    ensures most { result.0.hi ≤ 4097 * (split plan.now * 2 ^ 52) }
    ensures most_rest { result.1.hi ≤ 4097 * (split plan.now * 2 ^ 52) }
{
    let split = plan.split();
    let mut inside = Wide::new(0, 0);
    let mut rest = Wide::new(0, 0);
    for place in 0..base_places_of(plan) {
        let weight = weights.get(place).wide();
        let taken = taken_share(plan, atom, order.word_or_full(place), unit);
        inside = inside.plus(weight.scaled(u64::from(taken)));
        rest = rest.plus(weight.scaled(u64::from(split - taken)));
    }
    (inside, rest)
}

// How many weights are of states in which a call that comes is answered.
fn base_places_of(plan: &Plan) -> usize
    ensures places { result ≡ base_places plan.now }
    ensures within { result ≤ places plan.now }
    ensures most { result ≤ 4097 }
{
    match plan.line() {
        Line::Zero => words_of(plan) - 1,
        Line::Infinite => words_of(plan) + 1,
    }
}
