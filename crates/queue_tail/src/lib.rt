//! Further weights after those of the words, each a multiple of the last one: the tail of a line without end, which is one
//! more weight for all states in which a call waits, and the weight of one more call that waits.
#![tactic(auto)]

ghost use Rattle.std.specs.Prelude.{◌≡◌, ℕ, ◌+◌, ◌<◌, ◌≤◌, List, [], ◌∷◌, ◌++◌, length};
ghost use Rattle.fixed_interval.specs.WeightList.{EnclosesAll};
ghost use Rattle.queue_tail.specs.Tail.{GainsMultiple, GainsTail, IsMultipleOf, IsTailOf};

use fixed_interval::WeightsUpTo;

/// Puts the tail's weight after those of the words.
///
/// The weights are in the order of the words, so the last is that of the word in which all units are
/// busy. While they are, a call that comes waits. It waits with all who came before it for one of the
/// units, which finish `service` calls per period between them while `calls` come, and so the number
/// of waiting calls is geometric: each further one has `calls / service` times the mass of one less,
/// and all of them together `calls / (service - calls)` times the mass of that word (Larson and
/// Odoni, Urban Operations Research, chapter 5).
pub fn add_tail<const MOST: usize>(weights: &mut WeightsUpTo<MOST>, calls: u32, service: u32)
    requires stable { calls < service }
    requires some { 1 ≤ length weights.old.items }
    requires room { 1 ≤ weights.old.spare }
    ensures items { GainsTail calls service weights.old.items weights.new.items }
    ensures count { length weights.new.items ≡ length weights.old.items + 1 }
    ensures spare { weights.new.spare + 1 ≡ weights.old.spare }
    ensures encloses { (masses : List ℕ) (z : ℕ) → IsTailOf calls service masses z
        → EnclosesAll weights.old.items masses → EnclosesAll weights.new.items (masses ++ z ∷ []) }
{
    add_multiple(weights, calls, service - calls);
}

/// Puts `num / den` times the last weight after the others.
///
/// With a limited number of waiting places, the state of one more waiting call has `calls / service` times the mass
/// of the state before it.
pub fn add_multiple<const MOST: usize>(weights: &mut WeightsUpTo<MOST>, num: u32, den: u32)
    requires divisor { 1 ≤ den }
    requires some { 1 ≤ length weights.old.items }
    requires room { 1 ≤ weights.old.spare }
    ensures items { GainsMultiple num den weights.old.items weights.new.items }
    ensures count { length weights.new.items ≡ length weights.old.items + 1 }
    ensures spare { weights.new.spare + 1 ≡ weights.old.spare }
    ensures encloses { (masses : List ℕ) (z : ℕ) → IsMultipleOf num den masses z
        → EnclosesAll weights.old.items masses → EnclosesAll weights.new.items (masses ++ z ∷ []) }
{
    let last = weights.get(weights.len() - 1).wide();
    weights.push_shifting(last.ratio(u64::from(num), u64::from(den)));
}
