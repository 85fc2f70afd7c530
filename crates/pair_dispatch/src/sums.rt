ghost use Rattle.std.specs.Prelude.{◌≡◌, ◌^◌, ◌<◌, ◌≤◌, length};
ghost use Rattle.fixed_interval.specs.WeightList.{ends_at};
ghost use Rattle.hyper_model.specs.Plans.{atoms, units};
ghost use Rattle.hyper_model.specs.Words.{words};
ghost use Rattle.busy_words.specs.WeightParts.{IsOrderOf};
ghost use Rattle.pair_dispatch.specs.PairEnds as spec;
ghost use Rattle.pair_dispatch.specs.PairEnds.{IsSetOf};
ghost use Rattle.pair_dispatch.specs.PairMeasures as measures;

use crate::sending::{after_one, turned};
use crate::word_set::WordSet;
use busy_words::{Order, is_busy, level};
use fixed_interval::{Iv, Weights, Wide};
use hyper_model::Plan;

/// The part of the words of a set among those of which it is taken, in units of `1 / 2^62`.
pub(crate) fn part_of(plan: &Plan, order: &Order, weights: &Weights, set: WordSet) -> Iv
    requires order { IsOrderOf plan.now order.now }
    requires one_each { length weights.now.items ≡ words plan.now }
    requires set { IsSetOf plan.now set }
    ensures { result ≡ spec.part_of plan.now order.now (ends_at weights.now.items) set }
{
    let mut inside = Wide::new(0, 0);
    let mut rest = Wide::new(0, 0);
    for rank in 0..weights.len() {
        let weight = weights.get(rank).wide();
        let word = order.word(rank);
        if is_member(plan, set, word) {
            inside = inside.plus(weight);
        }
        if is_other(plan, set, word) {
            rest = rest.plus(weight);
        }
    }
    inside.part_of(rest)
}

// Whether the word is one of the set.
fn is_member(plan: &Plan, set: WordSet, word: u16) -> bool
    requires set { IsSetOf plan.now set }
    requires word { word < words plan.now }
    ensures { result ≡ spec.is_member plan.now set word }
{
    let _units = plan.units();
    match set {
        WordSet::Full => usize::from(word) == words_of(plan) - 1,
        WordSet::OneFree => usize::from(level(word)) + 1 == plan.units(),
        WordSet::Busy(unit) => is_busy(word, unit),
        WordSet::BothSent(atom, first, second) => {
            sends_both(plan, usize::from(atom), first, second, word)
        }
    }
}

// Whether its part is taken among words of which this is one, and the word is not of the set.
fn is_other(plan: &Plan, set: WordSet, word: u16) -> bool
    requires set { IsSetOf plan.now set }
    requires word { word < words plan.now }
    ensures { result ≡ spec.is_other plan.now set word }
{
    is_base(plan, set, word) && !is_member(plan, set, word)
}

fn is_base(plan: &Plan, set: WordSet, word: u16) -> bool
    requires { word < words plan.now }
    ensures { result ≡ spec.is_base plan.now set word }
{
    match set {
        WordSet::BothSent(_, _, _) => has_two_free(plan, word),
        _ => true,
    }
}

fn has_two_free(plan: &Plan, word: u16) -> bool
    requires { word < words plan.now }
    ensures { result ≡ measures.has_two_free plan.now word }
{
    usize::from(level(word)) + 2 <= plan.units()
}

// Whether two units are free, and these two are sent to a call of the atom that needs two.
fn sends_both(plan: &Plan, atom: usize, first: u8, second: u8, word: u16) -> bool
    requires atom { atom < atoms plan.now }
    requires first { first < units plan.now }
    requires second { second < units plan.now }
    requires word { word < words plan.now }
    ensures { result ≡ measures.sends_both plan.now atom first second word }
{
    let _units = plan.units();
    let after_two = after_one(plan, atom, after_one(plan, atom, word));
    has_two_free(plan, word) && after_two == turned(turned(word, first), second)
}

// How many words the units have.
fn words_of(plan: &Plan) -> usize
    ensures words { result ≡ words plan.now }
    ensures least { 1 ≤ result }
{
    1 << plan.units()
}
