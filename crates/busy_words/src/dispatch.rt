ghost use Rattle.std.specs.Prelude.{◌≡◌, ℕ, ◌+◌, ◌-◌, ◌*◌, ◌/◌, ◌^◌, ◌<◌, ◌≤◌, ◌↔◌, None, length, if◌then◌else◌};
ghost use Rattle.hyper_model.specs.Groups.{groups_in, IsGrouped};
ghost use Rattle.hyper_model.specs.Plans.{units, atoms, calls_of, all_calls, split, IsAccepted};
ghost use Rattle.hyper_model.specs.Words.{first_free as first_free_in, full_word, is_busy as is_busy_in, is_taker, portion as portion_of, taker_count, takes, words};
ghost use Rattle.hyper_model.specs.Laws.{level as level_of};
ghost use Rattle.hyper_model.specs.Rates.{up as rate_up};
ghost use Rattle.busy_words.specs.WeightParts.{taken_shares};

use crate::words::{is_busy, level};
use hyper_model::{Lists, Plan, law_accepted};

/// The first unit of the atom's list that is free in the word, or `None` if the word is full.
pub fn first_free(lists: &Lists, atom: usize, word: u16) -> Option<u8>
    requires atom { atom < length lists.now.rows }
    requires grouped { IsGrouped lists.now.units (groups_in lists.now atom) }
    requires word { word < 2 ^ lists.now.units }
    ensures first { result ≡ first_free_in lists.now atom word }
    ensures full { (result ≡ None) ↔ (word ≡ 2 ^ lists.now.units - 1) }
{
    for place in 0..lists.units() {
        let unit = lists.unit(atom, place);
        if !is_busy(word, unit) {
            return Some(unit);
        }
    }
    None
}

/// The units that a call of the atom can go to in the word: the free units of the first group that has one.
///
/// They are given as the word in which only they are busy: it is 0 exactly if the word is full.
pub fn takers(lists: &Lists, atom: usize, word: u16) -> u16
    requires atom { atom < length lists.now.rows }
    requires grouped { IsGrouped lists.now.units (groups_in lists.now atom) }
    requires word { word < 2 ^ lists.now.units }
    ensures takers { (n : ℕ) → is_busy_in result n ≡ is_taker (groups_in lists.now atom) word n }
    ensures below { result < 2 ^ lists.now.units }
    ensures full { (result ≡ 0) ↔ (word ≡ 2 ^ lists.now.units - 1) }
{
    let mut takers = 0;
    for place in 0..lists.units() {
        if takers != 0 && lists.begins(atom, place) {
            return takers;
        }
        let member = lists.unit(atom, place);
        if !is_busy(word, member) {
            takers |= 1 << member;
        }
    }
    takers
}

/// The share of a call of the atom that each unit has that it can go to in the word, out of `plan.split()`
/// shares.
pub fn portion(plan: &Plan, atom: usize, word: u16) -> u32
    requires atom { atom < atoms plan.now }
    requires word { word < full_word plan.now }
    ensures portion { result ≡ portion_of plan.now atom word }
    ensures whole { taker_count plan.now atom word * result ≡ split plan.now }
    ensures least { 1 ≤ result }
    ensures most { result ≤ split plan.now }
{
    share_of(plan, takers(lists_of(plan), atom, word))
}

/// The rate at which this unit, if it is free in the word, is sent to calls, times `plan.split()`.
pub fn up(plan: &Plan, word: u16, unit: u8) -> u64
    requires word { word < words plan.now }
    requires unit { unit < units plan.now }
    ensures rate { result ≡ rate_up plan.now word unit }
    ensures most { result ≤ split plan.now * all_calls plan.now }
{
    let mut rate = 0;
    for atom in 0..plan.atoms() {
        rate += rate_of_atom(plan, atom, word, unit);
    }
    rate
}

// The part of that rate that one atom's calls have.
fn rate_of_atom(plan: &Plan, atom: usize, word: u16, unit: u8) -> u64
    requires atom { atom < atoms plan.now }
    requires word { word < words plan.now }
    requires unit { unit < units plan.now }
    ensures rate { result ≡ (if takes plan.now atom word unit then calls_of plan.now atom * portion_of plan.now atom word else 0) }
    ensures most { result ≤ calls_of plan.now atom * split plan.now }
    ensures small { result < 2 ^ 40 }
{
    u64::from(plan.atom(atom).rate) * u64::from(taken_share(plan, atom, word, unit))
}

// How many of the `plan.split()` shares of a call of the atom go to this unit in the word.
pub(crate) fn taken_share(plan: &Plan, atom: usize, word: u16, unit: u8) -> u32
    requires atom { atom < atoms plan.now }
    requires word { word < words plan.now }
    requires unit { unit < units plan.now }
    ensures shares { result ≡ taken_shares plan.now unit atom word }
    ensures most { result ≤ split plan.now }
    ensures small { result ≤ 27720 }
{
    let takers = takers(lists_of(plan), atom, word);
    if is_busy(takers, unit) {
        share_of(plan, takers)
    } else {
        0
    }
}

// What each of these units has of `plan.split()` shares.
fn share_of(plan: &Plan, takers: u16) -> u32
    requires below { takers < 2 ^ units plan.now }
    requires some { 0 < level_of (units plan.now) takers }
    ensures share { result ≡ split plan.now / level_of (units plan.now) takers }
    ensures most { result ≤ split plan.now }
    ensures small { result ≤ 27720 }
{
    plan.split() / u32::from(level(takers))
}

// The plan's preference lists, each of which holds every unit once.
fn lists_of(plan: &Plan) -> &Lists
    ensures lists { result.now ≡ plan.now.lists }
    ensures accepted { IsAccepted plan.now }
{
    law_accepted(plan);
    plan.lists()
}
