ghost use Rattle.std.specs.Prelude.{◌≡◌, ◌+◌, ◌*◌, ◌/◌, ◌<◌, ◌≤◌, ◌^◌, length};
ghost use Rattle.hyper_model.specs.Laws.{level as level_of};
ghost use Rattle.hyper_model.specs.Plans.{units, atoms, calls_of, split, IsAccepted};
ghost use Rattle.hyper_model.specs.Rates.{down};
ghost use Rattle.hyper_model.specs.Sums.{sum_below};
ghost use Rattle.hyper_model.specs.Tables.{turn_rate};
ghost use Rattle.hyper_model.specs.Words.{turned_word, words};
ghost use Rattle.word_flows.specs.TurnRates.{HasLeavings, HasRates, rate_in_turn, rate_of_first};

use busy_words::{is_busy, level, takers};
use hyper_model::{Lists, Plan, law_accepted};

/// How many words the plan has.
pub(crate) fn words_of(plan: &Plan) -> u16
    ensures words { result ≡ words plan.now }
    ensures most { result ≤ 4096 }
    ensures least { 1 ≤ result }
{
    1 << plan.units()
}

/// Writes all rates, those of calls atom by atom: so each word's takers are found once for each atom.
pub(crate) fn fill_rates(plan: &Plan, rates: &mut [u64])
    requires { length rates.old ≡ units plan.now * words plan.now }
    ensures { HasRates plan.now (turn_rate plan.now) rates.new }
{
    law_accepted(plan);
    fill_services(plan, rates);
    for atom in 0..plan.atoms() {
        add_calls(plan, atom, rates);
    }
}

/// Writes the rates at which busy units end their service, and 0 for free units.
fn fill_services(plan: &Plan, rates: &mut [u64])
    requires { length rates.old ≡ units plan.now * words plan.now }
    ensures { HasRates plan.now (down plan.now) rates.new }
{
    let words = usize::from(words_of(plan));
    for place in 0..rates.len() {
        rates[place] = served(plan, (place % words) as u16, place / words);
    }
}

/// The rate at which the unit ends its service in the word.
fn served(plan: &Plan, word: u16, unit: usize) -> u64
    requires { unit < units plan.now }
    ensures { result ≡ down plan.now word unit }
{
    let _units = plan.units();
    if is_busy(word, unit as u8) {
        u64::from(plan.split()) * u64::from(plan.unit(unit).rate)
    } else {
        0
    }
}

/// Adds the rates at which units are sent to calls of the atom.
fn add_calls(plan: &Plan, atom: usize, rates: &mut [u64])
    requires atom { atom < atoms plan.now }
    requires rates { HasRates plan.now (rate_of_first atom plan.now) rates.old }
    ensures { HasRates plan.now (rate_of_first (atom + 1) plan.now) rates.new }
{
    for word in 0..words_of(plan) {
        add_calls_in(plan, atom, word, rates);
    }
}

/// Adds those of one word.
fn add_calls_in(plan: &Plan, atom: usize, word: u16, rates: &mut [u64])
    requires atom { atom < atoms plan.now }
    requires word { word < words plan.now }
    requires rates { HasRates plan.now (rate_in_turn plan.now atom (word * units plan.now)) rates.old }
    ensures { HasRates plan.now (rate_in_turn plan.now atom ((word + 1) * units plan.now)) rates.new }
{
    let words = usize::from(words_of(plan));
    let takers = takers(lists_of(plan), atom, word);
    let rate = rate_of_each(plan, atom, takers);
    for unit in 0..plan.units() {
        if is_busy(takers, unit as u8) {
            rates[unit * words + usize::from(word)] += rate;
        }
    }
}

/// The rate at which each of these units is sent to calls of the atom, and 0 if there is none.
fn rate_of_each(plan: &Plan, atom: usize, takers: u16) -> u64
    requires atom { atom < atoms plan.now }
    requires takers { takers < words plan.now }
    ensures rate { result ≡ calls_of plan.now atom * (split plan.now / level_of (units plan.now) takers) }
    ensures most { result ≤ 2 ^ 36 }
{
    let count = u64::from(level(takers));
    if count == 0 {
        return 0;
    }
    u64::from(plan.atom(atom).rate) * (u64::from(plan.split()) / count)
}

/// The plan's preference lists, each of which holds every unit once.
fn lists_of(plan: &Plan) -> &Lists
    ensures lists { result.now ≡ plan.now.lists }
    ensures accepted { IsAccepted plan.now }
{
    law_accepted(plan);
    plan.lists()
}

/// Writes the rate out of each word, the sum of its units' rates.
pub(crate) fn fill_leavings(plan: &Plan, rates: &[u64], leavings: &mut [u64])
    requires rates { HasRates plan.now (turn_rate plan.now) rates.now }
    requires leavings { length leavings.old ≡ words plan.now }
    ensures { HasLeavings plan.now leavings.new }
{
    for word in 0..words_of(plan) {
        leavings[usize::from(word)] = leaving(plan, rates, word);
    }
}

/// The rate out of the word.
fn leaving(plan: &Plan, rates: &[u64], word: u16) -> u64
    requires rates { HasRates plan.now (turn_rate plan.now) rates.now }
    requires word { word < words plan.now }
    ensures { result ≡ sum_below (units plan.now) (turn_rate plan.now word) }
{
    let mut sum = 0;
    for unit in 0..plan.units() {
        sum += rate_of(plan, rates, usize::from(word), unit);
    }
    sum
}

/// The rate at which the unit changes in the word.
pub(crate) fn rate_of(plan: &Plan, rates: &[u64], word: usize, unit: usize) -> u64
    requires rates { HasRates plan.now (turn_rate plan.now) rates.now }
    requires word { word < words plan.now }
    requires unit { unit < units plan.now }
    ensures rate { result ≡ turn_rate plan.now word unit }
    ensures most { result ≤ 2 ^ 36 }
{
    law_accepted(plan);
    rates[unit * usize::from(words_of(plan)) + word]
}

/// The word in which only the unit has changed.
pub(crate) fn neighbour(plan: &Plan, word: usize, unit: usize) -> usize
    requires word { word < words plan.now }
    requires unit { unit < units plan.now }
    ensures word { result ≡ turned_word word unit }
    ensures below { result < words plan.now }
{
    let _units = plan.units();
    word ^ (1 << unit)
}
