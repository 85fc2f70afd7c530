ghost use Rattle.std.specs.Prelude.{◌≡◌, ◌≢◌, ◌*◌, ◌<◌, ◌≤◌, ◌&&◌, ◌==◌, if◌then◌else◌};
ghost use Rattle.hyper_model.specs.Plans.{atoms, service_of, units};
ghost use Rattle.hyper_model.specs.Words.{is_busy as is_busy_in, turned_word, words};
ghost use Rattle.pair_dispatch.specs.PairRates as spec;
ghost use Rattle.pair_dispatch.specs.PairRates.{pair_table};

use busy_words::{first_free, is_busy};
use hyper_model::{Plan, law_accepted};

/// The word after a call of the atom that needs one unit: the first free unit of the list is sent, if one is free.
pub(crate) fn after_one(plan: &Plan, atom: usize, word: u16) -> u16
    requires atom { atom < atoms plan.now }
    requires word { word < words plan.now }
    ensures after { result ≡ spec.after_one plan.now atom word }
    ensures below { result < words plan.now }
{
    law_accepted(plan);
    match first_free(plan.lists(), atom, word) {
        Some(unit) => turned(word, unit),
        None => word,
    }
}

/// The word in which only this unit has changed, from free to busy or from busy to free.
pub(crate) fn turned(word: u16, unit: u8) -> u16
    requires { unit < 16 }
    ensures { result ≡ turned_word word unit }
{
    word ^ (1 << unit)
}

/// The rate from a word to another, times 100.
pub(crate) fn rate_between(plan: &Plan, percent: u32, word: u16, next: u16) -> u64
    requires percent { percent ≤ 100 }
    requires word { word < words plan.now }
    requires next { next < words plan.now }
    requires apart { word ≢ next }
    ensures { result ≡ pair_table plan.now percent word next }
{
    law_accepted(plan);
    if (word & next) == word {
        sending_rate(plan, percent, word, next)
    } else {
        ending_rate(plan, word, next)
    }
}

/// The rate at which calls lead from a word to another.
fn sending_rate(plan: &Plan, percent: u32, word: u16, next: u16) -> u64
    requires percent { percent ≤ 100 }
    requires word { word < words plan.now }
    ensures { result ≡ spec.sending_rate plan.now percent word next }
{
    let mut rate = 0;
    for atom in 0..plan.atoms() {
        let calls = calls_leading(plan, percent, atom, word, next);
        rate += u64::from(plan.atom(atom).rate) * u64::from(calls);
    }
    rate
}

// Of a hundred calls of the atom in the word, how many lead to the other.
fn calls_leading(plan: &Plan, percent: u32, atom: usize, word: u16, next: u16) -> u32
    requires percent { percent ≤ 100 }
    requires atom { atom < atoms plan.now }
    requires word { word < words plan.now }
    ensures calls { result ≡ spec.calls_leading plan.now percent atom word next }
    ensures most { result ≤ 100 }
{
    let one = after_one(plan, atom, word);
    let two = after_one(plan, atom, one);
    let single = if next == one { 100 - percent } else { 0 };
    let double = if next == two { percent } else { 0 };
    single + double
}

/// The rate at which a unit ends its service, if the other word is that without it.
fn ending_rate(plan: &Plan, word: u16, next: u16) -> u64
    ensures { result ≡ spec.ending_rate plan.now word next }
{
    let mut rate = 0;
    for unit in 0..plan.units() as u8 {
        rate += ending_part(plan, word, next, unit);
    }
    rate
}

// The part of that rate that this unit has.
fn ending_part(plan: &Plan, word: u16, next: u16, unit: u8) -> u64
    requires { unit < units plan.now }
    ensures part { result ≡ (if is_busy_in word unit && (next == turned_word word unit) then 100 * service_of plan.now unit else 0) }
    ensures most { result ≤ 100000000 }
{
    let _units = plan.units();
    if is_busy(word, unit) && next == turned(word, unit) {
        100 * u64::from(plan.unit(usize::from(unit)).rate)
    } else {
        0
    }
}
