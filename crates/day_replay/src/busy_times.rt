ghost use Rattle.std.specs.Prelude.{◌≡◌, ◌<◌, ◌≤◌, ◌+◌, if◌then◌else◌, IfOk, length, map, slice_index, AllPairs};
ghost use Rattle.std.specs.List.{range_with_len};
ghost use Rattle.hyper_model.specs.Plans.{units};
ghost use Rattle.hyper_model.specs.Words.{is_busy as is_busy_in};
ghost use Rattle.day_replay.specs.Counts as counts;
ghost use Rattle.day_replay.specs.Days.{IsDayOf};
ghost use Rattle.day_replay.specs.Fleets as spec;
ghost use Rattle.plan_text.specs.declared.TheConstants.{MOST_RECORDS};

use crate::Day;
use busy_words::is_busy;
use hyper_model::Plan;
use std::alloc::{AllocError, Global};

/// For how many seconds each unit is busy, by the word of the busy units before each record.
pub(crate) fn busy_times(
    alloc: Global,
    plan: &Plan,
    day: &Day,
    words: &[u16],
) -> Result<Vec<u64>, AllocError>
    requires form { IsDayOf plan.now day.now }
    requires one_each { length words.now ≡ length day.now }
    ensures { IfOk result (λ times. times.items ≡ map (spec.busy_time day.now words.now) (range_with_len 0 (units plan.now))) }
{
    let mut times = Vec::new(alloc);
    for unit in 0..plan.units() {
        times.push(busy_time(day, words, unit as u8))?;
    }
    Ok(times)
}

/// For how many seconds this unit is busy.
fn busy_time(day: &Day, words: &[u16], unit: u8) -> u64
    requires few { length day.now ≤ MOST_RECORDS + 1 }
    requires ordered { AllPairs (λ earlier later. earlier.second ≤ later.second) day.now }
    requires unit { unit < 16 }
    requires one_each { length words.now ≡ length day.now }
    ensures { result ≡ spec.busy_time day.now words.now unit }
{
    let mut time = 0;
    for place in 0..day.len() {
        time += u64::from(busy_seconds(day, words, place, unit));
    }
    time
}

/// The seconds from the record before to the one at this place, if the unit is busy in them.
fn busy_seconds(day: &Day, words: &[u16], place: usize, unit: u8) -> u32
    requires place { place < length day.now }
    requires ordered { AllPairs (λ earlier later. earlier.second ≤ later.second) day.now }
    requires unit { unit < 16 }
    requires one_each { length words.now ≡ length day.now }
    ensures { result ≡ (if is_busy_in (slice_index words.now place) unit then counts.seconds_before day.now place else 0) }
{
    if is_busy(words[place], unit) {
        seconds_before(day, place)
    } else {
        0
    }
}

/// The seconds from the record before to the one at this place: none to the first.
fn seconds_before(day: &Day, place: usize) -> u32
    requires place { place < length day.now }
    requires ordered { AllPairs (λ earlier later. earlier.second ≤ later.second) day.now }
    ensures { result ≡ counts.seconds_before day.now place }
{
    day.get(place).second - day.get(place.saturating_sub(1)).second
}
