ghost use Rattle.std.specs.Prelude.{◌≡◌, ◌<◌, ◌^◌, ◌⊎◌, ℕ, List, [], ◌∷◌, ◌++◌, length, true, false, Err, IfOk, OnOk};
ghost use Rattle.hyper_model.specs.Words.{words as words_of};
ghost use Rattle.plan_text.specs.Steps.{Checks};
ghost use Rattle.day_replay.specs.Days.{IsDayOf, IsKnown};
ghost use Rattle.day_replay.specs.Counts.{call_count};
ghost use Rattle.day_replay.specs.Fleets.{IsFleetOf, after_record, is_idle_free};
ghost use Rattle.day_replay.specs.Played.{IsPlayed};
ghost use Rattle.day_replay.specs.Sends.{StandsForDay, not_busy_end};
ghost use Rattle.day_replay.specs.declared.replaying.ReplayEnd.{ReplayEnd};
ghost use Rattle.day_replay.specs.declared.played_list.Send.{Send};

use crate::busy_times::busy_times;
use crate::dispatch_counts::count_dispatches;
use crate::fleet::Fleet;
use crate::{Day, DayRecord, Played};
use hyper_model::{Plan, law_accepted};
use std::alloc::{AllocError, Global};

/// Why a day was not replayed.
#[derive(Clone, Copy, Debug, PartialEq, Eq)]
pub enum ReplayEnd {
    /// The record with this number says that a unit is free again that was not busy. It is the first such record.
    NotBusy(u32),
    /// There was no memory.
    NoMemory,
}

impl From<AllocError> for ReplayEnd {
    ghost use Rattle.std.specs.Prelude.{◌≡◌};
    ghost use Rattle.day_replay.specs.declared.replaying.ReplayEnd.TheVariants.{NoMemory};

    ghost from_gives = { λ _ end. end ≡ NoMemory };

    fn from(_: AllocError) -> ReplayEnd {
        ReplayEnd::NoMemory
    }
}

/// Replays a day: to each call the first free unit of its atom's list is sent. If none is free, the call is lost, or it
/// waits; then a unit that is free again is sent to the call that has waited longest.
///
/// A day is refused if a unit is free again that was not busy.
pub fn replay(alloc: Global, plan: &Plan, day: &Day) -> Result<Played, ReplayEnd>
    requires { IsDayOf plan.now day.now }
    ensures played { IfOk result (λ played. IsPlayed plan.now day.now played) }
    ensures end { (sends : List Send) → StandsForDay plan.now day.now sends
        → Checks ReplayEnd.NoMemory result (not_busy_end day.now sends) }
{
    let mut words = Vec::new(alloc);
    let fleet = send_units(alloc, plan, day, &mut words)?;
    let unanswered = fleet.waiting() as u32;
    let answers = fleet.into_answers();
    let dispatched = count_dispatches(alloc, plan, &answers)?;
    let busy = busy_times(alloc, plan, day, &words)?;
    Ok(Played {
        answers,
        calls: count_calls(day),
        unanswered,
        dispatched,
        busy,
    })
}

/// The fleet after the whole day. Puts down the word of the busy units before each record.
fn send_units(
    alloc: Global,
    plan: &Plan,
    day: &Day,
    words: &mut Vec<u16>,
) -> Result<Fleet, ReplayEnd>
    requires form { IsDayOf plan.now day.now }
    requires empty { words.old.items ≡ [] }
    ensures fleet { IfOk result (λ fleet. IsFleetOf plan.now day.now fleet words.new.items) }
    ensures end { (sends : List Send) → StandsForDay plan.now day.now sends
        → Checks ReplayEnd.NoMemory result (not_busy_end day.now sends) }
{
    law_accepted(plan);
    let mut fleet = Fleet::new(alloc);
    for place in 0..day.len() {
        let read = day.get(place);
        play_record(plan, read, &mut fleet, words)?;
    }
    Ok(fleet)
}

/// Puts down the word of the busy units, and then does what a record does to the fleet.
fn play_record(
    plan: &Plan,
    read: DayRecord,
    fleet: &mut Fleet,
    words: &mut Vec<u16>,
) -> Result<(), ReplayEnd>
    requires known { IsKnown plan.now read }
    requires word { fleet.old.word < words_of plan.now }
    ensures fleet { OnOk result (fleet.new ≡ after_record plan.now read fleet.old) }
    ensures words { OnOk result (words.new.items ≡ words.old.items ++ fleet.old.word ∷ []) }
    ensures busy { OnOk result (is_idle_free read fleet.old.word ≡ false) }
    ensures end { (e : ReplayEnd) → result ≡ Err e → (e ≡ ReplayEnd.NoMemory)
        ⊎ ((e ≡ ReplayEnd.NotBusy read.at) × (is_idle_free read fleet.old.word ≡ true)) }
{
    if words.push(fleet.word()).is_err() {
        return Err(ReplayEnd::NoMemory);
    }
    take_record(plan, read, fleet)
}

/// What a record does to the fleet.
fn take_record(plan: &Plan, read: DayRecord, fleet: &mut Fleet) -> Result<(), ReplayEnd>
    requires known { IsKnown plan.now read }
    requires word { fleet.old.word < words_of plan.now }
    ensures fleet { OnOk result (fleet.new ≡ after_record plan.now read fleet.old) }
    ensures busy { OnOk result (is_idle_free read fleet.old.word ≡ false) }
    ensures end { (e : ReplayEnd) → result ≡ Err e → (e ≡ ReplayEnd.NoMemory)
        ⊎ ((e ≡ ReplayEnd.NotBusy read.at) × (is_idle_free read fleet.old.word ≡ true)) }
{
    law_accepted(plan);
    if read.free {
        fleet.free_unit(plan.line(), read)
    } else {
        fleet.take_call(plan, read)?;
        Ok(())
    }
}

fn count_calls(day: &Day) -> u32
    requires { length day.now < 2 ^ 32 }
    ensures { result ≡ call_count day.now }
{
    let mut calls = 0;
    for place in 0..day.len() {
        if !day.get(place).free {
            calls += 1;
        }
    }
    calls
}
