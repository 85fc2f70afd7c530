ghost use Rattle.std.specs.Prelude.{◌≡◌, ◌<◌, ◌≤◌, ◌⊎◌, [], ◌∷◌, ◌++◌, true, false, length, Err, IfSome, OnOk};
ghost use Rattle.hyper_model.specs.Plans.{IsAccepted, atoms};
ghost use Rattle.hyper_model.specs.Words.{first_free as first_free_in, is_busy as is_busy_in, words};
ghost use Rattle.day_replay.specs.Fleets as spec;
ghost use Rattle.day_replay.specs.Fleets.{after_call, after_free, answer, next_call};
ghost use Rattle.day_replay.specs.declared.replaying.ReplayEnd.{ReplayEnd};

use crate::played_list::AnsweredCall;
use crate::{DayRecord, ReplayEnd, Send};
use busy_words::{first_free, is_busy};
use hyper_model::{Line, Plan, law_accepted};
use std::alloc::{AllocError, Global};
use std::collections::VecDeque;
use std::marker::Model;

/// The fleet during a day: which units are busy, which calls wait, and which were answered.
#[derive(Drop)]
pub(crate) struct Fleet {
    word: u16,
    waiting: VecDeque<DayRecord>,
    answers: Vec<AnsweredCall>,
}

impl Model for Fleet {
    ghost Value = { spec.Fleet };

    ghost view = { λ a. record { word = a.word; waiting = a.waiting.items; answers = a.answers.items } };
}

impl Fleet {
    /// All units free, and no call yet.
    pub(crate) fn new(alloc: Global) -> Fleet
        ensures word { result.word ≡ 0 }
        ensures waiting { result.waiting ≡ [] }
        ensures answers { result.answers ≡ [] }
    {
        Fleet {
            word: 0,
            waiting: VecDeque::new(alloc),
            answers: Vec::new(alloc),
        }
    }

    /// The word of the busy units.
    pub(crate) fn word(&self) -> u16
        ensures { result ≡ self.now.word }
    {
        self.word
    }

    /// A call comes: the first free unit of its atom's list is sent, and if none is free, the call is kept.
    pub(crate) fn take_call(&mut self, plan: &Plan, call: DayRecord) -> Result<(), AllocError>
        requires atom { call.who < atoms plan.now }
        requires word { self.old.word < words plan.now }
        ensures { OnOk result (self.new ≡ after_call (first_free_in plan.now.lists call.who self.old.word) call self.old) }
    {
        law_accepted(plan);
        let lists = plan.lists();
        let atom = usize::from(call.who);
        let unit = first_free(lists, atom, self.word);
        self.answer_call(unit, call)
    }

    /// Sends this unit to a call, or keeps the call.
    fn answer_call(&mut self, unit: Option<u8>, call: DayRecord) -> Result<(), AllocError>
        requires { IfSome unit (λ unit. unit < 16) }
        ensures { OnOk result (self.new ≡ after_call unit call self.old) }
    {
        match unit {
            Some(unit) => {
                self.word ^= 1 << unit;
                self.send(call.at, unit, call)
            }
            None => {
                self.waiting.push_back(call)?;
                Ok(())
            }
        }
    }

    /// A unit is free again, if it was busy: on an infinite line it is sent to the call that has waited longest, if one
    /// waits.
    pub(crate) fn free_unit(&mut self, line: Line, freed: DayRecord) -> Result<(), ReplayEnd>
        requires { freed.who < 16 }
        ensures fleet { OnOk result (self.new ≡ after_free line freed self.old) }
        ensures busy { OnOk result (is_busy_in self.old.word freed.who ≡ true) }
        ensures end { (e : ReplayEnd) → result ≡ Err e → (e ≡ ReplayEnd.NoMemory)
            ⊎ ((e ≡ ReplayEnd.NotBusy freed.at) × (is_busy_in self.old.word freed.who ≡ false)) }
    {
        let unit = freed.who as u8;
        if !is_busy(self.word, unit) {
            return Err(ReplayEnd::NotBusy(freed.at));
        }
        match self.next_call(line) {
            Some(call) => self.send(freed.at, unit, call)?,
            None => self.word ^= 1 << unit,
        }
        Ok(())
    }

    /// Sends a unit to a call at the record with this number.
    fn send(&mut self, at: u32, unit: u8, call: DayRecord) -> Result<(), AllocError>
        ensures { OnOk result (self.new ≡ record self.old { answers = self.old.answers ++ answer at unit call ∷ [] }) }
    {
        let send = Send {
            at,
            call: call.at,
            unit,
        };
        self.answers.push(AnsweredCall {
            send,
            atom: call.who,
        })?;
        Ok(())
    }

    /// Takes the call that has waited longest, if calls wait.
    fn next_call(&mut self, line: Line) -> Option<DayRecord>
        ensures next { result ≡ (next_call line self.old.waiting).call }
        ensures fleet { self.new ≡ record self.old { waiting = (next_call line self.old.waiting).left } }
    {
        match line {
            Line::Zero => None,
            Line::Infinite => self.waiting.pop_front(),
        }
    }

    /// How many calls were not answered.
    pub(crate) fn waiting(&self) -> usize
        ensures { result ≡ length self.now.waiting }
    {
        self.waiting.len()
    }

    /// The calls that were answered, in the order of their sends.
    pub(crate) fn into_answers(self) -> Vec<AnsweredCall>
        ensures { result.items ≡ self.answers }
    {
        self.answers
    }
}
