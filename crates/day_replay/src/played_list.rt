ghost use Rattle.std.specs.Prelude.{◌≡◌, ◌<◌, ◌↔◌, IsTrue, [], Some, length, slice_get, slice_index};
ghost use Rattle.hyper_model.specs.Grid.{cell};

use hyper_model::Table;
use std::marker::Model;

/// A unit that was sent to a call.
#[derive(Clone, Copy, Debug, PartialEq, Eq)]
pub struct Send {
    /// The number of the record at which it was sent: that of the call, or of the unit that was free again.
    pub at: u32,
    /// The number of the call's record.
    pub call: u32,
    /// The unit, counted from 0.
    pub unit: u8,
}

/// A unit that was sent to a call, and the call's atom, counted from 0.
#[derive(Clone, Copy, Debug)]
pub(crate) struct AnsweredCall {
    pub(crate) send: Send,
    pub(crate) atom: u16,
}

/// A day that was replayed: which unit was sent to which call, and what is counted of it.
#[derive(Debug, Drop)]
pub struct Played {
    pub(crate) answers: Vec<AnsweredCall>,
    pub(crate) calls: u32,
    pub(crate) unanswered: u32,
    pub(crate) dispatched: Table,
    pub(crate) busy: Vec<u64>,
}

impl Model for Played {
    ghost use Rattle.day_replay.specs.Fleets.{sends_of};
    ghost use Rattle.day_replay.specs.Played.{PlayedDay};

    ghost Value = { PlayedDay };

    ghost view = { λ a. record {
      sends = sends_of a.answers.items;
      calls = a.calls;
      unanswered = a.unanswered;
      dispatched = a.dispatched;
      busy = a.busy.items;
    } };
}

impl Played {
    /// How many times a unit was sent.
    pub fn len(&self) -> usize
        ensures { result ≡ length self.now.sends }
    {
        self.answers.len()
    }

    /// Whether no unit was.
    pub fn is_empty(&self) -> bool
        ensures { IsTrue result ↔ (self.now.sends ≡ []) }
    {
        self.answers.is_empty()
    }

    /// The send at this place, counted from 0, in the order of the records.
    pub fn get(&self, place: usize) -> Send
        requires { place < length self.now.sends }
        ensures { slice_get self.now.sends place ≡ Some result }
    {
        self.answers[place].send
    }

    /// How many calls there were.
    pub fn calls(&self) -> u32
        ensures { result ≡ self.now.calls }
    {
        self.calls
    }

    /// To how many of them no unit was sent.
    pub fn unanswered(&self) -> u32
        ensures { result ≡ self.now.unanswered }
    {
        self.unanswered
    }

    /// How many times this unit was sent to a call of this atom, both counted from 0.
    pub fn dispatched(&self, unit: usize, atom: usize) -> u32
        requires unit { unit < self.now.dispatched.rows }
        requires atom { atom < self.now.dispatched.cols }
        ensures { result ≡ cell self.now.dispatched unit atom }
    {
        self.dispatched.get(unit, atom)
    }

    /// For how many seconds between the first record and the last this unit, counted from 0, was busy.
    pub fn busy(&self, unit: usize) -> u64
        requires { unit < length self.now.busy }
        ensures { result ≡ slice_index self.now.busy unit }
    {
        self.busy[unit]
    }
}
