ghost use Rattle.std.specs.Prelude.{◌≡◌, ◌<◌, ◌↔◌, IsTrue, [], ◌++◌, length, OnOk};
ghost use Rattle.std.specs.Option.{option_to_list};
ghost use Rattle.day_replay.specs.Days.{record_at};

use std::alloc::{AllocError, Global};
use std::marker::Model;

/// What a day's record says: at this second a call came, or a unit was free again.
#[derive(Clone, Copy, Debug, PartialEq, Eq)]
pub struct DayRecord {
    /// The record's number, counted from 1 over all rows of the text.
    pub at: u32,
    /// When it was, in seconds, 0 to 999,999,999.
    pub second: u32,
    /// Whether a unit was free again. Else a call came.
    pub free: bool,
    /// The unit that was free, or the atom that the call came from, counted from 0.
    pub who: u16,
}

/// The records of a day, in order.
#[derive(Debug, Drop)]
pub struct Day {
    records: Vec<DayRecord>,
}

impl Model for Day {
    ghost use Rattle.std.specs.Prelude.{List};
    ghost use Rattle.day_replay.specs.declared.day_list.DayRecord.{DayRecord};

    ghost Value = { List DayRecord };

    ghost view = { λ a. a.records.items };
}

impl Day {
    /// A day without records.
    pub(crate) fn new(alloc: Global) -> Day
        ensures { result ≡ [] }
    {
        Day {
            records: Vec::new(alloc),
        }
    }

    /// Puts a record after the others, if there is one.
    pub(crate) fn keep(&mut self, read: Option<DayRecord>) -> Result<(), AllocError>
        ensures { OnOk result (self.new ≡ self.old ++ option_to_list read) }
    {
        if let Some(record) = read {
            self.records.push(record)?;
        }
        Ok(())
    }

    /// How many records there are.
    pub fn len(&self) -> usize
        ensures { result ≡ length self.now }
    {
        self.records.len()
    }

    /// Whether there are none.
    pub fn is_empty(&self) -> bool
        ensures { IsTrue result ↔ (self.now ≡ []) }
    {
        self.records.is_empty()
    }

    /// The record at this place, counted from 0.
    pub fn get(&self, place: usize) -> DayRecord
        requires { place < length self.now }
        ensures { result ≡ record_at self.now place }
    {
        self.records[place]
    }
}
