ghost use Rattle.std.specs.Prelude.{◌≡◌};

use std::alloc::AllocError;
use text_lines::RefusalCode;
use thiserror::Error;

/// Why a text gives no day of a plan, or a day cannot be replayed.
///
/// Records are counted from 1 over all rows of the text.
#[derive(Clone, Copy, Debug, PartialEq, Eq, Error)]
pub enum DayRefusal {
    /// The text has this many bytes, which is more than [`MOST_TEXT_BYTES`](plan_text::MOST_TEXT_BYTES).
    #[error("the day has {0} bytes, more than 4194304")]
    DayTooLong(u64),
    /// This record is the first of more than [`MOST_RECORDS`](plan_text::MOST_RECORDS).
    #[error("record {0} is beyond the 50000 records that a day may have")]
    DayTooMany(u64),
    /// This record is no `call` or `free` with a second and a name.
    #[error("record {0} is no call and no free unit at a second")]
    DayRecord(u64),
    /// The plan has no atom, or no unit, of the name in this record.
    #[error("record {0} names no atom or unit of the plan")]
    DayName(u64),
    /// This record is at an earlier second than one before it.
    #[error("record {0} is at an earlier second than one before it")]
    DayOrder(u64),
    /// This record says that a unit is free again that was not busy.
    #[error("record {0} frees a unit that is not busy")]
    NotBusy(u64),
    /// There was no memory for the day.
    #[error("out of memory")]
    NoMemory,
}

impl DayRefusal {
    ghost use Rattle.day_replay.specs.Refusals.{code_of};

    /// The number by which the refusal is reported, 0 for lack of memory, and the record or the bytes that it speaks of.
    pub fn code(&self) -> RefusalCode
        ensures { result ≡ code_of self.now }
    {
        match self {
            DayRefusal::DayTooLong(bytes) => RefusalCode::of_one(90, *bytes),
            DayRefusal::DayTooMany(number) => RefusalCode::of_one(91, *number),
            DayRefusal::DayRecord(number) => RefusalCode::of_one(92, *number),
            DayRefusal::DayName(number) => RefusalCode::of_one(93, *number),
            DayRefusal::DayOrder(number) => RefusalCode::of_one(94, *number),
            DayRefusal::NotBusy(number) => RefusalCode::of_one(95, *number),
            DayRefusal::NoMemory => RefusalCode::plain(0),
        }
    }
}

impl From<AllocError> for DayRefusal {
    ghost use Rattle.day_replay.specs.declared.day_refusal.DayRefusal.TheVariants.{NoMemory};

    ghost from_gives = { λ _ refusal. refusal ≡ NoMemory };

    fn from(_: AllocError) -> DayRefusal {
        DayRefusal::NoMemory
    }
}
