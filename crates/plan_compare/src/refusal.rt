ghost use Rattle.std.specs.Prelude.{◌≡◌};

use std::alloc::AllocError;
use text_lines::RefusalCode;
use thiserror::Error;

/// Why a text gives no study.
#[derive(Clone, Copy, Debug, PartialEq, Eq, Error)]
pub enum StudyRefusal {
    /// The text is no TOML document, or not one with two arrays of strings: the names of the plans, of 1
    /// to 255 bytes, under `plans`, and the words of 1 to 16 measures under `measures`.
    #[error("the study has not two lists of texts, plans and measures, and nothing else")]
    BadStudy,
    /// The word at this place, counted from 1, names no measure of the whole region.
    #[error("measure {0} of the study is unknown")]
    UnknownMeasure(u64),
    /// There are this many plans, which is fewer than 2 or more than 16.
    #[error("the study has {0} plans, and not 2 to 16")]
    PlanCount(u64),
    /// The text has this many bytes, which is more than [`MOST_STUDY_BYTES`](crate::MOST_STUDY_BYTES).
    #[error("the study has {0} bytes, more than 4194304")]
    StudyTooLong(u64),
    /// There was no memory for the study.
    #[error("out of memory")]
    NoMemory,
}

impl StudyRefusal {
    ghost use Rattle.plan_compare.specs.Refusals.{code_of};

    /// The number and the arguments by which the refusal is reported.
    pub fn code(&self) -> RefusalCode
        ensures { result ≡ code_of self.now }
    {
        match self {
            StudyRefusal::BadStudy => RefusalCode::plain(60),
            StudyRefusal::UnknownMeasure(place) => RefusalCode::of_one(61, *place),
            StudyRefusal::PlanCount(count) => RefusalCode::of_one(62, *count),
            StudyRefusal::StudyTooLong(bytes) => RefusalCode::of_one(63, *bytes),
            StudyRefusal::NoMemory => RefusalCode::plain(0),
        }
    }
}

impl From<AllocError> for StudyRefusal {
    ghost use Rattle.plan_compare.specs.declared.refusal.StudyRefusal.TheVariants.{NoMemory};

    ghost from_gives = { λ _ refusal. refusal ≡ NoMemory };

    fn from(_: AllocError) -> StudyRefusal {
        StudyRefusal::NoMemory
    }
}
