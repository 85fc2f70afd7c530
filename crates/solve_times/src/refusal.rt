use plan_maker::MakeRefusal;
use plan_reader::PlanRefusal;
use report_text::ReportEnd;
use std::alloc::AllocError;
use std::num::ParseIntError;
use std::{fmt, io};
use thiserror::Error;

/// Why no times were taken.
#[derive(Drop, Error)]
pub(crate) enum TimesRefusal {
    /// The arguments ask for none of the tasks.
    #[error("the arguments are rates or certificate FILE, or rows, solve or parts FILE WORKERS")]
    UnknownArguments,
    /// There were to be no workers, or more than 16.
    #[error("there are 1 to 16 workers")]
    WorkerRange,
    /// The argument for the workers is no number.
    #[error(transparent)]
    NotANumber(#[from] ParseIntError),
    /// All states but the first are eliminated.
    #[error("no state is to be eliminated")]
    NothingLeft,
    /// The small plan was not made.
    #[error(transparent)]
    NotMade(#[from] MakeRefusal),
    /// The text gives no plan.
    #[error(transparent)]
    NoPlan(#[from] PlanRefusal),
    /// There is no report.
    #[error("no report was written")]
    NoReport,
    /// A file was not read, a line not written, or a clock not asked.
    #[error(transparent)]
    World(#[from] io::Error),
    /// There was no memory for it.
    #[error(transparent)]
    NoMemory(#[from(alloc)] AllocError),
}

impl From<ReportEnd> for TimesRefusal {
    fn from(_: ReportEnd) -> TimesRefusal {
        TimesRefusal::NoReport
    }
}

// What `main` ends with is told by its message.
impl fmt::Debug for TimesRefusal {
    fn fmt<W: fmt::Write>(&self, f: &mut fmt::Formatter<W>) -> fmt::Result {
        fmt::Display::fmt(self, f)
    }
}
