use text_lines::RefusalCode;
use thiserror::Error;

/// Why no plan was made.
#[derive(Clone, Copy, Debug, PartialEq, Eq, Error)]
pub enum MakeRefusal {
    /// There were to be fewer than 2 or more than 10 units, or the number was above 4,294,967,295.
    #[error("plans are made of 2 to 10 units, from numbers up to 4294967295")]
    MakeRange,
    /// There was no memory for the text.
    #[error("out of memory")]
    NoMemory,
}

impl MakeRefusal {
    ghost use Rattle.std.specs.Prelude.{◌≡◌};
    ghost use Rattle.plan_maker.specs.Refusals.{code_of};

    /// The number by which the refusal is reported. There are no arguments.
    pub fn code(&self) -> RefusalCode
        ensures { result ≡ code_of self.now }
    {
        match self {
            MakeRefusal::MakeRange => RefusalCode::plain(70),
            MakeRefusal::NoMemory => RefusalCode::plain(0),
        }
    }
}
