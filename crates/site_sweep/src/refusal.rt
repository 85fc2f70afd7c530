ghost use Rattle.std.specs.Prelude.{◌≡◌};
ghost use Rattle.site_sweep.specs.Finding.{code_of};

use text_lines::RefusalCode;
use thiserror::Error;

/// Why no sites are tried for a unit.
#[derive(Clone, Copy, Debug, PartialEq, Eq, Error)]
pub enum SweepRefusal {
    /// No unit of the plan has the name.
    #[error("no unit of the plan has the name")]
    SweepUnit,
}

impl SweepRefusal {
    /// The number by which the refusal is reported. It has no arguments.
    pub fn code(&self) -> RefusalCode
        ensures { result ≡ code_of self.now }
    {
        match self {
            SweepRefusal::SweepUnit => RefusalCode::plain(85),
        }
    }
}
