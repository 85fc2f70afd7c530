ghost use Rattle.std.specs.Prelude.{◌≡◌, ◌-◌, ◌^◌, None, Some, false};

use crate::sink::{Sink, Writing};
use std::alloc::Global;

/// The standard output.
///
/// It tells no bytes. Each error of the system is a fault, and so is a write that takes nothing.
/// The count of faults stops at `u64::MAX`.
#[derive(Drop)]
pub struct StdoutSink<'a, P: Print> {
    output: &'a P,
    faults: u64,
}

impl<'a, P: Print> StdoutSink<'a, P> {
    /// The standard output, with no fault so far.
    pub fn of(output: &'a P) -> StdoutSink<'a, P>
        ensures { ⟦<StdoutSink<'a, P> as Sink>⟧.faults result ≡ 0 }
    {
        StdoutSink { output, faults: 0 }
    }
}

impl<'a, P: Print> Sink for StdoutSink<'a, P> {
    ghost taken = { λ _. None };

    ghost faults = { λ s. s.faults };

    ghost last_count = { Some (2 ^ 64 - 1) };

    ghost takes_memory = { false };

    fn write(&mut self, _alloc: Global, piece: &[u8]) -> Writing {
        match self.output.write_some(piece) {
            Ok(0) | Err(_) => {
                self.faults = self.faults.saturating_add(1);
                Writing::Failed
            }
            Ok(count) => Writing::Took(count),
        }
    }
}
