ghost use Rattle.std.specs.Prelude.{◌≡◌, ◌<◌, ◌≤◌, [], None, Some, true};
ghost use Rattle.outer_world.specs.Sink.{kept_bytes};

use crate::memory_sink::{keep, shown};
use crate::sink::{Sink, Writing};
use std::alloc::Global;

/// Keeps the bytes that it takes. No call fails, but memory may be wanting.
#[derive(Drop)]
pub struct SureSink {
    step: usize,
    kept: Option<Vec<u8>>,
    ghost takes: { 0 < step },
}

impl SureSink {
    ghost use Rattle.outer_world.specs.SureSink.{step_of};

    /// A sink that takes at most `step` bytes a write.
    pub fn of(step: usize) -> SureSink
        requires { 1 ≤ step }
        ensures taken { ⟦<SureSink as Sink>⟧.taken result ≡ Some [] }
        ensures step { step_of result ≡ step }
    {
        SureSink { step, kept: None }
    }

    /// The bytes that were taken.
    pub fn bytes(&self) -> &[u8]
        ensures { ⟦<SureSink as Sink>⟧.taken self.now ≡ Some result.now }
    {
        shown(&self.kept)
    }
}

impl Sink for SureSink {
    ghost taken = { λ s. Some (kept_bytes s.kept) };

    ghost faults = { λ _. 0 };

    ghost last_count = { None };

    ghost takes_memory = { true };

    fn write(&mut self, alloc: Global, piece: &[u8]) -> Writing {
        let count = self.step.min(piece.len());
        match keep(&mut self.kept, alloc, piece.split_at(count).0) {
            Ok(()) => Writing::Took(count),
            Err(_) => Writing::NoMemory,
        }
    }
}
