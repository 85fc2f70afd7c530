ghost use Rattle.std.specs.Prelude.{◌≡◌, ◌<◌, ◌≤◌, ◌++◌, [], None, Some, true, OnOk, OnErr};
ghost use Rattle.outer_world.specs.Sink.{kept_bytes};

use crate::planned_faults::PlannedFaults;
use crate::sink::{Sink, Writing};
use std::alloc::{AllocError, Global};

/// Keeps the bytes that it takes, and fails some calls on purpose.
///
/// The calls of `write` are numbered from 1. The calls whose numbers were named answer `Failed`.
/// The number stops at `u64::MAX`, and no call fails from there on.
#[derive(Drop)]
pub struct MemorySink<'a> {
    step: usize,
    kept: Option<Vec<u8>>,
    faults: PlannedFaults<'a>,
    ghost takes: { 0 < step },
}

impl<'a> MemorySink<'a> {
    ghost use Rattle.outer_world.specs.MemorySink.{step_of, fails_of};

    /// A sink that takes at most `step` bytes a write, and fails the calls of these numbers.
    pub fn of(step: usize, fails: &'a [u64]) -> MemorySink<'a>
        requires { 1 ≤ step }
        ensures taken { ⟦<MemorySink<'a> as Sink>⟧.taken result ≡ Some [] }
        ensures faults { ⟦<MemorySink<'a> as Sink>⟧.faults result ≡ 0 }
        ensures step { step_of result ≡ step }
        ensures fails { fails_of result ≡ fails.now }
    {
        MemorySink {
            step,
            kept: None,
            faults: PlannedFaults::of(fails),
        }
    }

    /// The bytes that were taken.
    pub fn bytes(&self) -> &[u8]
        ensures { ⟦<MemorySink<'a> as Sink>⟧.taken self.now ≡ Some result.now }
    {
        shown(&self.kept)
    }
}

impl<'a> Sink for MemorySink<'a> {
    ghost taken = { λ s. Some (kept_bytes s.kept) };

    ghost faults = { λ s. s.faults.count };

    ghost last_count = { None };

    ghost takes_memory = { true };

    fn write(&mut self, alloc: Global, piece: &[u8]) -> Writing {
        if self.faults.strikes() {
            return Writing::Failed;
        }
        let count = self.step.min(piece.len());
        match keep(&mut self.kept, alloc, piece.split_at(count).0) {
            Ok(()) => Writing::Took(count),
            Err(_) => Writing::NoMemory,
        }
    }
}

/// Adds these bytes to a list that is made at the first of them.
pub(crate) fn keep(
    kept: &mut Option<Vec<u8>>,
    alloc: Global,
    bytes: &[u8],
) -> Result<(), AllocError>
    ensures ok { OnOk result (kept_bytes kept.new ≡ kept_bytes kept.old ++ bytes.now) }
    ensures err { OnErr result (kept_bytes kept.new ≡ kept_bytes kept.old) }
{
    match kept {
        Some(list) => list.extend_from_slice(bytes),
        None => {
            *kept = Some(Vec::from_slice(alloc, bytes)?);
            Ok(())
        }
    }
}

/// The bytes of such a list.
pub(crate) fn shown(kept: &Option<Vec<u8>>) -> &[u8]
    ensures { result.now ≡ kept_bytes kept.now }
{
    match kept {
        Some(list) => list.as_slice(),
        None => &[],
    }
}
