ghost use Rattle.std.specs.Prelude.{◌≡◌, ◌<◌, ◌≤◌, None, Some, false};
ghost use Rattle.std.specs.Option.{option_map};

use crate::named_text::NamedText;
use crate::open_bytes::OpenBytes;
use crate::planned_faults::PlannedFaults;
use crate::shelf::{Opening, Reading, Shelf};
use crate::short_name::ShortName;
use std::alloc::Global;

/// Texts in memory, some of whose calls fail on purpose.
///
/// The calls of `open`, and those of `read` with a text open, are numbered from 1. The calls whose
/// numbers were named answer `Failed`. The number stops at `u64::MAX`, and no call fails from there
/// on.
#[derive(Drop)]
pub struct MemoryShelf<'a> {
    texts: &'a [NamedText],
    step: usize,
    opened: Option<OpenBytes<'a>>,
    faults: PlannedFaults<'a>,
    last_fault: Option<ShortName>,
    ghost gives: { 0 < step },
}

impl<'a> MemoryShelf<'a> {
    ghost use Rattle.outer_world.specs.MemoryShelf.{step_of, fails_of};

    /// A shelf that holds these texts, gives at most `step` bytes a read, and fails the calls of
    /// these numbers.
    pub fn of(texts: &'a [NamedText], step: usize, fails: &'a [u64]) -> MemoryShelf<'a>
        requires { 1 ≤ step }
        ensures told { ⟦<MemoryShelf<'a> as Shelf>⟧.told result ≡ Some texts.now }
        ensures open_name { ⟦<MemoryShelf<'a> as Shelf>⟧.open_name result ≡ None }
        ensures faults { ⟦<MemoryShelf<'a> as Shelf>⟧.faults result ≡ 0 }
        ensures last_fault { ⟦<MemoryShelf<'a> as Shelf>⟧.last_fault result ≡ None }
        ensures step { step_of result ≡ step }
        ensures fails { fails_of result ≡ fails.now }
    {
        MemoryShelf {
            texts,
            step,
            opened: None,
            faults: PlannedFaults::of(fails),
            last_fault: None,
        }
    }
}

impl<'a> Shelf for MemoryShelf<'a> {
    ghost told = { λ s. Some s.texts.now };

    ghost left = { λ s. option_map (λ o. o.rest.now) s.opened };

    ghost open_name = { λ s. option_map (λ o. o.name) s.opened };

    ghost faults = { λ s. s.faults.count };

    ghost last_fault = { λ s. s.last_fault };

    ghost last_count = { None };

    ghost takes_memory = { false };

    fn open(&mut self, _alloc: Global, name: &str) -> Opening {
        self.opened = None;
        if self.faults.strikes() {
            self.last_fault = Some(ShortName::of(name));
            return Opening::Failed;
        }
        self.opened = OpenBytes::of(self.texts, name);
        if self.opened.is_some() {
            Opening::Opened
        } else {
            Opening::Absent
        }
    }

    fn read(&mut self, piece: &mut [u8]) -> Reading {
        let Some(mut opened) = self.opened.take() else {
            return Reading::End
        };
        if self.faults.strikes() {
            self.last_fault = Some(opened.name);
            return Reading::Failed;
        }
        let reading = opened.read(self.step, piece);
        self.opened = Some(opened);
        reading
    }
}
