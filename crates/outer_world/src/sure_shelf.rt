ghost use Rattle.std.specs.Prelude.{◌≡◌, ◌<◌, ◌≤◌, None, Some, false};
ghost use Rattle.std.specs.Option.{option_map};

use crate::named_text::NamedText;
use crate::open_bytes::OpenBytes;
use crate::shelf::{Opening, Reading, Shelf};
use std::alloc::Global;

/// Texts in memory, of which no call fails.
#[derive(Drop)]
pub struct SureShelf<'a> {
    texts: &'a [NamedText],
    step: usize,
    opened: Option<OpenBytes<'a>>,
    ghost gives: { 0 < step },
}

impl<'a> SureShelf<'a> {
    ghost use Rattle.outer_world.specs.SureShelf.{step_of};

    /// A shelf that holds these texts and gives at most `step` bytes a read.
    pub fn of(texts: &'a [NamedText], step: usize) -> SureShelf<'a>
        requires { 1 ≤ step }
        ensures told { ⟦<SureShelf<'a> as Shelf>⟧.told result ≡ Some texts.now }
        ensures open_name { ⟦<SureShelf<'a> as Shelf>⟧.open_name result ≡ None }
        ensures step { step_of result ≡ step }
    {
        SureShelf {
            texts,
            step,
            opened: None,
        }
    }
}

impl<'a> Shelf for SureShelf<'a> {
    ghost told = { λ s. Some s.texts.now };

    ghost left = { λ s. option_map (λ o. o.rest.now) s.opened };

    ghost open_name = { λ s. option_map (λ o. o.name) s.opened };

    ghost faults = { λ _. 0 };

    ghost last_fault = { λ _. None };

    ghost last_count = { None };

    ghost takes_memory = { false };

    fn open(&mut self, _alloc: Global, name: &str) -> Opening {
        self.opened = OpenBytes::of(self.texts, name);
        if self.opened.is_some() {
            Opening::Opened
        } else {
            Opening::Absent
        }
    }

    fn read(&mut self, piece: &mut [u8]) -> Reading {
        match &mut self.opened {
            Some(opened) => opened.read(self.step, piece),
            None => Reading::End,
        }
    }
}
