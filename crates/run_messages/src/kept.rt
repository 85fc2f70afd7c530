ghost use Rattle.outer_world.specs.declared.shelf.Opening.{Opening};

use outer_world::{Opening, Reading, Shelf};
use std::alloc::{AllocError, Global};

/// The names that a run asked for, and the first and the last text that it was given.
#[derive(Drop)]
pub struct Kept {
    names: Vec<String>,
    first: Vec<u8>,
    last: Vec<u8>,
    is_whole: bool,
}

impl Kept {
    fn none(alloc: Global) -> Kept {
        Kept {
            names: Vec::new(alloc),
            first: Vec::new(alloc),
            last: Vec::new(alloc),
            is_whole: true,
        }
    }

    fn turn_to(&mut self, alloc: Global, name: &str) {
        self.last.clear();
        if self.add_name(alloc, name).is_err() {
            self.is_whole = false;
        }
    }

    fn add_name(&mut self, alloc: Global, name: &str) -> Result<(), AllocError> {
        let name = String::from_str(alloc, name)?;
        self.names.push(name)?;
        Ok(())
    }

    fn add_bytes(&mut self, bytes: &[u8]) {
        let text = if self.names.len() > 1 {
            &mut self.last
        } else {
            &mut self.first
        };
        if text.extend_from_slice(bytes).is_err() {
            self.is_whole = false;
        }
    }

    /// The name of the plan at this place: of the only text, or of one after the study.
    pub(crate) fn name_at(&self, place: u32) -> Option<&str> {
        match self.names.as_slice() {
            [only] => Some(only.as_str()),
            names => Some(names.get(place as usize)?.as_str()),
        }
    }

    /// The name that was asked for last.
    pub(crate) fn last_name(&self) -> Option<&str> {
        Some(self.names.last()?.as_str())
    }

    /// The first text, if all was kept.
    pub(crate) fn first_text(&self) -> Option<&[u8]> {
        self.is_whole.then_some(self.first.as_slice())
    }

    /// The last text, if all was kept.
    pub(crate) fn last_text(&self) -> Option<&[u8]> {
        if self.names.len() > 1 {
            self.is_whole.then_some(self.last.as_slice())
        } else {
            self.first_text()
        }
    }
}

/// A shelf that gives what another shelf gives, and keeps what a message after the run may speak of.
///
/// Where there is no memory to keep it, the run goes on all the same.
#[derive(Drop)]
pub struct KeepingShelf<S: Shelf + Drop> {
    shelf: S,
    kept: Kept,
}

impl<S: Shelf + Drop> KeepingShelf<S> {
    /// A shelf in front of this one, with nothing kept so far.
    pub fn of(alloc: Global, shelf: S) -> KeepingShelf<S> {
        KeepingShelf {
            shelf,
            kept: Kept::none(alloc),
        }
    }

    /// What was kept.
    pub fn kept(&self) -> &Kept {
        &self.kept
    }
}

impl<S: Shelf + Drop> Shelf for KeepingShelf<S> {
    ghost told = { λ s. S.told s.shelf };

    ghost left = { λ s. S.left s.shelf };

    ghost open_name = { λ s. S.open_name s.shelf };

    ghost faults = { λ s. S.faults s.shelf };

    ghost last_fault = { λ s. S.last_fault s.shelf };

    ghost last_count = { S.last_count };

    ghost takes_memory = { S.takes_memory };

    fn open(&mut self, alloc: Global, name: &str) -> Opening {
        self.kept.turn_to(alloc, name);
        self.shelf.open(alloc, name)
    }

    fn read(&mut self, piece: &mut [u8]) -> Reading {
        let reading = self.shelf.read(piece);
        if let Reading::Got(count) = reading {
            self.kept
                .add_bytes(piece.split_at(count.min(piece.len())).0);
        }
        reading
    }
}
