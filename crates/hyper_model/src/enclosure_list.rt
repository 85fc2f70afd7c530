ghost use Rattle.std.specs.Prelude.{◌≡◌, ◌+◌, ◌<◌, ◌≤◌, ℕ, [], ◌∷◌, ◌++◌, All, length, vec_len, vec_capacity, IfOk, slice_get, IsTrue, ◌↔◌};

use crate::Enclosed;
use std::alloc::{AllocError, Global};
use std::marker::Model;

/// Measures in a row, with what was found of each: a low end is never above its high end.
#[derive(Debug, Drop)]
pub struct Enclosures {
    items: Vec<Enclosed>,
    spare: usize,
}

impl Model for Enclosures {
    ghost use Rattle.std.specs.Prelude.{◌+◌, ◌≤◌, All, vec_len, vec_capacity};
    ghost use Rattle.hyper_model.specs.Enclosures.{EnclosureList, IsOrderedEnclosed};

    ghost Value = { EnclosureList };

    ghost view = { λ a. record { items = a.items.items; spare = a.spare } };

    ghost invariant = { λ a. All IsOrderedEnclosed a.items.items × (vec_len a.items + a.spare ≤ vec_capacity a.items) };
}

impl Enclosures {
    ghost use Rattle.std.specs.Prelude.{◌≡◌, ◌+◌, ◌<◌, ◌≤◌, [], ◌∷◌, ◌++◌, length, IfOk, slice_get, IsTrue, ◌↔◌};
    ghost use Rattle.hyper_model.specs.declared.TheConstants.{MOST_ENCLOSURES};
    ghost use Rattle.hyper_model.specs.Enclosures.{IsOrderedEnclosed};

    /// An empty list with room for `n` measures.
    pub fn reserved(alloc: Global, n: usize) -> Result<Enclosures, AllocError>
        requires { n ≤ MOST_ENCLOSURES }
        ensures items { IfOk result (λ list. list.items ≡ []) }
        ensures spare { IfOk result (λ list. list.spare ≡ n) }
    {
        Ok(Enclosures {
            items: Vec::with_capacity(alloc, n)?,
            spare: n,
        })
    }

    /// Puts a measure after the others, into the room that was set aside.
    pub fn push(&mut self, item: Enclosed)
        requires room { 1 ≤ self.old.spare }
        requires ordered { IsOrderedEnclosed item }
        ensures items { self.new.items ≡ self.old.items ++ item ∷ [] }
        ensures spare { self.new.spare + 1 ≡ self.old.spare }
    {
        self.items.push_reserved(item);
        self.spare -= 1;
    }

    /// How many measures there are.
    pub fn len(&self) -> usize
        ensures { result ≡ length self.now.items }
    {
        self.items.len()
    }

    /// Whether there are none.
    pub fn is_empty(&self) -> bool
        ensures { IsTrue result ↔ (self.now.items ≡ []) }
    {
        self.items.is_empty()
    }

    /// The measure at this place, counted from 0.
    pub fn get(&self, place: usize) -> Enclosed
        requires { place < length self.now.items }
        ensures item { slice_get self.now.items place ≡ Some result }
        ensures ordered { IsOrderedEnclosed result }
    {
        self.items[place]
    }
}
