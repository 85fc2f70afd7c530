ghost use Rattle.std.specs.Prelude.{◌≡◌, ◌+◌, ◌<◌, ◌≤◌, ◌↔◌, List, [], ◌∷◌, ◌++◌, length, vec_len, vec_capacity, IsTrue, IfOk, slice_get};
ghost use Rattle.hyper_model.specs.BoundedLists.{spare};

use std::alloc::{AllocError, Global};
use std::marker::Model;

/// At most `MOST` items in a row, with room for all of them. Contracts see the list of the items.
#[derive(Debug, Drop)]
pub struct Bounded<T, const MOST: usize> {
    items: Vec<T>,
}

impl<T, const MOST: usize> Model for Bounded<T, MOST> {
    ghost Value = { List T };

    ghost view = { λ a. a.items.items };

    ghost invariant = { λ a. (vec_len a.items ≤ MOST) × (MOST ≤ vec_capacity a.items) };
}

impl<T: Drop, const MOST: usize> Bounded<T, MOST> {
    /// No items, with room for `MOST`.
    pub fn of(alloc: Global) -> Result<Self, AllocError>
        ensures { IfOk result (λ list. list ≡ []) }
    {
        Ok(Bounded {
            items: Vec::with_capacity(alloc, MOST)?,
        })
    }

    /// No items, with room for `n` at least: there is room for `MOST` in each list.
    pub fn reserved(alloc: Global, n: usize) -> Result<Self, AllocError>
        requires { n ≤ MOST }
        ensures empty { IfOk result (λ list. list ≡ []) }
        ensures room { IfOk result (λ list. n ≤ spare MOST list) }
    {
        Bounded::of(alloc)
    }

    /// Puts an item after the others, into the room that was set aside.
    pub fn push(&mut self, item: T)
        requires { 1 ≤ spare MOST self.old }
        ensures { self.new ≡ self.old ++ item ∷ [] }
    {
        self.items.push_reserved(item);
    }

    /// How many there are.
    pub fn len(&self) -> usize
        ensures number { result ≡ length self.now }
        ensures most { result ≤ MOST }
    {
        self.items.len()
    }

    /// Whether there are none.
    pub fn is_empty(&self) -> bool
        ensures { IsTrue result ↔ (self.now ≡ []) }
    {
        self.items.is_empty()
    }

    /// The item at this place, counted from 0.
    pub fn get(&self, place: usize) -> &T
        requires { place < length self.now }
        ensures { slice_get self.now place ≡ Some result.now }
    {
        &self.items[place]
    }
}
