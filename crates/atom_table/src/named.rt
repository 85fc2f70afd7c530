ghost use Rattle.std.specs.Prelude.{◌≡◌, ◌<◌, [], ◌∷◌, ◌++◌, false, length, map, is_some, IfOk, IfSome, OnErr, OnOk};
ghost use Rattle.atom_table.specs.Names.{is_among, place_of};

use crate::name_index::NameIndex;
use hyper_model::{Atom, Bounded, HasName, MOST_ATOMS, MOST_UNITS, Name, Unit};
use std::alloc::{AllocError, Global};
use std::marker::Model;

/// At most twelve units in a row, with names of their own.
pub(crate) type NamedUnits = Named<Unit, MOST_UNITS>;

/// At most 200 atoms in a row, with names of their own.
pub(crate) type NamedAtoms = Named<Atom, MOST_ATOMS>;

/// At most `MOST` things in a row, with names of their own.
#[derive(Drop)]
pub(crate) struct Named<T: HasName, const MOST: usize> {
    list: Bounded<T, MOST>,
    names: NameIndex,
}

impl<T: HasName, const MOST: usize> Model for Named<T, MOST> {
    ghost use Rattle.std.specs.Prelude.{◌≡◌, ◌≤◌, List, length, map};

    ghost Value = { List T };

    ghost view = { λ a. a.list };

    ghost invariant = { λ a. (a.names ≡ map T.name_of a.list) × (length a.list ≤ MOST) };
}

impl<T: HasName + Drop, const MOST: usize> Named<T, MOST> {
    /// Nothing, with room for `MOST`.
    pub(crate) fn of(alloc: Global) -> Result<Self, AllocError>
        ensures { IfOk result (λ things. things ≡ []) }
    {
        Ok(Named {
            list: Bounded::of(alloc)?,
            names: NameIndex::new(alloc),
        })
    }

    /// Puts one after the others.
    pub(crate) fn push(&mut self, alloc: Global, thing: T) -> Result<(), AllocError>
        requires room { length self.old < MOST }
        requires own_name { is_among (map T.name_of self.old) (T.name_of thing) ≡ false }
        ensures ok { OnOk result (self.new ≡ self.old ++ thing ∷ []) }
        ensures err { OnErr result (self.new ≡ self.old) }
    {
        let name = thing.name().copied(alloc)?;
        self.names.push(name)?;
        self.list.push(thing);
        Ok(())
    }

    /// Whether one has this name.
    pub(crate) fn contains(&self, name: &Name) -> bool
        ensures { result ≡ is_among (map T.name_of self.now) name.now }
    {
        self.names.contains(name)
    }

    /// The place of the one with this name, counted from 0.
    pub(crate) fn place_of(&self, name: &Name) -> Option<usize>
        ensures place { result ≡ place_of (map T.name_of self.now) name.now }
        ensures known { is_some result ≡ is_among (map T.name_of self.now) name.now }
        ensures within { IfSome result (λ place. place < length self.now) }
        ensures small { IfSome result (λ place. place < MOST) }
    {
        self.names.place_of(name)
    }

    /// How many there are.
    pub(crate) fn len(&self) -> usize
        ensures { result ≡ length self.now }
    {
        self.list.len()
    }

    /// Only the things.
    pub(crate) fn list(&self) -> &Bounded<T, MOST>
        ensures { result.now ≡ self.now }
    {
        &self.list
    }

    /// Only their names.
    pub(crate) fn names(&self) -> &NameIndex
        ensures { result.now ≡ map T.name_of self.now }
    {
        &self.names
    }

    /// The things, without the look-up of their names.
    pub(crate) fn into_list(self) -> Bounded<T, MOST>
        ensures { result ≡ self }
    {
        self.list
    }
}
