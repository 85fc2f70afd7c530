ghost use Rattle.std.specs.Prelude.{◌≡◌, ◌<◌, [], ◌∷◌, ◌++◌, false, length, is_some, IfSome, OnErr, OnOk};
ghost use Rattle.atom_table.specs.Names.{is_among, place_of};

use hyper_model::Name;
use indexmap::IndexSet;
use std::alloc::{AllocError, Global};
use std::marker::Model;

/// Names in a row, no two of them equal, whose places are looked up by their hashes.
#[derive(Drop)]
pub struct NameIndex {
    names: IndexSet<Name>,
}

impl Model for NameIndex {
    ghost use Rattle.std.specs.Prelude.{ℕ, List};

    ghost Value = { List (List ℕ) };

    ghost view = { λ a. a.names.keys };
}

impl NameIndex {
    /// No names.
    pub fn new(alloc: Global) -> NameIndex
        ensures { result ≡ [] }
    {
        NameIndex {
            names: IndexSet::new(alloc),
        }
    }

    /// Puts a name after the others.
    pub fn push(&mut self, name: Name) -> Result<(), AllocError>
        requires { is_among self.old name ≡ false }
        ensures ok { OnOk result (self.new ≡ self.old ++ name ∷ []) }
        ensures err { OnErr result (self.new ≡ self.old) }
    {
        self.names.insert(name)?;
        Ok(())
    }

    /// Whether the name is there.
    pub fn contains(&self, name: &Name) -> bool
        ensures { result ≡ is_among self.now name.now }
    {
        self.names.contains(name)
    }

    /// The place of the name, counted from 0.
    pub fn place_of(&self, name: &Name) -> Option<usize>
        ensures place { result ≡ place_of self.now name.now }
        ensures known { is_some result ≡ is_among self.now name.now }
        ensures within { IfSome result (λ place. place < length self.now) }
    {
        self.names.get_index_of(name)
    }
}
