ghost use Rattle.std.specs.Prelude.{◌≡◌, ◌<◌, ◌↔◌, ℕ, List, IsTrue, length};
ghost use Rattle.hyper_model.specs.Acceptance.{HaveOwnNames, IsNamedBefore, name_at};

use crate::{Atom, Bounded, Name, Unit};

/// What has a name: a unit or an atom.
pub trait HasName {
    ghost name_of: { Self → List ℕ };

    /// Its name.
    fn name(&self) -> &Name
        ensures { result.now ≡ name_of self.now };
}

impl HasName for Unit {
    ghost name_of = { λ unit. unit.name };

    fn name(&self) -> &Name {
        &self.name
    }
}

impl HasName for Atom {
    ghost name_of = { λ atom. atom.name };

    fn name(&self) -> &Name {
        &self.name
    }
}

/// Whether no two of them have the same name.
pub(crate) fn have_own_names<T: HasName + Drop, const MOST: usize>(
    things: &Bounded<T, MOST>,
) -> bool
    ensures { IsTrue result ↔ HaveOwnNames (length things.now) (name_at T.name_of things.now) }
{
    for n in 0..things.len() {
        if is_named_before(things, n) {
            return false;
        }
    }
    true
}

fn is_named_before<T: HasName + Drop, const MOST: usize>(
    things: &Bounded<T, MOST>,
    n: usize,
) -> bool
    requires { n < length things.now }
    ensures { IsTrue result ↔ IsNamedBefore n (name_at T.name_of things.now) }
{
    let name = things.get(n).name();
    for m in 0..n {
        if things.get(m).name() == name {
            return true;
        }
    }
    false
}
