ghost use Rattle.std.specs.Prelude.{◌≡◌, ℕ, List};
ghost use Rattle.std.specs.Str.{bytes_eq};

use hyper_model::Limits;
use std::marker::Model;

/// The limits that an argument says: seconds, each number greater than the one before.
#[derive(Debug, Drop)]
pub struct LimitList {
    limits: Limits,
}

impl Model for LimitList {
    ghost Value = { List ℕ };

    ghost view = { λ a. a.limits };
}

impl LimitList {
    /// A list of these limits.
    pub(crate) fn of(limits: Limits) -> LimitList
        ensures { result ≡ limits }
    {
        LimitList { limits }
    }

    /// The limits.
    pub fn limits(&self) -> &Limits
        ensures { result.now ≡ self.now }
    {
        &self.limits
    }
}

impl PartialEq for LimitList {
    ghost use Rattle.std.specs.Str.{bytes_eq};
    ghost use Rattle.std.specs.Cmp.{partial_equiv_from_equiv};
    ghost use Rattle.std.proofs.lemmas.Cmp.{nat_list_eq_equiv};

    ghost eq = { λ a b. bytes_eq a b };

    ghost laws = { partial_equiv_from_equiv nat_list_eq_equiv };

    fn eq(&self, other: &LimitList) -> bool {
        are_equal(&self.limits, &other.limits)
    }
}

impl Eq for LimitList {
    ghost use Rattle.std.proofs.lemmas.Cmp.{nat_list_eq_equiv};

    ghost laws = { nat_list_eq_equiv };
}

fn are_equal(first: &Limits, second: &Limits) -> bool
    ensures { result ≡ bytes_eq first.now second.now }
{
    if first.len() != second.len() {
        return false;
    }
    for place in 0..first.len() {
        if first.get(place) != second.get(place) {
            return false;
        }
    }
    true
}
