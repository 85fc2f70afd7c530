ghost use Rattle.std.specs.Prelude.{◌≡◌};
ghost use Rattle.hyper_model.specs.Plans.{split, IsAccepted};

use crate::{PlanParts, SHARES};

/// The factor of all rates in the balance equations: 1 if each group has one unit.
pub(crate) fn split_of(parts: &PlanParts) -> u32
    requires { IsAccepted parts.now }
    ensures { result ≡ split parts.now }
{
    for j in 0..parts.atoms.len() {
        if !parts.lists.is_single(j) {
            return SHARES;
        }
    }
    1
}
