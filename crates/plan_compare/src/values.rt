ghost use Rattle.std.specs.Prelude.{◌≡◌, ◌<◌, ◌≤◌, length};
ghost use Rattle.plan_compare.specs.Values as spec;

use hyper_model::{Enclosures, Measure, Value, value_in};

/// The ends that the list at this place, counted from 0, has for a measure.
pub(crate) fn value_at(found: &[Enclosures], measure: Measure, place: usize) -> Value
    requires { place < length found.now }
    ensures value { result ≡ spec.value_at found.now measure place }
    ensures ordered { result.lo ≤ result.hi }
{
    value_in(&found[place], measure)
}
