ghost use Rattle.std.specs.Prelude.{◌≡◌, ◌≤◌, IfSome};
ghost use Rattle.hyper_model.specs.Enclosures.{IsOrderedEnclosed};
ghost use Rattle.hyper_model.specs.Values as spec;

use crate::{Enclosed, Enclosures, Found, Measure};

/// The ends between which a measure of a plan lies, in units of its last printed digit.
#[derive(Clone, Copy, Debug, PartialEq, Eq)]
pub struct Value {
    pub lo: u64,
    pub hi: u64,
}

/// The ends that a plan's list has for a measure, or 0 and 0 if the plan's line has no such measure.
pub fn value_in(list: &Enclosures, measure: Measure) -> Value
    ensures value { result ≡ spec.value_in measure list.now.items }
    ensures ordered { result.lo ≤ result.hi }
{
    for place in 0..list.len() {
        if let Some(value) = value_of(list.get(place), measure) {
            return value;
        }
    }
    Value { lo: 0, hi: 0 }
}

/// What an item says of a measure.
fn value_of(item: Enclosed, measure: Measure) -> Option<Value>
    requires { IsOrderedEnclosed item }
    ensures value { result ≡ spec.value_of measure item }
    ensures ordered { IfSome result (λ value. value.lo ≤ value.hi) }
{
    match item.found {
        Found::Ends(lo, hi) if item.measure == measure => Some(Value { lo, hi }),
        _ => None,
    }
}
