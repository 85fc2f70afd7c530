ghost use Rattle.std.specs.Prelude.{◌≡◌, ℕ, ◌++◌, ◌<◌, All, IfOk, map};
ghost use Rattle.std.specs.List.{range_with_len};
ghost use Rattle.hyper_model.specs.Enclosures.{IsOrderedEnclosed};

use crate::Enclosed;
use std::alloc::AllocError;

/// Puts a measure for each of the first `count` places after the others, each as it is found there.
pub fn push_each<F: Fn(usize) -> Enclosed>(
    found: &mut Vec<Enclosed>,
    count: usize,
    find: F,
) -> Result<(), AllocError>
    requires ordered { All IsOrderedEnclosed found.old.items }
    requires callable { (i : ℕ) → i < count → F.pre find i }
    requires each_ordered { (i : ℕ) (e : Enclosed) → i < count → F.post find i e → IsOrderedEnclosed e }
    ensures exact { IfOk result (λ _. (each : ℕ → Enclosed)
        → ((i : ℕ) (e : Enclosed) → i < count → F.post find i e → e ≡ each i)
        → found.new.items ≡ found.old.items ++ map each (range_with_len 0 count)) }
    ensures ordered { IfOk result (λ _. All IsOrderedEnclosed found.new.items) }
{
    for place in 0..count {
        found.push(find(place))?;
    }
    Ok(())
}
