ghost use Rattle.std.specs.Prelude.{◌*◌, ◌^◌, ◌≡◌, ◌≤◌};
ghost use Rattle.fixed_interval.specs.Ends.{outward_ends, ratio_ends};
ghost use Rattle.hyper_model.specs.Enclosures.{IsOrderedEnclosed};
ghost use Rattle.busy_words.specs.MeasureEnds.{measure_ends};

use fixed_interval::Iv;
use hyper_model::{Enclosed, Found, Measure};

// A measure that is a part, in millionths.
pub(crate) fn share(measure: Measure, part: Iv) -> Enclosed
    ensures exact { result ≡ measure_ends measure (outward_ends 1000000 part) }
    ensures ordered { IsOrderedEnclosed result }
{
    let (lo, hi) = part.outward(1_000_000);
    Enclosed {
        measure,
        found: Found::Ends(lo, hi),
    }
}

// A measure that is a part times `num / den`.
pub(crate) fn multiple(measure: Measure, part: Iv, num: u64, den: u64) -> Enclosed
    requires least { 1 ≤ den }
    requires most { num ≤ 2 ^ 60 }
    ensures exact { result ≡ measure_ends measure (ratio_ends part num (2 ^ 62 * den)) }
    ensures ordered { IsOrderedEnclosed result }
{
    let num = u128::from(num);
    let whole = u128::from(den) << 62;
    let lo = u128::from(part.lo()) * num / whole;
    let hi = (u128::from(part.hi()) * num).div_ceil(whole);
    Enclosed {
        measure,
        found: Found::Ends(lo as u64, hi as u64),
    }
}
