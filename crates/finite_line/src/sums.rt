ghost use Rattle.std.specs.Prelude.{◌≡◌, ◌+◌, ◌-◌, ◌*◌, ◌^◌, ◌≤◌, length};
ghost use Rattle.fixed_interval.specs.declared.TheConstants.{MOST_WEIGHTS};
ghost use Rattle.finite_line.specs.PrintedEnds.{queued_ends, sum_of_weights};
ghost use Rattle.finite_line.specs.declared.TheConstants.{MOST_PLACES};

use fixed_interval::{Weights, Wide};

/// The sum of the first `count` weights.
pub(crate) fn sum_of_first(weights: &Weights, count: usize) -> Wide
    requires within { count ≤ length weights.now.items }
    requires few { count ≤ MOST_WEIGHTS }
    ensures sum { result ≡ sum_of_weights count weights.now.items }
    ensures most { result.hi ≤ 2 ^ 65 }
{
    let mut sum = Wide::new(0, 0);
    for place in 0..count {
        sum = sum.plus(weights.get(place).wide());
    }
    sum
}

/// The sum of the weights, each times the number of calls that wait at its place: none up to the place `full`, where all
/// units are busy, and then one more at each place.
pub(crate) fn queued_sum(weights: &Weights, full: usize) -> Wide
    requires { length weights.now.items ≤ full + 1 + MOST_PLACES }
    ensures sum { result ≡ queued_ends full weights.now.items }
    ensures most { result.hi ≤ 2 ^ 77 }
{
    let mut sum = Wide::new(0, 0);
    for place in 0..weights.len() {
        let waiting = place.saturating_sub(full) as u64;
        sum = sum.plus(weights.get(place).wide().scaled(waiting));
    }
    sum
}
