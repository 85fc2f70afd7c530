ghost use Rattle.std.specs.Prelude.{◌<◌};

use fixed_interval::Weights;
use rate_matrix::RateMatrix;

/// The low and the high end of an interval.
pub(crate) type Ends = (u64, u64);

/// The digest of these ends: another one, but for rare chance, if any end is another.
pub(crate) fn digest_of(all: &[Ends]) -> u64 {
    let mut digest = 0;
    for (lo, hi) in all {
        digest = digest_with(digest_with(digest, *lo), *hi);
    }
    digest
}

/// The digest of all entries between different states, row by row.
pub(crate) fn digest_of_entries(m: &RateMatrix) -> u64 {
    let mut digest = 0;
    for i in 0..m.size() {
        digest = digest_with_row(digest, m, i);
    }
    digest
}

fn digest_with_row(before: u64, m: &RateMatrix, i: usize) -> u64
    requires { i < m.now.size }
{
    let mut digest = before;
    for j in 0..m.size() {
        if i != j {
            let entry = m.entry(i, j);
            digest = digest_with(digest_with(digest, entry.lo()), entry.hi());
        }
    }
    digest
}

/// The digest of all weights of a list.
pub(crate) fn digest_of_weights(weights: &Weights) -> u64 {
    let mut digest = 0;
    for place in 0..weights.len() {
        let weight = weights.get(place);
        digest = digest_with(digest_with(digest, weight.lo()), weight.hi());
    }
    digest
}

fn digest_with(before: u64, end: u64) -> u64 {
    before
        .rotate_left(7)
        .wrapping_mul(1_000_003)
        .wrapping_add(end)
}
