ghost use Rattle.std.specs.Prelude.{◌≡◌, ℕ, ◌*◌, ◌^◌, ◌<◌, ◌≤◌, length};
ghost use Rattle.rate_matrix.specs.Bands.{entry};
ghost use Rattle.rate_matrix.specs.Elimination.{part_to};
ghost use Rattle.busy_words.specs.Algebra.{total_ends};
ghost use Rattle.rate_matrix.specs.Rows.{part_in};

use crate::row::Row;
use fixed_interval::{Iv, Wide};
use rate_matrix::RateMatrix;

/// Puts into the row, for each state before this one, the part of the way out of this one that goes there.
pub(crate) fn fill_parts(m: &RateMatrix, state: usize, scratch: &mut Row)
    requires state { state < m.now.size }
    requires room { state ≤ length scratch.old }
    ensures row { length scratch.new ≡ length scratch.old }
    ensures parts { (j : ℕ) → j < state → part_in scratch.new j ≡ part_to (entry m.now) state j }
{
    let all = m.total_leaving(state);
    for j in 0..state {
        let part = part_of(m, state, j, all);
        scratch.put(j, part);
    }
}

fn part_of(m: &RateMatrix, state: usize, j: usize, all: Wide) -> Iv
    requires state { state < m.now.size }
    requires before { j < state }
    requires all { all ≡ total_ends state (entry m.now state) }
    requires in_range { all.hi ≤ state * 2 ^ 62 }
    ensures { result ≡ part_to (entry m.now) state j }
{
    let _size = m.size();
    let entry = m.entry(state, j).wide();
    entry.part_of(Wide::new(all.lo() - entry.lo(), all.hi() - entry.hi()))
}
