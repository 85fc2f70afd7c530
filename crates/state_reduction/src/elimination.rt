ghost use Rattle.std.specs.Prelude.{◌≡◌, ℕ, ◌-◌, ◌<◌, ◌≤◌, true, length};
ghost use Rattle.rate_matrix.specs.Bands.{entry};
ghost use Rattle.rate_matrix.specs.Elimination.{part_to};
ghost use Rattle.rate_matrix.specs.Rows.{part_in};
ghost use Rattle.state_reduction.specs.Reductions.{LosesState, MayLoseState};

use crate::parts::fill_parts;
use crate::row::Row;
use rate_matrix::{Gate, RateMatrix};
use std::thread::Threads;

/// Eliminates the last state that is alive.
///
/// What went through this state is added to the entries between the states before it; the entries from it
/// and to it stay.
pub fn step(m: &mut RateMatrix, scratch: &mut Row)
    requires ready { MayLoseState m.old.packed m.old scratch.old }
    ensures state { LosesState m.old m.new }
    ensures row { length scratch.new ≡ length scratch.old }
{
    retire_last(m, scratch);
    m.update_rows_alone(scratch.as_slice());
}

/// Does what [`step`] does, by so many workers.
pub(crate) fn step_by_workers<R: Threads + Sync, G: Gate + Sync>(
    rt: &R,
    m: &mut RateMatrix,
    scratch: &mut Row,
    workers: u32,
    gate: &G,
    place: usize,
)
    requires ready { MayLoseState true m.old scratch.old }
    requires some { 1 ≤ workers }
    requires most { workers ≤ 16 }
    ensures state { LosesState m.old m.new }
    ensures row { length scratch.new ≡ length scratch.old }
{
    retire_last(m, scratch);
    m.update_rows(rt, scratch.as_slice(), workers, gate, place);
}

/// Counts the last state that is alive as eliminated, and puts into the row the parts of the way out of it.
fn retire_last(m: &mut RateMatrix, scratch: &mut Row)
    requires alive { 2 ≤ m.old.alive }
    requires room { m.old.size ≤ length scratch.old }
    ensures most { m.old.alive ≤ m.old.size }
    ensures fewer { m.new ≡ record m.old { alive = m.old.alive - 1 } }
    ensures row { length scratch.new ≡ length scratch.old }
    ensures parts { (j : ℕ) → j < m.old.alive - 1
        → part_in scratch.new j ≡ part_to (entry m.old) (m.old.alive - 1) j }
{
    let state = m.alive() - 1;
    fill_parts(m, state, scratch);
    m.retire();
}
