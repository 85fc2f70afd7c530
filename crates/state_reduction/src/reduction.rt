ghost use Rattle.std.specs.Prelude.{◌≡◌, ◌≤◌, false, true, length};
ghost use Rattle.state_reduction.specs.Reductions.{IsReduced, MayBeReduced};

use crate::elimination::{step, step_by_workers};
use crate::row::Row;
use rate_matrix::{Gate, RateMatrix};
use std::thread::Threads;

/// Eliminates all states but the first, the last one first, in a matrix that keeps each entry.
///
/// What is left holds every solution of the balance equations (Grassmann, Taksar and Heyman 1985). The row is
/// scratch, and no memory is taken.
pub fn reduce(m: &mut RateMatrix, scratch: &mut Row)
    requires ready { MayBeReduced false m.old scratch.old }
    ensures reduced { IsReduced m.old m.new }
    ensures row { length scratch.new ≡ length scratch.old }
{
    let _size = m.size();
    while m.alive() > 1 {
        step(m, scratch);
    }
}

/// Does what [`reduce`] does, in a packed matrix.
///
/// An entry outside of what the matrix keeps is 0 before and after, so that the same entries are left.
pub fn reduce_packed(m: &mut RateMatrix, scratch: &mut Row)
    requires ready { MayBeReduced true m.old scratch.old }
    ensures reduced { IsReduced m.old m.new }
    ensures row { length scratch.new ≡ length scratch.old }
{
    let _size = m.size();
    while m.alive() > 1 {
        step(m, scratch);
    }
}

/// Does what [`reduce_packed`] does, the rows of each elimination by 1 to 16 workers.
///
/// Each new entry is computed by the gate, which is given the place of the matrix among others. One worker
/// starts no thread. Neither the number of workers nor the gate has a part in what is left.
pub fn reduce_rows<R: Threads + Sync, G: Gate + Sync>(
    rt: &R,
    m: &mut RateMatrix,
    scratch: &mut Row,
    workers: u32,
    gate: &G,
    place: usize,
)
    requires ready { MayBeReduced true m.old scratch.old }
    requires some { 1 ≤ workers }
    requires most { workers ≤ 16 }
    ensures reduced { IsReduced m.old m.new }
    ensures row { length scratch.new ≡ length scratch.old }
{
    let _size = m.size();
    while m.alive() > 1 {
        step_by_workers(rt, m, scratch, workers, gate, place);
    }
}
