ghost use Rattle.std.specs.Prelude.{◌≡◌, ◌≢◌, ℕ, ◌+◌, ◌-◌, ◌*◌, ◌/◌, ◌^◌, ◌<◌, ◌≤◌, ◌==◌, drop, length, slice_index, take, if◌then◌else◌};
ghost use Rattle.rate_matrix.specs.Elimination.{raised_entry};
ghost use Rattle.rate_matrix.specs.Rows.{AreAfter, CanEliminate, part_in, row_cap, rows_from};

use crate::gate::Gate;
use fixed_interval::Iv;
use std::marker::Model;
use std::thread;
use std::thread::Threads;

/// What the rows of a matrix need while one state is eliminated: its number, the scale and the outflows of
/// the matrix, and the parts that go to the states before it.
#[derive(Drop)]
pub(crate) struct Elimination<'a, G> {
    pub(crate) state: usize,
    pub(crate) scale: u64,
    pub(crate) outflows: &'a [u64],
    pub(crate) parts: &'a [Iv],
    pub(crate) gate: &'a G,
    pub(crate) place: usize,
}

impl<'a, G> Model for Elimination<'a, G> {
    ghost use Rattle.std.specs.Prelude.{◌≤◌};
    ghost use Rattle.rate_matrix.specs.Rows.{OneElimination};

    ghost Value = { OneElimination };

    ghost view = { λ a. record { state = a.state; scale = a.scale; outflows = a.outflows.now; parts = a.parts.now } };

    ghost invariant = { λ a. a.state ≤ 4096 };
}

impl<G> Elimination<'_, G> {
    /// The state that goes.
    pub(crate) fn state(&self) -> usize
        ensures state { result ≡ self.now.state }
        ensures most { result ≤ 4096 }
    {
        self.state
    }

    fn part(&self, j: usize) -> Iv
        requires inside { j < length self.now.parts }
        requires small { j < 4096 }
        ensures { result ≡ part_in self.now.parts j }
    {
        self.parts[j]
    }

    fn cap(&self, i: usize) -> u64
        requires row { i < length self.now.outflows }
        requires in_range { row_cap self.now i ≤ 2 ^ 62 }
        ensures { result ≡ row_cap self.now i }
    {
        self.scale * self.outflows[i]
    }
}

impl<G: Gate + Sync> Elimination<'_, G> {
    /// Changes the first rows of these, in as many chunks as there are workers. One worker starts no thread.
    pub(crate) fn update_first<R: Threads + Sync>(
        &self,
        rt: &R,
        workers: u32,
        cells: &mut [Iv],
        first: usize,
        rows: usize,
        left: usize,
        width: usize,
    )
        requires workers { 1 ≤ workers }
        requires some { 0 < rows }
        requires few { rows ≤ 4096 }
        requires narrow { width ≤ 4096 }
        requires inside { rows * width ≤ length cells.old }
        requires rows { CanEliminate self.now (rows_from first rows left width (take (rows * width) cells.old)) }
        ensures rows { AreAfter self.now (rows_from first rows left width (take (rows * width) cells.old))
            (take (rows * width) cells.new) }
        ensures rest { drop (rows * width) cells.new ≡ drop (rows * width) cells.old }
    {
        let chunk = rows.div_ceil(workers as usize);
        self.update_chunks(rt, &mut cells[..rows * width], chunk, first, left, width);
    }

    /// Changes the rows in chunks of so many, at the same time if there are several.
    pub(crate) fn update_chunks<R: Threads + Sync>(
        &self,
        rt: &R,
        rows: &mut [Iv],
        chunk: usize,
        first: usize,
        left: usize,
        width: usize,
    )
        requires rows { CanEliminate self.now (rows_from first (length rows.old / width) left width rows.old) }
        requires some { 0 < chunk }
        requires small { chunk ≤ 4096 }
        requires narrow { width ≤ 4096 }
        ensures { AreAfter self.now (rows_from first (length rows.old / width) left width rows.old) rows.new }
    {
        let _state = self.state();
        let each = move |start: usize, part: &mut [Iv]|
            requires rows { CanEliminate self.now
                (rows_from (first + start / width) (length part.now / width) left width part.now) }
            requires small { first + start / width ≤ 4096 }
            ensures { AreAfter self.entry.now
                (rows_from (first + start / width) (length part.entry.now / width) left width part.entry.now) part.exit.now }
        { self.update_rows(part, first + start / width, left, width) };
        thread::for_each_chunk_mut(rt, rows, chunk * width, &each);
    }
}

impl<G: Gate> Elimination<'_, G> {
    /// Changes the first rows of these, one after the other.
    pub(crate) fn update_first_alone(
        &self,
        cells: &mut [Iv],
        first: usize,
        rows: usize,
        left: usize,
        width: usize,
    )
        requires some { 0 < rows }
        requires few { rows ≤ 4096 }
        requires narrow { width ≤ 4096 }
        requires inside { rows * width ≤ length cells.old }
        requires rows { CanEliminate self.now (rows_from first rows left width (take (rows * width) cells.old)) }
        ensures rows { AreAfter self.now (rows_from first rows left width (take (rows * width) cells.old))
            (take (rows * width) cells.new) }
        ensures rest { drop (rows * width) cells.new ≡ drop (rows * width) cells.old }
    {
        self.update_rows(&mut cells[..rows * width], first, left, width);
    }

    /// Changes rows of `width` columns from `left` on, the first of which is that of the state `first`.
    pub(crate) fn update_rows(&self, rows: &mut [Iv], first: usize, left: usize, width: usize)
        requires { CanEliminate self.now (rows_from first (length rows.old / width) left width rows.old) }
        ensures { AreAfter self.now (rows_from first (length rows.old / width) left width rows.old) rows.new }
    {
        let _state = self.state();
        for r in 0..rows.len() / width {
            self.update_row(&mut rows[r * width..(r + 1) * width], first + r, left);
        }
    }

    fn update_row(&self, row: &mut [Iv], i: usize, left: usize)
        requires { CanEliminate self.now (rows_from i 1 left (length row.old) row.old) }
        ensures { AreAfter self.now (rows_from i 1 left (length row.old) row.old) row.new }
    {
        let last = self.state() - left;
        let into = row[last];
        if into.hi() == 0 {
            return;
        }
        let cap = self.cap(i);
        for q in 0..last {
            row[q] = self.new_entry(i, left + q, row[q], into, cap);
        }
    }

    // The entry from state i to state j, which goes past the gate only if something is added to it.
    fn new_entry(&self, i: usize, j: usize, old: Iv, into: Iv, cap: u64) -> Iv
        requires cap { cap ≤ 2 ^ 62 }
        requires part { j < length self.now.parts }
        requires small { j < 4096 }
        requires ordered { i ≢ j → old.lo ≤ old.hi }
        requires capped { i ≢ j → old.hi ≤ cap }
        requires into { into.lo ≤ into.hi }
        ensures ordered { i ≢ j → result.lo ≤ result.hi }
        ensures entry { result ≡ (if i == j then old else raised_entry old into (part_in self.now.parts j) cap) }
    {
        let part = self.part(j);
        if i == j || part.hi() == 0 {
            return old;
        }
        self.gate.cell(self.place, i, old, into, part, cap)
    }
}
