ghost use Rattle.std.specs.Prelude.{◌≡◌, ◌≢◌, ℕ, ◌+◌, ◌*◌, ◌^◌, ◌<◌, ◌≤◌, false, IfOk, length, replicate, slice_set};
ghost use Rattle.fixed_interval.specs.Ends.{exact_ends};
ghost use Rattle.hyper_model.specs.Tables.{between_states};
ghost use Rattle.rate_matrix.specs.Bands.{HasColumn, HasRow, HasSameShape, band_entry, cell_of, has_column, place_in};
ghost use Rattle.rate_matrix.specs.Elimination.{outflow_of};
ghost use Rattle.rate_matrix.specs.Rows.{CanUpdate, IsUpdated, rows_before};

use crate::chain::Chain;
use crate::gate::Gate;
use crate::rows::Elimination;
use fixed_interval::Iv;
use std::alloc::{AllocError, Global};
use std::marker::Model;
use std::thread::Threads;

/// The rows of the states from `first` on, and of each row the columns from `left` on.
#[derive(Debug, Drop)]
pub(crate) struct Band {
    first: usize,
    rows: usize,
    left: usize,
    width: usize,
    cells: Vec<Iv>,
}

impl Model for Band {
    ghost use Rattle.std.specs.Prelude.{◌≡◌, ◌+◌, ◌*◌, ◌≤◌, length};
    ghost use Rattle.rate_matrix.specs.Bands.{BandOfRows};

    ghost Value = { BandOfRows };

    ghost view = { λ a. record { first = a.first; rows = a.rows; left = a.left; width = a.width; cells = a.cells.items } };

    ghost invariant = { λ a. (length a.cells.items ≡ a.rows * a.width) × (a.first + a.rows ≤ 4096) × (a.left + a.width ≤ 4096) };
}

impl Band {
    /// A band in which each entry is 0.
    pub(crate) fn zeros(
        alloc: Global,
        first: usize,
        rows: usize,
        left: usize,
        width: usize,
    ) -> Result<Self, AllocError>
        requires rows { first + rows ≤ 4096 }
        requires columns { left + width ≤ 4096 }
        ensures { IfOk result (λ band. band ≡ record {
          first = first;
          rows = rows;
          left = left;
          width = width;
          cells = replicate (rows * width) (exact_ends 0);
        }) }
    {
        Ok(Band {
            first,
            rows,
            left,
            width,
            cells: vec![in alloc; Iv::exact(0); rows * width]?,
        })
    }

    pub(crate) fn has_column(&self, j: usize) -> bool
        ensures { result ≡ has_column self.now j }
    {
        self.left <= j && j < self.left + self.width
    }

    /// The entry of row i and column j, which is 0 if the column is not kept.
    #[tactic(auto, unfolding(crate::specs::Bands::band_entry))]
    pub(crate) fn entry(&self, i: usize, j: usize) -> Iv
        requires { HasRow self.now i }
        ensures { result ≡ band_entry self.now i j }
    {
        if self.has_column(j) {
            self.cells[(i - self.first) * self.width + (j - self.left)]
        } else {
            Iv::exact(0)
        }
    }

    /// Puts an entry in the place of that of row i and column j.
    pub(crate) fn put(&mut self, i: usize, j: usize, value: Iv)
        requires row { HasRow self.old i }
        requires column { HasColumn self.old j }
        ensures { self.new ≡ record self.old { cells = slice_set self.old.cells (place_in self.old i j) value } }
    {
        let place = (i - self.first) * self.width + (j - self.left);
        self.cells[place] = value;
    }

    /// Puts the rates out of state i into its row, times the scale, and answers their sum.
    pub(crate) fn fill_row<C: Chain>(&mut self, chain: &C, scale: u64, i: usize) -> u64
        requires row { HasRow self.old i }
        requires state { i < C.states chain.now }
        requires columns { self.old.left + self.old.width ≤ C.states chain.now }
        requires scale { scale * C.most chain.now ≤ 2 ^ 62 }
        requires zeros { (j : ℕ) → j < C.states chain.now → has_column self.old j ≡ false
            → between_states (C.rates chain.now) i j ≡ 0 }
        ensures shape { HasSameShape self.old self.new }
        ensures count { length self.new.cells ≡ length self.old.cells }
        ensures outflow { result ≡ outflow_of (C.states chain.now) (C.rates chain.now) i }
        ensures entries { (j : ℕ) → HasColumn self.old j
            → cell_of self.new i j ≡ exact_ends (scale * between_states (C.rates chain.now) i j) }
        ensures others { (p q : ℕ) → HasRow self.old p → HasColumn self.old q → p ≢ i
            → cell_of self.new p q ≡ cell_of self.old p q }
    {
        let _size = chain.size();
        let _top = chain.top();
        let mut outflow = 0;
        for j in self.left..self.left + self.width {
            let rate = rate_between(chain, i, j);
            outflow += rate;
            self.put(i, j, Iv::exact(scale * rate));
        }
        outflow
    }

    /// Changes the rows of the states before the one that is eliminated, by so many workers.
    pub(crate) fn update<R: Threads + Sync, G: Gate + Sync>(
        &mut self,
        rt: &R,
        workers: u32,
        elimination: &Elimination<'_, G>,
    )
        requires workers { 1 ≤ workers }
        requires band { CanUpdate elimination.now self.old }
        ensures { IsUpdated elimination.now self.old self.new }
    {
        let rows = self.rows_before(elimination.state());
        if rows == 0 {
            return;
        }
        elimination.update_first(
            rt,
            workers,
            &mut self.cells,
            self.first,
            rows,
            self.left,
            self.width,
        );
    }

    /// Changes the rows of the states before the one that is eliminated, without threads.
    pub(crate) fn update_alone<G: Gate>(&mut self, elimination: &Elimination<'_, G>)
        requires band { CanUpdate elimination.now self.old }
        ensures { IsUpdated elimination.now self.old self.new }
    {
        let rows = self.rows_before(elimination.state());
        if rows == 0 {
            return;
        }
        elimination.update_first_alone(&mut self.cells, self.first, rows, self.left, self.width);
    }

    // How many rows are those of states before this one, if the band keeps its column, else 0.
    fn rows_before(&self, state: usize) -> usize
        ensures { result ≡ rows_before self.now state }
    {
        if self.has_column(state) {
            self.rows.min(state.saturating_sub(self.first))
        } else {
            0
        }
    }
}

fn rate_between<C: Chain>(chain: &C, from: usize, to: usize) -> u64
    requires from { from < C.states chain.now }
    requires to { to < C.states chain.now }
    ensures { result ≡ between_states (C.rates chain.now) from to }
{
    if from == to { 0 } else { chain.rate(from, to) }
}
