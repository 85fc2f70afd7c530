ghost use Rattle.std.specs.Prelude.{◌≡◌, ◌≢◌, ◌+◌, ◌*◌, ◌<◌, ◌≤◌, ◌⊎◌, ℕ, length, vec_len, IfOk};
ghost use Rattle.hyper_model.specs.declared.TheConstants.{MOST_ATOMS};
ghost use Rattle.hyper_model.specs.Grid.{Grid, cell, zero_grid, with_cell, IsSized, SetsCell};

use std::alloc::{AllocError, Global};
use std::marker::Model;

/// A table of whole numbers, of at most 200 rows and 200 columns.
#[derive(Debug, Drop)]
pub struct Table {
    rows: usize,
    cols: usize,
    cells: Vec<u32>,
}

impl Model for Table {
    ghost Value = { Grid };

    ghost view = { λ a. record { rows = a.rows; cols = a.cols; cells = a.cells.items } };

    ghost invariant = { λ a. IsSized (record { rows = a.rows; cols = a.cols; cells = a.cells.items }) };
}

impl Table {
    /// A table of zeros.
    pub fn of(alloc: Global, rows: usize, cols: usize) -> Result<Table, AllocError>
        requires rows { rows ≤ MOST_ATOMS }
        requires cols { cols ≤ MOST_ATOMS }
        ensures { IfOk result (λ table. table ≡ zero_grid rows cols) }
    {
        let cells = vec![in alloc; 0; rows * cols]?;
        Ok(Table { rows, cols, cells })
    }

    /// The same table once more.
    pub fn copied(&self, alloc: Global) -> Result<Table, AllocError>
        ensures { IfOk result (λ table. table ≡ self.now) }
    {
        let mut cells = Vec::new(alloc);
        cells.extend_from_slice(&self.cells)?;
        Ok(Table {
            rows: self.rows,
            cols: self.cols,
            cells,
        })
    }

    /// How many rows there are.
    pub fn rows(&self) -> usize
        ensures rows { result ≡ self.now.rows }
        ensures most { result ≤ MOST_ATOMS }
    {
        self.rows
    }

    /// How many columns there are.
    pub fn cols(&self) -> usize
        ensures cols { result ≡ self.now.cols }
        ensures most { result ≤ MOST_ATOMS }
        ensures sized { IsSized self.now }
    {
        self.cols
    }

    /// The cell in this row and column, both counted from 0.
    pub fn get(&self, r: usize, c: usize) -> u32
        requires row { r < self.now.rows }
        requires col { c < self.now.cols }
        ensures { result ≡ cell self.now r c }
    {
        self.cells[r * self.cols + c]
    }

    /// Writes one cell, and leaves all others.
    pub fn set(&mut self, r: usize, c: usize, value: u32)
        requires row { r < self.old.rows }
        requires col { c < self.old.cols }
        ensures table { self.new ≡ with_cell self.old r c value }
        ensures sets { SetsCell self.old self.new r c value }
    {
        self.cells[r * self.cols + c] = value;
    }
}
