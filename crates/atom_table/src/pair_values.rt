ghost use Rattle.std.specs.Prelude.{◌≡◌, ◌<◌, ◌≤◌, [], find, if◌then◌else◌, length, not, IfOk, IfSome};
ghost use Rattle.std.specs.List.{range_with_len};
ghost use Rattle.atom_table.specs.Pairs.{is_known, pair_of, pair_table_of, with_value};

use hyper_model::{MOST_ATOMS, Table};
use std::alloc::{AllocError, Global};
use std::marker::Model;

/// A table into which the value of each pair of a row and a column is put once at most.
#[derive(Drop)]
pub struct PairValues {
    table: Table,
    known: Vec<bool>,
}

impl Model for PairValues {
    ghost use Rattle.std.specs.Prelude.{◌≡◌, ◌*◌, length};
    ghost use Rattle.atom_table.specs.Pairs.{PairTable};

    ghost Value = { PairTable };

    ghost view = { λ a. record { table = a.table; known = a.known.items } };

    ghost invariant = { λ a. length a.known.items ≡ a.table.rows * a.table.cols };
}

impl PairValues {
    /// No values, in a table of so many rows and columns.
    pub fn of(alloc: Global, rows: usize, cols: usize) -> Result<PairValues, AllocError>
        requires rows { rows ≤ MOST_ATOMS }
        requires cols { cols ≤ MOST_ATOMS }
        ensures { IfOk result (λ values. values ≡ pair_table_of rows cols []) }
    {
        Ok(PairValues {
            table: Table::of(alloc, rows, cols)?,
            known: vec![in alloc; false; rows * cols]?,
        })
    }

    /// Puts in the value of a pair, or answers false and changes nothing if the pair has one.
    pub fn put(&mut self, row: usize, col: usize, value: u32) -> bool
        requires row { row < self.old.table.rows }
        requires col { col < self.old.table.cols }
        ensures fresh { result ≡ not (is_known self.old (pair_of self.old.table.cols row col)) }
        ensures values { self.new ≡ (if result then with_value self.old (pair_of self.old.table.cols row col) value else self.old) }
    {
        let pair = row * self.table.cols() + col;
        if self.known[pair] {
            return false;
        }
        self.known[pair] = true;
        self.table.set(row, col, value);
        true
    }

    /// The number of the first pair without a value, by its row and then by its column.
    pub fn first_gap(&self) -> Option<usize>
        ensures gap { result ≡ find (λ pair. not (is_known self.now pair)) (range_with_len 0 (length self.now.known)) }
        ensures small { IfSome result (λ pair. pair < usize.MAX) }
    {
        for pair in 0..self.known.len() {
            if !self.known[pair] {
                return Some(pair);
            }
        }
        None
    }

    /// The table, with 0 for each pair without a value.
    pub fn into_table(self) -> Table
        ensures { result ≡ self.table }
    {
        self.table
    }
}
