//! The dictionary of a relaxed part.
ghost use Rattle.std.specs.Prelude.{◌≡◌, ◌≢◌, ◌↔◌, ℕ, ◌<◌, ◌≤◌, slice_index, length, OnOk, OnErr, IfErr};
ghost use Rattle.rat128.specs.Operations.{IsNarrow};
ghost use Rattle.rat128.specs.Rationals.{ℚ, zero_ℚ};
ghost use Rattle.dict_pivot.specs.Tables.{IsPivot, Solves};
ghost use Rattle.dict_pivot.specs.Dictionaries.{cell_of, line, least_number, least_of, table, IsDictionary, IsPivoted, IsFirstWide};

use crate::pivot::{WideCell, least_at, pivot_parts};
use rat128::Rat;
use std::marker::Model;

/// A dictionary (docs/SOLVER.md).
#[derive(Drop)]
pub struct Dict {
    pub(crate) height: usize,
    pub(crate) width: usize,
    pub(crate) cells: Vec<Rat>,
    // The row whose quantity is free in each column; column 0 has none.
    pub(crate) free: Vec<u32>,
    // The columns' lower sides.
    pub(crate) low: Vec<i64>,
    // Room for a pivot: the shares of the columns, and the columns whose share is not 0.
    pub(crate) shares: Vec<Rat>,
    pub(crate) active: Vec<usize>,
}

impl Model for Dict {
    ghost use Rattle.std.specs.Prelude.{◌≡◌, length};
    ghost use Rattle.dict_pivot.specs.Dictionaries.{Dictionary, IsDictionary, seen, IsKept};

    ghost Value = { Dictionary };

    ghost view = { λ d. seen d.height d.width d.cells.items d.free.items d.low.items };

    ghost invariant = { λ d. IsKept d.height d.width d.cells.items d.free.items d.low.items d.shares.items d.active.items };
}

impl Dict {
    /// How many rows there are (docs/SOLVER.md).
    pub fn height(&self) -> u32
        ensures height { result ≡ self.now.height }
        ensures dictionary { IsDictionary self.now }
    {
        self.height as u32
    }

    /// How many columns there are, that of the constants among them.
    pub fn width(&self) -> u32
        ensures width { result ≡ self.now.width }
        ensures dictionary { IsDictionary self.now }
    {
        self.width as u32
    }

    /// The least that the quantity of a row may be: the lower side for a column's value, else 0.
    pub fn least(&self, row: u32) -> Rat
        ensures least { result ≡ least_number self.now.low row }
        ensures narrow { IsNarrow result }
        ensures dictionary { IsDictionary self.now }
    {
        least_at(self.low.as_slice(), row as usize)
    }

    /// The row whose quantity is free in a column (docs/SOLVER.md).
    pub fn free(&self, column: u32) -> u32
        requires some { 0 < column }
        requires column { column < self.now.width }
        ensures free { result ≡ slice_index self.now.free column }
        ensures dictionary { IsDictionary self.now }
    {
        self.free[column as usize]
    }

    /// The numbers of a row: its constant, and the factors of the free quantities.
    pub fn row(&self, row: u32) -> &[Rat]
        requires { row < self.now.height }
        ensures row { result.now ≡ line self.now.cells self.now.width row }
        ensures dictionary { IsDictionary self.now }
    {
        let start = row as usize * self.width;
        &self.cells[start..start + self.width]
    }

    /// The number at a row and a column; column 0 has the constants.
    pub fn cell(&self, row: u32, column: u32) -> Rat
        requires row { row < self.now.height }
        requires column { column < self.now.width }
        ensures cell { result ≡ cell_of self.now row column }
        ensures dictionary { IsDictionary self.now }
    {
        self.row(row)[column as usize]
    }

    /// Exchanges the quantity that is free in a column with that of a row: the column's quantity is then the row's, and
    /// all rows are written by it. The row is neither the objective's nor the column that of the constants, and their
    /// cell is not 0.
    ///
    /// The numbers are made by one operation after another (docs/SOLVER.md). Where one passes 2^127 - 1 in size the
    /// answer is the first cell, row by row, that needs it, and then nothing is changed. It takes no memory.
    pub fn pivot(&mut self, row: u32, column: u32) -> Result<(), WideCell>
        requires some_row { 0 < row }
        requires row { row < self.old.height }
        requires some_column { 0 < column }
        requires column { column < self.old.width }
        requires cell { (table self.old).cell row column ≢ zero_ℚ }
        ensures done { OnOk result (IsPivoted self.old row column self.new) }

        // These are the formulas of the exact dictionaries, and the solutions stay.
        ensures pivot { OnOk result (IsPivot (least_of self.old.low) (table self.old) row column (table self.new)) }
        ensures solutions { OnOk result ((q : ℕ → ℚ) → Solves (least_of self.old.low) (table self.old) q ↔ Solves (least_of self.old.low) (table self.new) q) }
        ensures wide { IfErr result (λ w. IsFirstWide self.old row column w.row w.column) }
        ensures unchanged { OnErr result (self.new ≡ self.old) }
        ensures dictionary { IsDictionary self.new }
    {
        pivot_parts(
            self.cells.as_mut_slice(),
            self.free.as_mut_slice(),
            self.low.as_slice(),
            self.shares.as_mut_slice(),
            self.active.as_mut_slice(),
            self.height,
            self.width,
            row as usize,
            column as usize,
        )
    }
}
