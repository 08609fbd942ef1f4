//! The pivot on the cells: first it is asked whether every cell fits, and only then anything is written.
ghost use Rattle.std.specs.Prelude.{◌≡◌, ◌≢◌, ℕ, ◌+◌, ◌*◌, ◌^◌, ◌<◌, ◌≤◌, length, pos, Option, Some, None, IsSome, MatchOption, OnOk, OnErr, IfErr};
ghost use Rattle.rat128.specs.Operations.{IsNarrow};
ghost use Rattle.dict_pivot.specs.Dictionaries as spec;
ghost use Rattle.dict_pivot.specs.Dictionaries.{IsDictionary, IsPivoted, IsFirstWide};
ghost use Rattle.dict_pivot.specs.Steps.{AreActive};
ghost use Rattle.dict_pivot.specs.Steps as steps;

use crate::cells::{change_row, fitting, wide_in_row, write_own_row};
use crate::shares::make_shares;
use rat128::Rat;

/// The first cell, row by row, of which a number would pass 2^127 - 1 in size. Rows and columns are counted from 0
/// (docs/SOLVER.md).
#[derive(Clone, Copy, Debug, PartialEq, Eq)]
pub struct WideCell {
    pub row: u32,
    pub column: u32,
}

/// The first cell that would pass, where every share is made.
fn wide_cell(
    cells: &[Rat],
    width: usize,
    height: usize,
    row: usize,
    column: usize,
    shares: &[Rat],
    active: &[usize],
) -> Option<WideCell>
    requires size { length cells.now ≡ height * width }
    requires height_small { height < 2 ^ 32 }
    requires width_small { width < 2 ^ 32 }
    requires same { length shares.now ≡ width }
    requires column { column < width }
    requires active { AreActive active.now column width shares.now }
    requires narrow { (i j : ℕ) → i < height → j < width → IsNarrow (spec.number (spec.line cells.now width i) j) }
    requires narrow_shares { (j : ℕ) → j < width → IsNarrow (spec.number shares.now j) }
    ensures { MatchOption result ((i j : ℕ) → i < height → i ≢ row → j < width → IsSome (steps.new_cell cells.now width column shares.now i j)) (λ w. (w.row < height) × (w.row ≢ row) × (w.column < width) × (steps.new_cell cells.now width column shares.now w.row w.column ≡ None) × ((l : ℕ) → l < w.column → IsSome (steps.new_cell cells.now width column shares.now w.row l)) × ((k l : ℕ) → k < w.row → k ≢ row → l < width → IsSome (steps.new_cell cells.now width column shares.now k l))) }
{
    for i in 0..height {
        if i != row {
            let start = i * width;
            if let Some(j) = wide_in_row(
                &cells[start..start + width],
                column,
                shares,
                active,
                width,
            ) {
                return Some(WideCell {
                    row: i as u32,
                    column: j as u32,
                });
            }
        }
    }
    None
}

/// Writes all rows but the pivot's.
fn write_rows(
    cells: &mut [Rat],
    width: usize,
    height: usize,
    row: usize,
    column: usize,
    shares: &[Rat],
    active: &[usize],
)
    requires size { length cells.old ≡ height * width }
    requires same { length shares.now ≡ width }
    requires row { row < height }
    requires column { column < width }
    requires active { AreActive active.now column width shares.now }
    requires narrow { (i j : ℕ) → i < height → j < width → IsNarrow (spec.number (spec.line cells.old width i) j) }
    requires narrow_shares { (j : ℕ) → j < width → IsNarrow (spec.number shares.now j) }
    requires fits { (i j : ℕ) → i < height → i ≢ row → j < width → IsSome (steps.new_cell cells.old width column shares.now i j) }
    ensures own { spec.line cells.new width row ≡ spec.line cells.old width row }
    ensures others { (i j : ℕ) → i < height → i ≢ row → j < width → steps.new_cell cells.old width column shares.now i j ≡ Some (spec.number (spec.line cells.new width i) j) }
{
    for i in 0..height {
        if i != row {
            let start = i * width;
            change_row(&mut cells[start..start + width], column, shares, active);
        }
    }
}

/// The first wide cell, where the share of column `end` is wide: every cell of that column is, so that it lies in the
/// first row, which is never the pivot's.
fn wide_on_first_row(
    row: &[Rat],
    column: usize,
    shares: &[Rat],
    active: &[usize],
    end: usize,
) -> usize
    requires same { length shares.now ≡ length row.now }
    requires column { column < length row.now }
    requires end { end ≤ length row.now }
    requires active { AreActive active.now column end shares.now }
    requires narrow { (j : ℕ) → j < length row.now → IsNarrow (spec.number row.now j) }
    requires narrow_shares { (j : ℕ) → j < end → IsNarrow (spec.number shares.now j) }
    ensures within { result ≤ end }
    ensures wide { result < end → steps.new_at row.now column shares.now result ≡ None }
    ensures before { (k : ℕ) → k < result → IsSome (steps.new_at row.now column shares.now k) }
{
    match wide_in_row(row, column, shares, active, end) {
        Some(j) => j,
        None => end,
    }
}

/// The least that the quantity of a row may be.
pub(crate) fn least_at(low: &[i64], row: usize) -> Rat
    ensures least { result ≡ spec.least_number low.now row }
    ensures narrow { IsNarrow result }
{
    fitting(lower_side(low, row))
}

/// The lower side of the column whose value the row has; 0 for any other row.
fn lower_side(low: &[i64], row: usize) -> Rat
    ensures { result ≡ spec.least_number low.now row }
{
    if row == 0 {
        return Rat::from(0);
    }
    if row > low.len() {
        return Rat::from(0);
    }
    Rat::from(low[row - 1])
}

/// The pivot on the parts of a dictionary. Where a number passes nothing of the dictionary is changed.
pub(crate) fn pivot_parts(
    cells: &mut [Rat],
    free: &mut [u32],
    low: &[i64],
    shares: &mut [Rat],
    active: &mut [usize],
    height: usize,
    width: usize,
    row: usize,
    column: usize,
) -> Result<(), WideCell>
    requires dictionary { IsDictionary (spec.seen height width cells.old free.old low.now) }
    requires shares { length shares.old ≡ width }
    requires active { length active.old ≡ width }
    requires row { (0 < row) × (row < height) }
    requires column { (0 < column) × (column < width) }
    requires cell { (spec.number (spec.line cells.old width row) column).num ≢ pos 0 }
    ensures done { OnOk result (IsPivoted (spec.seen height width cells.old free.old low.now) row column (spec.seen height width cells.new free.new low.now)) }
    ensures least { IsNarrow (spec.least_number low.now row) }
    ensures wide { IfErr result (λ w. IsFirstWide (spec.seen height width cells.old free.old low.now) row column w.row w.column) }
    ensures cells_stay { OnErr result (cells.new ≡ cells.old) }
    ensures free_stays { OnErr result (free.new ≡ free.old) }
{
    let start = row * width;
    let least = least_at(low, row);
    let made = make_shares(&cells[start..start + width], column, &least, shares, active);
    let active = &active[..made.count];
    if made.end < width {
        let first = wide_on_first_row(&cells[..width], column, shares, active, made.end);
        return Err(WideCell {
            row: 0,
            column: first as u32,
        });
    }
    if let Some(wide) = wide_cell(cells, width, height, row, column, shares, active) {
        return Err(wide);
    }
    write_rows(cells, width, height, row, column, shares, active);
    write_own_row(&mut cells[start..start + width], column, &least);
    free[column] = row as u32;
    Ok(())
}
