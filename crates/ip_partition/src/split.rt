//! Splitting a grid into its parts.
ghost use Rattle.std.specs.Prelude.{◌≡◌, ℕ, ◌+◌, ◌<◌, ◌≤◌, ◌^◌, [], ◌∷◌, ◌++◌, length, All, Contains, IfOk, OnOk, replicate};
ghost use Rattle.std.specs.List.Sorted.{IsStrictlyIncreasing};
ghost use Rattle.ip_partition.specs.Linked.{IsLive};
ghost use Rattle.ip_partition.specs.Parts.{AreParts};
ghost use Rattle.ip_partition.specs.Spreading.{part_of, row_part};
ghost use Rattle.ip_partition.specs.Filling.{no_part, ColumnsAdded, RowsAdded};

use crate::PartCols;
use crate::labels::label_columns;
use crate::sizes::{columns_end, rows_end};
use base_kit::{List, Memory};
use cross_links::Grid;
use std::alloc::Global;

/// The parts of a grid's columns: the classes of columns that live rows link, in order of their least columns, each with its
/// live rows. `columns` rises, has columns of the grid, and has each column with a live entry. `Err` is want of memory. It
/// takes time for each live entry once (docs/REDUCTION.md).
pub fn parts(alloc: Global, grid: &Grid, columns: &List<u32>) -> Result<List<PartCols>, Memory>
    requires rising { IsStrictlyIncreasing columns.now }
    requires within { All (λ column. column < grid.now.columns) columns.now }
    requires live { (row column : ℕ) → IsLive grid.now row column → Contains columns.now column }
    ensures { IfOk result (AreParts grid.now columns.now) }
{
    let columns = columns.as_slice();
    let rows_end = rows_end(grid, columns);
    let labels = label_columns(alloc, grid, columns, columns_end(columns), rows_end)?;
    let mut parts = no_parts(alloc, labels.count)?;
    add_columns(parts.as_mut_slice(), labels.parts.as_slice(), columns)?;
    add_rows(
        parts.as_mut_slice(),
        labels.parts.as_slice(),
        grid,
        rows_end,
    )?;
    Ok(List::from_vec(parts))
}

/// So many parts without columns and rows.
fn no_parts(alloc: Global, count: usize) -> Result<Vec<PartCols>, Memory>
    ensures { IfOk result (λ parts. parts.items ≡ replicate count no_part) }
{
    let mut parts = Vec::with_capacity(alloc, count)?;
    for _ in 0..count {
        parts.push(PartCols {
            columns: List::new(alloc),
            rows: List::new(alloc),
        })?;
    }
    Ok(parts)
}

/// Adds columns to their parts.
fn add_columns(parts: &mut [PartCols], labels: &[usize], columns: &[u32]) -> Result<(), Memory>
    requires within { All (λ column. column < length labels.now) columns.now }
    requires labelled { All (λ column. (0 < part_of labels.now column) × (part_of labels.now column ≤ length parts.old)) columns.now }
    ensures { OnOk result (ColumnsAdded (part_of labels.now) columns.now parts.old parts.new) }
{
    for column in columns {
        add_column(&mut parts[labels[*column as usize] - 1], *column)?;
    }
    Ok(())
}

/// Adds a column to a part.
fn add_column(part: &mut PartCols, column: u32) -> Result<(), Memory>
    ensures { OnOk result (part.new ≡ record part.old { columns = part.old.columns ++ column ∷ [] }) }
{
    part.columns.push(column)?;
    Ok(())
}

/// Adds the live rows below an end to the parts of their columns.
fn add_rows(parts: &mut [PartCols], labels: &[usize], grid: &Grid, end: usize) -> Result<(), Memory>
    requires within { end ≤ grid.now.rows }
    requires small { end ≤ 2 ^ 32 }
    requires room { (row column : ℕ) → IsLive grid.now row column → column < length labels.now }
    requires labelled { (column : ℕ) → part_of labels.now column ≤ length parts.old }
    ensures { OnOk result (RowsAdded (row_part grid.now labels.now) end parts.old parts.new) }
{
    for row in 0..end {
        let label = label_of_row(grid, labels, row as u32);
        if label != 0 {
            add_row(&mut parts[label - 1], row as u32)?;
        }
    }
    Ok(())
}

/// The part of a row's first live column, or 0 where it has none.
fn label_of_row(grid: &Grid, labels: &[usize], row: u32) -> usize
    requires within { row < grid.now.rows }
    requires room { (row column : ℕ) → IsLive grid.now row column → column < length labels.now }
    ensures { result ≡ row_part grid.now labels.now row }
{
    let mut walk = grid.row(row);
    match walk.next() {
        Some(column) => labels[column as usize],
        None => 0,
    }
}

/// Adds a row to a part.
fn add_row(part: &mut PartCols, row: u32) -> Result<(), Memory>
    ensures { OnOk result (part.new ≡ record part.old { rows = part.old.rows ++ row ∷ [] }) }
{
    part.rows.push(row)?;
    Ok(())
}
