//! The entries of rows at unfixed columns, and the grid of them.
ghost use Rattle.std.specs.Prelude.{◌≡◌, ◌+◌, ◌<◌, ◌^◌, ◌++◌, [], length, filter, not, IfOk, OnOk};
ghost use Rattle.std.specs.List.{range_with_len};
ghost use Rattle.ip_rows.specs.Programs.{sides_of, is_fixed};
ghost use Rattle.ip_reduce.specs.Rows.{open_terms, IsLight};
ghost use Rattle.ip_reduce.specs.Reductions.{entries_at};
ghost use Rattle.ip_reduce.specs.Entries.{AreEntered, entries_in, count_of};

use crate::put_in::is_open;
use base_kit::{List, Memory};
use cross_links::{Entry, Grid};
use ip_rows::{Coef, IpColumn, IpRow};
use std::alloc::Global;

/// The numbers of the unfixed columns.
pub(crate) fn open_columns(alloc: Global, columns: &[IpColumn]) -> Result<List<u32>, Memory>
    requires { length columns.now < 2 ^ 32 }
    ensures { IfOk result (λ made. made ≡ filter (λ column. not (is_fixed (sides_of columns.now) column)) (range_with_len 0 (length columns.now))) }
{
    let mut made = List::new(alloc);
    for column in 0..columns.len() as u32 {
        if is_open(columns, column) {
            made.push(column)?;
        }
    }
    Ok(made)
}

/// The grid of all entries of rows at unfixed columns.
pub(crate) fn grid_of(alloc: Global, columns: &[IpColumn], rows: &[IpRow]) -> Result<Grid, Memory>
    requires entered { AreEntered (sides_of columns.now) rows.now }
    requires few { count_of rows.now + length rows.now + length columns.now < 2 ^ 32 }
    ensures { IfOk result (λ grid. grid ≡ record { rows = length rows.now; columns = length columns.now; entries = entries_in (sides_of columns.now) rows.now (length rows.now); unlinked = [] }) }
{
    let entries = all_entries(alloc, columns, rows)?;
    Grid::build(
        alloc,
        rows.len() as u32,
        columns.len() as u32,
        entries.as_slice(),
    )
}

/// The entries of all rows at unfixed columns.
fn all_entries(alloc: Global, columns: &[IpColumn], rows: &[IpRow]) -> Result<Vec<Entry>, Memory>
    requires entered { AreEntered (sides_of columns.now) rows.now }
    requires few { length rows.now < 2 ^ 32 }
    ensures { IfOk result (λ made. made.items ≡ entries_in (sides_of columns.now) rows.now (length rows.now)) }
{
    let mut entries = Vec::new(alloc);
    for (number, row) in rows.iter().enumerate() {
        add_entries(columns, number as u32, row.terms.as_slice(), &mut entries)?;
    }
    Ok(entries)
}

/// Appends the entries of one row.
fn add_entries(
    columns: &[IpColumn],
    row: u32,
    terms: &[Coef],
    entries: &mut Vec<Entry>,
) -> Result<(), Memory>
    requires { IsLight (sides_of columns.now) terms.now }
    ensures { OnOk result (entries.new.items ≡ entries.old.items ++ entries_at row (open_terms (sides_of columns.now) terms.now)) }
{
    for term in terms {
        if is_open(columns, term.column) {
            entries.push(Entry {
                row,
                column: term.column,
            })?;
        }
    }
    Ok(())
}
