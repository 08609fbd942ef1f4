//! Reducing a program.
ghost use Rattle.std.specs.Prelude.{◌≡◌, ◌+◌, ◌<◌, ◌≤◌, ◌^◌, ◌-ℤ◌, [], length, All, FitsSigned, IfOk, OnOk};
ghost use Rattle.std.specs.Int.{w64};
ghost use Rattle.ip_rows.specs.Programs.{IsWellFormed, IsMeasured, sides_of, fixed_sum};
ghost use Rattle.ip_reduce.specs.Entries.{AreEntered};
ghost use Rattle.ip_reduce.specs.Reductions.{IsReduced, KeepsPoints};
ghost use Rattle.ip_reduce.specs.Sieves.{IsSieved};
ghost use Rattle.ip_reduce.specs.Unlinking.{IsUnlinked};

use crate::Reduced;
use crate::entries::{grid_of, open_columns};
use crate::put_in::put_in;
use crate::sieve::{Sieve, new_sieve, take_row};
use base_kit::{List, Memory};
use cross_links::Grid;
use ip_rows::{IpColumn, IpRow, Program};
use std::alloc::Global;

/// What is left of a program, once the fixed columns are put in and the rows left out that say nothing or say it again. A point
/// within the sides meets the program exactly where it meets the kept rows and no row is false. `Err` is want of memory. It
/// takes time for each term once, but for the hashing of rows (docs/REDUCTION.md).
pub fn reduce(alloc: Global, program: &Program) -> Result<Reduced, Memory>
    requires formed { IsWellFormed program.now }
    requires measured { IsMeasured program.now }
    ensures reduced { IfOk result (IsReduced program.now) }
    ensures points { IfOk result (KeepsPoints program.now) }
{
    let columns = program.columns.as_slice();
    let rows = program.rows.as_slice();
    let mut grid = grid_of(alloc, columns, rows)?;
    let sieve = sift(alloc, columns, rows, &mut grid)?;
    let Sieve {
        rows: kept,
        full,
        false_row,
        chains: _,
    } = sieve;
    Ok(Reduced {
        columns: open_columns(alloc, columns)?,
        rows: List::from_vec(kept),
        full: List::from_vec(full),
        false_row,
        grid,
    })
}

/// Puts rows through a sieve, and unlinks those from the grid that are not kept.
fn sift(
    alloc: Global,
    columns: &[IpColumn],
    rows: &[IpRow],
    grid: &mut Grid,
) -> Result<Sieve, Memory>
    requires entered { AreEntered (sides_of columns.now) rows.now }
    requires fits { All (λ (row : IpRow). FitsSigned w64 (row.least -ℤ fixed_sum (sides_of columns.now) row.terms)) rows.now }
    requires few { length rows.now < 2 ^ 31 }
    requires size { grid.old.rows ≡ length rows.now }
    requires linked { grid.old.unlinked ≡ [] }
    ensures sieved { IfOk result (λ sieve. IsSieved (sides_of columns.now) rows.now (length rows.now) sieve.rows.items sieve.full.items sieve.false_row) }
    ensures linked { IfOk result (λ sieve. IsUnlinked (length rows.now) grid.new.unlinked sieve.full.items) }
    ensures grid { OnOk result (grid.new ≡ record grid.old { unlinked = grid.new.unlinked }) }
{
    let mut sieve = new_sieve(alloc, rows.len())?;
    for (number, row) in rows.iter().enumerate() {
        let short = put_in(alloc, columns, row)?;
        let kept = take_row(&mut sieve, columns, number as u32, short)?;
        if !kept {
            grid.unlink_row(number as u32);
        }
    }
    Ok(sieve)
}
