//! Two rows for each cell of a row that may be left out.

ghost use Rattle.std.specs.Prelude.{◌≡◌, ◌<◌, ◌++◌, All, IfOk, length};
ghost use Rattle.drop_rows.specs.Cells as spec;
ghost use Rattle.drop_rows.specs.Told.{AreFormed, TellsWorlds};

use base_kit::{List, Memory};
use ip_rows::{Coef, IpRow};
use std::alloc::Global;
use tiql_query::WorldColumn;

/// The rows of the world columns, by which a cell is 0 where its row is left out, and between its bounds where the row is there
/// (docs/ENCODING.md, "Cells that may be dropped"). Column j of the program is world column j. `Err` is want of memory.
pub fn cell_rows(alloc: Global, columns: &[WorldColumn]) -> Result<List<IpRow>, Memory>
    requires few { length columns.now < 4294967296 }
    requires small { All spec.HasSmallBound columns.now }
    ensures rows { IfOk result (λ rows. rows ≡ spec.cell_rows columns.now) }
    ensures formed { IfOk result (λ rows. AreFormed columns.now rows) }
    ensures tells { IfOk result (λ rows. TellsWorlds columns.now rows) }
{
    let mut rows = List::new(alloc);
    let mut presence: u32 = 0;
    for (at, column) in columns.iter().enumerate() {
        push_rows(alloc, &mut rows, presence, at as u32, column)?;
        presence = presence_at(presence, at as u32, column);
    }
    Ok(rows)
}

/// The number of the last presence, a column later.
fn presence_at(presence: u32, at: u32, column: &WorldColumn) -> u32
    ensures { result ≡ spec.presence_at presence at column.now }
{
    if column.cell.is_none() { at } else { presence }
}

/// Whether a column is a cell of a row that may be left out.
fn may_drop(column: &WorldColumn) -> bool
    ensures { result ≡ spec.may_drop column.now }
{
    column.cell.is_some() && column.droppable
}

/// The rows of a column, behind the others.
#[tactic(auto, unfolding(crate::specs::Cells::column_rows))]
fn push_rows(
    alloc: Global,
    rows: &mut List<IpRow>,
    presence: u32,
    at: u32,
    column: &WorldColumn,
) -> Result<(), Memory>
    requires { spec.HasSmallBound column.now }
    ensures { IfOk result (λ _. rows.new ≡ rows.old ++ spec.column_rows presence at column.now) }
{
    if may_drop(column) {
        rows.push(low_row(alloc, presence, at, column.lo)?)?;
        rows.push(high_row(alloc, presence, at, column.hi)?)?;
    }
    Ok(())
}

/// The row by which a cell is at least its lower bound times the presence.
fn low_row(alloc: Global, presence: u32, cell: u32, lo: i64) -> Result<IpRow, Memory>
    requires { spec.IsSmallBound lo }
    ensures { IfOk result (λ row. row ≡ spec.low_row presence cell lo) }
{
    tie(alloc, -lo, presence, 1, cell)
}

/// The row by which a cell is at most its upper bound times the presence.
fn high_row(alloc: Global, presence: u32, cell: u32, hi: i64) -> Result<IpRow, Memory>
    ensures { IfOk result (λ row. row ≡ spec.high_row presence cell hi) }
{
    tie(alloc, hi, presence, -1, cell)
}

/// The row that asks that a factor times a presence and a sign times a cell are together 0 or above.
#[tactic(auto, unfolding(crate::specs::Cells::tie))]
fn tie(alloc: Global, factor: i64, presence: u32, sign: i64, cell: u32) -> Result<IpRow, Memory>
    ensures { IfOk result (λ row. row ≡ spec.tie factor presence sign cell) }
{
    let mut terms = List::new(alloc);
    if factor != 0 {
        terms.push(Coef {
            factor,
            column: presence,
        })?;
    }
    terms.push(Coef {
        factor: sign,
        column: cell,
    })?;
    Ok(IpRow { terms, least: 0 })
}
