//! The possible rows of tables.

ghost use Rattle.std.specs.Prelude.{◌≡◌, map, IfOk};
ghost use Rattle.sym_rows.specs.Cells as spec;

use crate::row::{Cell, SymRow};
use base_kit::{Duplicate, List, Memory, Row};
use std::alloc::Global;

/// The place of True in every list of formulas.
pub(crate) const TRUE: u32 = 1;

/// The possible rows of a table: every row, with its values, and True that it is there (docs/FORMULAS.md, "The walk"). The error is
/// want of memory.
pub fn table_rows(alloc: Global, rows: &List<Row>) -> Result<List<SymRow>, Memory>
    ensures rows { IfOk result (λ made. made ≡ map spec.sure_row rows.now) }
{
    let mut made = List::new(alloc);
    for row in rows.as_slice() {
        made.push(sure_row(alloc, row)?)?;
    }
    Ok(made)
}

/// A row that is there in every world.
fn sure_row(alloc: Global, row: &Row) -> Result<SymRow, Memory>
    ensures { IfOk result (λ made. made ≡ spec.sure_row row.now) }
{
    let mut cells = List::new(alloc);
    for value in row.as_slice() {
        cells.push(Cell::Fixed(value.copy(alloc)?))?;
    }
    Ok(SymRow {
        presence: TRUE,
        cells,
    })
}
