//! The values by which possible rows are told apart: those that are the same in every world.

ghost use Rattle.std.specs.Prelude.{◌≡◌, map, take, All, IfOk};
ghost use Rattle.prov_fold.specs.Graphs.{node, HasNumber};
ghost use Rattle.sym_rows.specs.Cells.{AreRowsOf, IsRowOf, IsCellOf};
ghost use Rattle.sym_groups.specs.Groups as spec;

use base_kit::{Duplicate, List, Memory, Row, Value};
use prov_fold::{Fold, Part};
use std::alloc::Global;
use sym_rows::{Cell, SymRow};

/// The values of each row.
pub(crate) fn all_values(
    alloc: Global,
    fold: &Fold<'_>,
    rows: &[SymRow],
) -> Result<Vec<Row>, Memory>
    requires { AreRowsOf fold.now rows.now }
    ensures { IfOk result (λ made. made.items ≡ map (λ row. spec.values_at fold.now row.cells) rows.now) }
{
    let mut made = Vec::new(alloc);
    for row in rows {
        made.push(values_of(alloc, fold, row.cells.as_slice())?)?;
    }
    Ok(made)
}

/// So many first values of each row.
pub(crate) fn first_values(
    alloc: Global,
    fold: &Fold<'_>,
    rows: &[SymRow],
    count: usize,
) -> Result<Vec<Row>, Memory>
    requires { AreRowsOf fold.now rows.now }
    ensures { IfOk result (λ made. made.items ≡ map (λ row. spec.values_at fold.now (take count row.cells)) rows.now) }
{
    let mut made = Vec::new(alloc);
    for row in rows {
        made.push(values_of(alloc, fold, first_cells(row.cells.as_slice(), count))?)?;
    }
    Ok(made)
}

/// So many first cells, or all where there are fewer.
fn first_cells(cells: &[Cell], count: usize) -> &[Cell]
    ensures { result.now ≡ take count cells.now }
{
    match cells.get(..count) {
        Some(first) => first,
        None => cells,
    }
}

/// The values of cells.
fn values_of(alloc: Global, fold: &Fold<'_>, cells: &[Cell]) -> Result<Row, Memory>
    requires { All (IsCellOf fold.now) cells.now }
    ensures { IfOk result (λ made. made ≡ spec.values_at fold.now cells.now) }
{
    let mut made = List::new(alloc);
    for cell in cells {
        made.push(value_of(alloc, fold, cell)?)?;
    }
    Ok(made)
}

/// The value of a cell: the one that it holds, or the constant of its number.
#[tactic(auto, unfolding(crate::specs::Groups::value_at))]
fn value_of(alloc: Global, fold: &Fold<'_>, cell: &Cell) -> Result<Value, Memory>
    requires { IsCellOf fold.now cell.now }
    ensures { IfOk result (λ value. value ≡ spec.value_at fold.now cell.now) }
{
    match cell {
        Cell::Fixed(value) => value.copy(alloc),
        Cell::Number(id) => Ok(Value::Int(constant_of(fold, *id))),
    }
}

/// The constant of a number.
fn constant_of(fold: &Fold<'_>, id: u32) -> i64
    requires { HasNumber fold.now id }
    ensures { result ≡ spec.constant_by (node fold.now id) }
{
    match fold.prov().node(id) {
        Part::Lin(constant, _) => constant,
        _ => 0,
    }
}
