//! The possible rows of hypothetical tables.

ghost use Rattle.std.specs.Prelude.{◌≡◌, ◌≤◌, ◌<◌, ◌≤ℤ◌, ◌+◌, ◌^◌, All, IfOk, Ok, length, map, take, drop, unsigned_abs, option_map};
ghost use Rattle.prov_fold.specs.Graphs.{HasNumber, HasTruth};
ghost use Rattle.tiql_query.specs.WellFormed.{IsWellFormed};
ghost use Rattle.tiql_query.specs.Rows.{AreTables};
ghost use Rattle.world_def.specs.Columns.{IsSmall, columns_of};
ghost use Rattle.world_def.specs.Worlds.{leading, of_hypo, of_row};
ghost use Rattle.sym_rows.specs.Cells.{AreRowsOf, IsRowOf, IsCellOf, cell_in, row_in, rows_in, is_there};
ghost use Rattle.sym_rows.specs.Walks.{Makes, by_rule};
ghost use Rattle.row_values.specs.Values as value_of;
ghost use Rattle.sym_rows.specs.Hypos as spec;
ghost use Rattle.sym_rows.specs.Possible as possible;

use crate::fault::WalkFault;
use crate::making::{cell, constant, pres, truth};
use crate::part::{behind, head};
use crate::row::{Cell, SymRow};
use base_kit::{Duplicate, List, Memory, Row, Value};
use prov_fold::{Fold, Span};
use std::alloc::Global;
use tiql_query::{Column, Query, WorldColumn};
use world_def::{Tables, rows_of};

/// The possible rows of the hypothetical table with this number, from 0 (docs/FORMULAS.md, "The walk"): each row of its table, with
/// the formula of its presence where it may be left out, and the formula of its number in each unknown column. The query is well formed,
/// the tables are its tables, and the columns are its world columns over them. The faults are
/// those of the formulas that are made (docs/FORMULAS.md, "Fold rules").
pub fn hypo_rows(
    alloc: Global,
    fold: &mut Fold<'_>,
    query: &Query,
    tables: &Tables,
    columns: &List<WorldColumn>,
    hypo: u32,
) -> Result<List<SymRow>, WalkFault>
    requires there { hypo < length query.now.hypos }
    requires fit { IsWellFormed query.now }
    requires tables { AreTables query.now tables.now }
    requires small { IsSmall query.now tables.now }
    requires columns { columns_of query.now tables.now ≡ Ok columns.now }
    ensures rows { Makes (spec.hypo_rows query.now tables.now columns.now hypo fold.old) AreRowsOf (possible.AreOfWorlds query.now tables.now columns.now hypo) fold.old result fold.new }
{
    let table = &query.hypos.as_slice()[hypo as usize];
    let start = start_of(columns.as_slice(), hypo);
    let rest = behind(columns.as_slice(), start);
    let mine = head(rest, leading_hypo(rest, hypo));
    let bases = rows_of(tables, table.table);
    rows_from(alloc, fold, table.columns.as_slice(), start, bases, mine)
}

/// How many world columns are of earlier hypothetical tables.
fn start_of(columns: &[WorldColumn], hypo: u32) -> usize
    ensures value { result ≡ spec.start_of hypo columns.now }
    ensures room { result ≤ length columns.now }
{
    for (at, column) in columns.iter().enumerate() {
        if column.hypo >= hypo {
            return at;
        }
    }
    columns.len()
}

/// How many world columns at the head are of a hypothetical table.
fn leading_hypo(columns: &[WorldColumn], hypo: u32) -> usize
    ensures value { result ≡ leading (of_hypo hypo) columns.now }
    ensures room { result ≤ length columns.now }
{
    for (at, column) in columns.iter().enumerate() {
        if column.hypo != hypo {
            return at;
        }
    }
    columns.len()
}

/// How many world columns at the head are of a row.
fn leading_row(columns: &[WorldColumn], row: u32) -> usize
    ensures value { result ≡ leading (of_row row) columns.now }
    ensures room { result ≤ length columns.now }
{
    for (at, column) in columns.iter().enumerate() {
        if column.row != row {
            return at;
        }
    }
    columns.len()
}

/// The rows of a hypothetical table, whose world columns have numbers from `first` on.
fn rows_from(
    alloc: Global,
    fold: &mut Fold<'_>,
    columns: &[Column],
    first: usize,
    bases: &[Row],
    chosen: &[WorldColumn],
) -> Result<List<SymRow>, WalkFault>
    requires few { length bases.now ≤ 200000 }
    requires numbers { first + length chosen.now ≤ 20000000 }
    requires sides { All spec.HasSides chosen.now }
    ensures { Makes (spec.rows_from columns.now 0 first bases.now chosen.now fold.old) AreRowsOf (spec.AreRowsThen columns.now 0 first bases.now chosen.now) fold.old result fold.new }
{
    let mut made = List::new(alloc);
    let mut from: usize = 0;
    for (at, base) in bases.iter().enumerate() {
        let rest = behind(chosen, from);
        let end = leading_row(rest, at as u32);
        let mine = head(rest, end);
        made.push(row_of(alloc, fold, columns, (first + from) as u32, mine, base)?)?;
        from += end;
    }
    Ok(made)
}

/// A row, whose world columns have numbers from `first` on.
#[tactic(auto, unfolding(crate::specs::Hypos::row_of))]
fn row_of(
    alloc: Global,
    fold: &mut Fold<'_>,
    columns: &[Column],
    first: u32,
    chosen: &[WorldColumn],
    base: &Row,
) -> Result<SymRow, WalkFault>
    requires numbers { first + length chosen.now ≤ 20000000 }
    requires sides { All spec.HasSides chosen.now }
    ensures { Makes (spec.row_of columns.now first chosen.now base.now fold.old) IsRowOf (spec.IsRowThen columns.now first chosen.now base.now) fold.old result fold.new }
{
    let presence = presence(fold, first, chosen)?;
    let cells = cells_of(alloc, fold, columns, first, chosen, base)?;
    Ok(SymRow { presence, cells })
}

/// The truth that a row is there.
fn presence(fold: &mut Fold<'_>, first: u32, chosen: &[WorldColumn]) -> Result<u32, WalkFault>
    ensures { Makes (spec.presence first chosen.now fold.old) spec.IsPresence (spec.IsPresenceThen first chosen.now) fold.old result fold.new }
{
    if may_miss(chosen) {
        pres(fold, first)
    } else {
        Ok(truth(fold, true))
    }
}

/// Whether a row may be left out.
#[tactic(auto, unfolding(crate::specs::Hypos::may_miss))]
fn may_miss(chosen: &[WorldColumn]) -> bool
    ensures { result ≡ spec.may_miss chosen.now }
{
    match chosen {
        [] => false,
        [column, ..] => column.cell.is_none(),
    }
}

/// The cells of a row.
#[tactic(auto, unfolding(crate::specs::Hypos::cells_of))]
fn cells_of(
    alloc: Global,
    fold: &mut Fold<'_>,
    columns: &[Column],
    first: u32,
    chosen: &[WorldColumn],
    base: &Row,
) -> Result<List<Cell>, WalkFault>
    requires numbers { first + length chosen.now ≤ 20000000 }
    requires sides { All spec.HasSides chosen.now }
    ensures { Makes (spec.cells_of columns.now first chosen.now base.now fold.old) (λ g made. All (IsCellOf g) made) (spec.AreCellsThen columns.now first chosen.now base.now) fold.old result fold.new }
{
    let mut made = List::new(alloc);
    for (place, value) in base.as_slice().iter().enumerate() {
        let found = column_of(chosen, first, place);
        let unknown = is_unknown_in(columns, place);
        made.push(cell_by(alloc, fold, unknown, value, found)?)?;
    }
    Ok(made)
}

/// The world column of the cell in a place, with its number.
fn column_of(chosen: &[WorldColumn], first: u32, place: usize) -> Option<(u32, WorldColumn)>
    requires numbers { first + length chosen.now ≤ 20000000 }
    ensures { result ≡ spec.column_of place first chosen.now }
{
    for (at, column) in chosen.iter().enumerate() {
        if is_cell(*column, place) {
            return Some((first + at as u32, *column));
        }
    }
    None
}

/// Whether a world column is that of the cell in a place.
fn is_cell(column: WorldColumn, place: usize) -> bool
    ensures { result ≡ spec.is_cell_in place column }
{
    match column.cell {
        None => false,
        Some(cell) => cell as usize == place,
    }
}

/// Whether a column of a relation, by its place from 0, may differ from world to world. A place behind the last is in no column, and does not.
pub fn is_unknown_in(columns: &[Column], place: usize) -> bool
    ensures { result ≡ spec.is_unknown_in columns.now place }
{
    match columns.get(place) {
        None => false,
        Some(column) => column.unknown,
    }
}

/// A cell.
fn cell_by(
    alloc: Global,
    fold: &mut Fold<'_>,
    unknown: bool,
    value: &Value,
    found: Option<(u32, WorldColumn)>,
) -> Result<Cell, WalkFault>
    requires { spec.HasFoundSides found }
    ensures { Makes (spec.cell_by unknown value.now found fold.old) IsCellOf (spec.IsCellThen unknown value.now found) fold.old result fold.new }
{
    match found {
        None => settled(alloc, fold, unknown, value),
        Some((number, column)) => Ok(Cell::Number(cell(fold, number, sides(column))?)),
    }
}

/// A cell that has no world column.
fn settled(
    alloc: Global,
    fold: &mut Fold<'_>,
    unknown: bool,
    value: &Value,
) -> Result<Cell, WalkFault>
    ensures { Makes (spec.settled unknown value.now fold.old) IsCellOf (spec.IsCellThen unknown value.now None) fold.old result fold.new }
{
    if unknown {
        Ok(Cell::Number(constant(fold, number_in(value))?))
    } else {
        Ok(Cell::Fixed(value.copy(alloc)?))
    }
}

/// The number of a value, which has the range of the value; a text counts as 0.
pub fn number_in(value: &Value) -> i64
    ensures { result ≡ value_of.number value.now }
{
    match value {
        Value::Int(number) => *number,
        Value::Text(_) => 0,
    }
}

/// The numbers that a world column may have.
fn sides(column: WorldColumn) -> Span
    ensures { result ≡ spec.sides column }
{
    if column.droppable {
        Span {
            lo: column.lo.min(0),
            hi: column.hi.max(0),
        }
    } else {
        Span {
            lo: column.lo,
            hi: column.hi,
        }
    }
}
