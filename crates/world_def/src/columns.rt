//! The columns of the numbers that tell worlds apart.

ghost use Rattle.std.specs.Prelude.{◌≡◌, ◌≤◌, ◌<◌, length, All, IfOk};
ghost use Rattle.world_def.specs.Columns as spec;
ghost use Rattle.world_def.specs.Meaning.{all_choices};
ghost use Rattle.world_def.specs.Turns.{turns};

use crate::fault::BoundsFault;
use base_kit::{List, Row};
use row_values::{number, truth};
use std::alloc::Global;
use tiql_query::{Cond, Expr, QBound, QHypo, Query, WorldColumn};

/// The rows of each table, in the order of the query's tables.
pub type Tables = List<List<Row>>;

/// The greatest size of a bound.
pub const MOST_BOUND: u64 = 1_000_000_000_000_000;

/// The most world columns that a query has.
pub const MOST_WORLD_COLUMNS: usize = 20_000_000;

/// The columns of the numbers that tell a query's worlds apart: by hypothetical table, row, presence, and then set columns as
/// written (docs/MEANING.md, "World columns"). The fault is the first in this order.
pub fn world_columns(
    alloc: Global,
    query: &Query,
    tables: &Tables,
) -> Result<List<WorldColumn>, BoundsFault>
    requires { spec.IsSmall query.now tables.now }
    ensures told { spec.GivesColumns (spec.columns_of query.now tables.now) result }
    ensures choices { IfOk result (λ columns. columns ≡ all_choices tables.now 0 query.now.hypos) }
{
    all_columns(alloc, query, tables)
}

#[tactic(auto, unfolding(crate::specs::Columns::columns_of))]
fn all_columns(
    alloc: Global,
    query: &Query,
    tables: &Tables,
) -> Result<List<WorldColumn>, BoundsFault>
    requires { spec.IsSmall query.now tables.now }
    ensures { spec.GivesColumns (spec.columns_of query.now tables.now) result }
{
    with_hypos(List::new(alloc), query.hypos.as_slice(), tables)
}

/// The columns of hypothetical tables, from the first on, behind those before.
fn with_hypos(
    before: List<WorldColumn>,
    hypos: &[QHypo],
    tables: &Tables,
) -> Result<List<WorldColumn>, BoundsFault>
    requires hypos { length hypos.now < 4294967296 }
    requires rows { All (λ rows. length rows ≤ 200000) tables.now }
    ensures { spec.GivesColumns (turns (spec.with_hypo tables.now) 0 hypos.now before) result }
{
    let mut made = before;
    for (at, hypo) in hypos.iter().enumerate() {
        let rows = rows_of(tables, hypo.table);
        made = with_hypo(made, at as u32, hypo, rows)?;
    }
    Ok(made)
}

/// The rows of the table with this number, and none where it is not there.
#[tactic(auto, unfolding(crate::specs::Columns::rows_of))]
pub fn rows_of(tables: &Tables, number: u32) -> &[Row]
    ensures value { result.now ≡ spec.rows_of tables.now number }
    ensures small { All (λ rows. length rows ≤ 200000) tables.now → length result.now ≤ 200000 }
{
    match tables.get(number as usize) {
        Some(rows) => rows.as_slice(),
        None => &[],
    }
}

/// The columns of a hypothetical table, behind those before.
#[tactic(auto, unfolding(crate::specs::Columns::with_hypo))]
fn with_hypo(
    before: List<WorldColumn>,
    number: u32,
    hypo: &QHypo,
    rows: &[Row],
) -> Result<List<WorldColumn>, BoundsFault>
    requires { length rows.now ≤ 200000 }
    ensures { spec.GivesColumns (turns (spec.with_row number hypo.now) 0 rows.now before) result }
{
    let mut made = before;
    for (at, row) in rows.iter().enumerate() {
        made = with_row(made, number, hypo, at as u32, row)?;
    }
    Ok(made)
}

/// The columns of a row, behind those before.
#[tactic(auto, unfolding(crate::specs::Columns::with_row))]
fn with_row(
    before: List<WorldColumn>,
    number: u32,
    hypo: &QHypo,
    at: u32,
    row: &Row,
) -> Result<List<WorldColumn>, BoundsFault>
    requires { at < 4294967295 }
    ensures { spec.GivesColumns (spec.with_row number hypo.now at row.now before) result }
{
    if !inside(number, &hypo.filter, row)? {
        return Ok(before);
    }
    let made = with_presence(before, number, hypo.droppable, at)?;
    with_cells(made, number, hypo.droppable, at, row, hypo.set.as_slice())
}

/// Whether a row of the table may change.
#[tactic(auto, unfolding(crate::specs::Columns::inside))]
fn inside(hypo: u32, filter: &Option<Cond>, row: &Row) -> Result<bool, BoundsFault>
    ensures { result ≡ spec.inside hypo filter.now row.now }
{
    match filter {
        None => Ok(true),
        Some(test) => match truth(test, &[row]) {
            Ok(inside) => Ok(inside),
            Err(wide) => Err(BoundsFault::Wide {
                hypo,
                number: wide.number,
            }),
        },
    }
}

/// The column of a row's presence, where it may be left out, behind those before.
#[tactic(auto, unfolding(crate::specs::Columns::with_presence))]
fn with_presence(
    before: List<WorldColumn>,
    hypo: u32,
    droppable: bool,
    at: u32,
) -> Result<List<WorldColumn>, BoundsFault>
    ensures { spec.GivesColumns (spec.with_presence hypo droppable at before) result }
{
    if droppable {
        let presence = WorldColumn {
            hypo,
            row: at,
            cell: None,
            droppable: true,
            lo: 0,
            hi: 1,
        };
        with_column(before, presence)
    } else {
        Ok(before)
    }
}

/// The columns of a row's set columns, behind those before.
fn with_cells(
    before: List<WorldColumn>,
    hypo: u32,
    droppable: bool,
    at: u32,
    row: &Row,
    set: &[QBound],
) -> Result<List<WorldColumn>, BoundsFault>
    requires { at < 4294967295 }
    ensures { spec.GivesColumns (turns (spec.with_cell hypo droppable at row.now) 0 set.now before) result }
{
    let mut made = before;
    for bound in set {
        made = with_cell(made, hypo, droppable, at, row, bound)?;
    }
    Ok(made)
}

/// The column of a cell, behind those before.
#[tactic(auto, unfolding(crate::specs::Columns::with_cell))]
fn with_cell(
    before: List<WorldColumn>,
    hypo: u32,
    droppable: bool,
    at: u32,
    row: &Row,
    bound: &QBound,
) -> Result<List<WorldColumn>, BoundsFault>
    requires { at < 4294967295 }
    ensures { spec.GivesColumns (spec.with_cell hypo droppable at row.now 0 bound.now before) result }
{
    let column = cell_column(hypo, droppable, at, row, bound)?;
    with_column(before, column)
}

/// The column of a cell, whose bounds are read from the row.
#[tactic(auto, unfolding(crate::specs::Columns::cell_column))]
fn cell_column(
    hypo: u32,
    droppable: bool,
    at: u32,
    row: &Row,
    bound: &QBound,
) -> Result<WorldColumn, BoundsFault>
    requires { at < 4294967295 }
    ensures { result ≡ spec.cell_column hypo droppable at row.now bound.now }
{
    let lo = bound_of(hypo, &bound.lo, row)?;
    let hi = bound_of(hypo, &bound.hi, row)?;
    if hi < lo {
        return Err(BoundsFault::EmptyBounds { hypo, row: at + 1 });
    }
    Ok(WorldColumn {
        hypo,
        row: at,
        cell: Some(bound.column),
        droppable,
        lo,
        hi,
    })
}

/// A bound over a row of the table.
#[tactic(auto, unfolding(crate::specs::Columns::bound_asked))]
fn bound_of(hypo: u32, bound: &Expr, row: &Row) -> Result<i64, BoundsFault>
    ensures { result ≡ spec.bound_asked hypo bound.now row.now }
{
    match number(bound, &[row]) {
        Ok(size) => {
            if size.unsigned_abs() > MOST_BOUND {
                Err(BoundsFault::Wide {
                    hypo,
                    number: i128::from(size),
                })
            } else {
                Ok(size)
            }
        }
        Err(wide) => Err(BoundsFault::Wide {
            hypo,
            number: wide.number,
        }),
    }
}

/// One column more, unless there are 20,000,000 already.
#[tactic(auto, unfolding(crate::specs::Columns::with_column))]
fn with_column(
    before: List<WorldColumn>,
    column: WorldColumn,
) -> Result<List<WorldColumn>, BoundsFault>
    ensures { spec.GivesColumns (spec.with_column column before) result }
{
    if before.len() >= MOST_WORLD_COLUMNS {
        return Err(BoundsFault::TooManyWorldColumns);
    }
    let mut made = before;
    made.push(column)?;
    Ok(made)
}
