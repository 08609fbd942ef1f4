//! Worlds row by row: which are possible, and which numbers they have.

ghost use Rattle.std.specs.Prelude.{◌≡◌, ◌≤◌, ◌<◌, ◌&&◌, ◌↔◌, length, All, map, None, Ok, Option, option_map, IfSome, is_none, slice_get};
ghost use Rattle.std.specs.List.{list_any};
ghost use Rattle.world_def.specs.Columns.{IsSmall, columns_of};
ghost use Rattle.world_def.specs.Meaning.{IsFirstWrong, IsPossible};
ghost use Rattle.world_def.specs.Worlds as spec;

use crate::columns::{Tables, rows_of};
use crate::part::{behind, head};
use crate::world::{World, WorldTable};
use base_kit::{List, Row, Value};
use std::cmp::Ordering;
use tiql_query::{QHypo, Query, WorldColumn};

/// Whether a world is possible: `None`, or the number of the first hypothetical table that is not, from 0 (docs/MEANING.md,
/// "Possible worlds"). Where all of them are, but the world has more tables, the number is that of the first table too many.
///
/// The columns are those of `world_columns` for the same query and tables. For any others `walk` says what is told.
pub fn is_possible(
    query: &Query,
    tables: &Tables,
    columns: &List<WorldColumn>,
    world: &World,
) -> Option<u32>
    requires { IsSmall query.now tables.now }
    ensures possible { columns_of query.now tables.now ≡ Ok columns.now → (result ≡ None) ↔ IsPossible query.now tables.now world.now }
    ensures first { columns_of query.now tables.now ≡ Ok columns.now → IfSome result (IsFirstWrong query.now tables.now world.now) }
    ensures walk { result ≡ spec.first_impossible tables.now world.now.tables 0 query.now.hypos columns.now }
{
    first_impossible(
        query.hypos.as_slice(),
        tables,
        columns.as_slice(),
        world.tables.as_slice(),
    )
}

fn first_impossible(
    hypos: &[QHypo],
    tables: &Tables,
    columns: &[WorldColumn],
    world: &[WorldTable],
) -> Option<u32>
    requires hypos { length hypos.now < 4294967296 }
    requires rows { All (λ rows. length rows ≤ 200000) tables.now }
    ensures { result ≡ spec.first_impossible tables.now world.now 0 hypos.now columns.now }
{
    let mut from: usize = 0;
    for (at, hypo) in hypos.iter().enumerate() {
        let rest = behind(columns, from);
        let end = leading_hypo(rest, at as u32);
        let mine = head(rest, end);
        let bases = rows_of(tables, hypo.table);
        if !is_possible_table(bases, mine, table_of(world, at as u32)) {
            return Some(at as u32);
        }
        from += end;
    }
    surplus(world, hypos.len() as u32)
}

/// The number of the first table of a world behind so many, if there is one.
fn surplus(world: &[WorldTable], number: u32) -> Option<u32>
    ensures { result ≡ spec.surplus world.now number }
{
    if world.len() > number as usize {
        Some(number)
    } else {
        None
    }
}

/// The table of a hypothetical table in a world.
pub fn table_of(world: &[WorldTable], hypo: u32) -> Option<&WorldTable>
    ensures { option_map (λ t. t.now) result ≡ slice_get world.now hypo }
{
    world.get(hypo as usize)
}

/// How many columns at the head are of a hypothetical table.
pub fn leading_hypo(columns: &[WorldColumn], hypo: u32) -> usize
    ensures value { result ≡ spec.leading (spec.of_hypo hypo) columns.now }
    ensures room { result ≤ length columns.now }
{
    for (at, column) in columns.iter().enumerate() {
        if column.hypo != hypo {
            return at;
        }
    }
    columns.len()
}

/// How many columns at the head are of a row.
pub fn leading_row(columns: &[WorldColumn], row: u32) -> usize
    ensures value { result ≡ spec.leading (spec.of_row row) columns.now }
    ensures room { result ≤ length columns.now }
{
    for (at, column) in columns.iter().enumerate() {
        if column.row != row {
            return at;
        }
    }
    columns.len()
}

/// Whether a table of a world is there and possible.
fn is_possible_table(bases: &[Row], columns: &[WorldColumn], table: Option<&WorldTable>) -> bool
    requires { length bases.now ≤ 200000 }
    ensures { result ≡ spec.table_possible bases.now columns.now (option_map (λ t. t.now) table.entry) }
{
    match table {
        None => false,
        Some(table) => are_possible_rows(
            bases,
            columns,
            table.picks.as_slice(),
            table.rows.as_slice(),
        ),
    }
}

/// Whether the rows of a world can stand in the place of the rows of the table.
fn are_possible_rows(bases: &[Row], columns: &[WorldColumn], picks: &[u32], rows: &[Row]) -> bool
    requires { length bases.now ≤ 200000 }
    ensures { result ≡ spec.rows_possible 0 bases.now columns.now picks.now rows.now }
{
    let mut from: usize = 0;
    let mut next: usize = 0;
    for (at, base) in bases.iter().enumerate() {
        let rest = behind(columns, from);
        let end = leading_row(rest, at as u32);
        let mine = head(rest, end);
        let left_picks = behind(picks, next);
        let left_rows = behind(rows, next);
        let row = standing(at as u32, left_picks, left_rows);
        if !is_possible_row(mine, base, row) {
            return false;
        }
        from += end;
        next += count_of(row);
    }
    are_none(behind(picks, next), behind(rows, next))
}

/// Whether no row of the world is left.
fn are_none(picks: &[u32], rows: &[Row]) -> bool
    ensures { result ≡ (spec.are_none picks.now && spec.are_none rows.now) }
{
    match picks {
        [] => match rows {
            [] => true,
            [_, ..] => false,
        },
        [_, ..] => false,
    }
}

/// The row of a world over a row of the table, where it is the first of those that are left.
#[tactic(auto, unfolding(crate::specs::Worlds::standing, crate::specs::Worlds::count_of))]
pub fn standing<'a>(at: u32, picks: &[u32], rows: &'a [Row]) -> Option<&'a Row>
    ensures value { option_map (λ r. r.now) result ≡ spec.standing at picks.now rows.now }
    ensures picks { spec.count_of (spec.standing at picks.now rows.now) ≤ length picks.now }
    ensures rows { spec.count_of (spec.standing at picks.now rows.now) ≤ length rows.now }
{
    match picks {
        [] => None,
        [pick, ..] => match rows {
            [] => None,
            [row, ..] => { if *pick == at { Some(row) } else { None } }
        },
    }
}

/// How many rows of a world that is.
#[tactic(auto, unfolding(crate::specs::Worlds::count_of))]
pub fn count_of(row: Option<&Row>) -> usize
    ensures { result ≡ spec.count_of (option_map (λ r. r.now) row.entry) }
{
    match row {
        None => 0,
        Some(_) => 1,
    }
}

/// Whether a row of the table may stand so in a world, or not be there.
#[tactic(auto, unfolding(crate::specs::Worlds::row_possible))]
fn is_possible_row(columns: &[WorldColumn], base: &Row, row: Option<&Row>) -> bool
    ensures { result ≡ spec.row_possible columns.now base.now (option_map (λ r. r.now) row.entry) }
{
    match row {
        None => may_go(columns),
        Some(row) => fits_row(columns, base.as_slice(), row.as_slice()),
    }
}

/// Whether there is a column of a presence.
fn may_go(columns: &[WorldColumn]) -> bool
    ensures { result ≡ list_any (λ column. is_none column.cell) columns.now }
{
    columns.iter().any(|column| column.cell.is_none())
}

/// Whether a row of a world may stand in the place of one of the table.
fn fits_row(columns: &[WorldColumn], base: &[Value], row: &[Value]) -> bool
    ensures { result ≡ spec.row_fits columns.now 0 base.now row.now }
{
    if base.len() != row.len() {
        return false;
    }
    for (place, value) in base.iter().enumerate() {
        if !fits_cell(column_at(columns, place), value, &row[place]) {
            return false;
        }
    }
    true
}

/// The column of the cell in a place, where it is set.
fn column_at(columns: &[WorldColumn], place: usize) -> Option<&WorldColumn>
    ensures { option_map (λ c. c.now) result ≡ spec.column_at columns.now place }
{
    for column in columns {
        if is_cell(place, column.cell) {
            return Some(column);
        }
    }
    None
}

fn is_cell(place: usize, cell: Option<u32>) -> bool
    ensures { result ≡ spec.is_cell place cell }
{
    match cell {
        None => false,
        Some(column) => column as usize == place,
    }
}

/// Whether a cell of a world may hold a value, beside what it holds in the table.
fn fits_cell(column: Option<&WorldColumn>, base: &Value, value: &Value) -> bool
    ensures { result ≡ spec.fits_cell (option_map (λ c. c.now) column.entry) base.now value.now }
{
    match column {
        None => base.order(value) == Ordering::Equal,
        Some(column) => is_between(column, value),
    }
}

fn is_between(column: &WorldColumn, value: &Value) -> bool
    ensures { result ≡ spec.is_between column.now value.now }
{
    match value {
        Value::Int(number) => column.lo <= *number && *number <= column.hi,
        Value::Text(_) => false,
    }
}
