//! The numbers that a world has, and the world that has given numbers.

ghost use Rattle.std.specs.Prelude.{◌≡◌, ◌≤◌, ◌<◌, ◌++◌, length, All, map, option_map, Ok, IfOk, OnOk, take, drop};
ghost use Rattle.world_def.specs.Columns.{IsSmall, columns_of};
ghost use Rattle.world_def.specs.Meaning as meaning;
ghost use Rattle.world_def.specs.Meaning.{IsPossible};
ghost use Rattle.world_def.specs.declared.world.World.{World};
ghost use Rattle.world_def.specs.Worlds as spec;

use crate::columns::{Tables, rows_of};
use crate::part::{behind, head};
use crate::world::{World, WorldTable};
use crate::worlds::{count_of, leading_hypo, leading_row, standing, table_of};
use base_kit::{Duplicate, List, Memory, Row, Value};
use std::alloc::Global;
use tiql_query::{QHypo, Query, WorldColumn};

/// The numbers of a world, one for each column: 1 for a row that is there and 0 for one that is not, a cell's number, and 0 in a
/// row that is not there (docs/MEANING.md, "World columns").
///
/// The world is possible, and the columns are those of `world_columns` for the same query and tables. For any others `walk` says
/// what is given.
pub fn numbers_of(
    alloc: Global,
    query: &Query,
    tables: &Tables,
    columns: &List<WorldColumn>,
    world: &World,
) -> Result<List<i64>, Memory>
    requires { IsSmall query.now tables.now }
    ensures numbers { IfOk result (λ made. columns_of query.now tables.now ≡ Ok columns.now → IsPossible query.now tables.now world.now → made ≡ meaning.numbers columns.now world.now) }
    ensures walk { IfOk result (λ made. made ≡ spec.world_numbers tables.now world.now.tables 0 query.now.hypos columns.now) }
{
    let hypos = query.hypos.as_slice();
    let columns = columns.as_slice();
    world_numbers(alloc, hypos, tables, columns, world.tables.as_slice())
}

fn world_numbers(
    alloc: Global,
    hypos: &[QHypo],
    tables: &Tables,
    columns: &[WorldColumn],
    world: &[WorldTable],
) -> Result<List<i64>, Memory>
    requires hypos { length hypos.now < 4294967296 }
    requires rows { All (λ rows. length rows ≤ 200000) tables.now }
    ensures { IfOk result (λ made. made ≡ spec.world_numbers tables.now world.now 0 hypos.now columns.now) }
{
    let mut made = List::new(alloc);
    let mut from: usize = 0;
    for (at, hypo) in hypos.iter().enumerate() {
        let rest = behind(columns, from);
        let end = leading_hypo(rest, at as u32);
        let mine = head(rest, end);
        let bases = rows_of(tables, hypo.table);
        made = with_table(made, bases, mine, table_of(world, at as u32))?;
        from += end;
    }
    Ok(made)
}

/// The numbers of a table of a world, behind those before.
fn with_table(
    before: List<i64>,
    bases: &[Row],
    columns: &[WorldColumn],
    table: Option<&WorldTable>,
) -> Result<List<i64>, Memory>
    requires { length bases.now ≤ 200000 }
    ensures { IfOk result (λ made. made ≡ before ++ spec.table_numbers bases.now columns.now (option_map (λ t. t.now) table.entry)) }
{
    match table {
        None => Ok(before),
        Some(table) => with_rows(
            before,
            bases,
            columns,
            table.picks.as_slice(),
            table.rows.as_slice(),
        ),
    }
}

/// The numbers of the rows of a world, behind those before.
fn with_rows(
    before: List<i64>,
    bases: &[Row],
    columns: &[WorldColumn],
    picks: &[u32],
    rows: &[Row],
) -> Result<List<i64>, Memory>
    requires { length bases.now ≤ 200000 }
    ensures { IfOk result (λ made. made ≡ before ++ spec.rows_numbers 0 bases.now columns.now picks.now rows.now) }
{
    let mut made = before;
    let mut from: usize = 0;
    let mut next: usize = 0;
    for (at, _base) in bases.iter().enumerate() {
        let rest = behind(columns, from);
        let end = leading_row(rest, at as u32);
        let mine = head(rest, end);
        let left_picks = behind(picks, next);
        let left_rows = behind(rows, next);
        let row = standing(at as u32, left_picks, left_rows);
        made = with_row(made, mine, row)?;
        from += end;
        next += count_of(row);
    }
    Ok(made)
}

/// The numbers of a row, behind those before.
fn with_row(
    before: List<i64>,
    columns: &[WorldColumn],
    row: Option<&Row>,
) -> Result<List<i64>, Memory>
    ensures { IfOk result (λ made. made ≡ before ++ map (spec.number_in (option_map (λ r. r.now) row.entry)) columns.now) }
{
    let mut made = before;
    for column in columns {
        made.push(number_in(row, column))?;
    }
    Ok(made)
}

/// The number of every column of a row that is not there.
const ABSENT: i64 = 0;

/// The number of a column in a row of a world.
#[tactic(auto, unfolding(crate::specs::Worlds::number_in))]
fn number_in(row: Option<&Row>, column: &WorldColumn) -> i64
    ensures { result ≡ spec.number_in (option_map (λ r. r.now) row.entry) column.now }
{
    match row {
        None => ABSENT,
        Some(row) => match column.cell {
            None => 1,
            Some(place) => match row.get(place as usize) {
                Some(Value::Int(number)) => *number,
                Some(Value::Text(_)) => 0,
                None => 0,
            },
        },
    }
}

/// The world that has these numbers. There is one at most.
///
/// They are the numbers of a possible world, and the columns are those of `world_columns` for the same query and tables. For any
/// others `walk` says what is given.
pub fn world_at(
    alloc: Global,
    query: &Query,
    tables: &Tables,
    columns: &List<WorldColumn>,
    numbers: &[i64],
) -> Result<World, Memory>
    requires small { IsSmall query.now tables.now }
    requires long { length numbers.now ≡ length columns.now }
    ensures world { IfOk result (λ made. (world : World) → columns_of query.now tables.now ≡ Ok columns.now → IsPossible query.now tables.now world → meaning.numbers columns.now world ≡ numbers.now → made ≡ world) }
    ensures walk { IfOk result (λ world. world.tables ≡ spec.tables_at tables.now 0 query.now.hypos columns.now numbers.now) }
    ensures small { IfOk result (λ world. All (λ table. length table.rows ≤ 200000) world.tables) }
{
    Ok(World {
        tables: tables_at(
            alloc,
            query.hypos.as_slice(),
            tables,
            columns.as_slice(),
            numbers,
        )?,
    })
}

fn tables_at(
    alloc: Global,
    hypos: &[QHypo],
    tables: &Tables,
    columns: &[WorldColumn],
    numbers: &[i64],
) -> Result<List<WorldTable>, Memory>
    requires hypos { length hypos.now < 4294967296 }
    requires rows { All (λ rows. length rows ≤ 200000) tables.now }
    requires long { length numbers.now ≡ length columns.now }
    ensures { IfOk result (λ made. made ≡ spec.tables_at tables.now 0 hypos.now columns.now numbers.now) }
{
    let mut made = List::new(alloc);
    let mut from: usize = 0;
    for (at, hypo) in hypos.iter().enumerate() {
        let rest = behind(columns, from);
        let later = behind(numbers, from);
        let end = leading_hypo(rest, at as u32);
        let bases = rows_of(tables, hypo.table);
        let mine = head(rest, end);
        let here = head(later, end);
        let table = table_with(alloc, bases, mine, here)?;
        made.push(table)?;
        from += end;
    }
    Ok(made)
}

/// The table of a world that has these numbers.
fn table_with(
    alloc: Global,
    bases: &[Row],
    columns: &[WorldColumn],
    numbers: &[i64],
) -> Result<WorldTable, Memory>
    requires small { length bases.now ≤ 200000 }
    requires long { length numbers.now ≡ length columns.now }
    ensures { IfOk result (λ table. table ≡ spec.rows_at 0 bases.now columns.now numbers.now) }
{
    let mut made = WorldTable {
        picks: List::new(alloc),
        rows: List::new(alloc),
    };
    let mut from: usize = 0;
    for (at, base) in bases.iter().enumerate() {
        let rest = behind(columns, from);
        let later = behind(numbers, from);
        let end = leading_row(rest, at as u32);
        let mine = head(rest, end);
        let here = head(later, end);
        let gone = is_left_out(mine, here);
        made = put_row(alloc, made, gone, at as u32, mine, here, base)?;
        from += end;
    }
    Ok(made)
}

/// Whether the number of a row's presence is 0.
#[tactic(auto, unfolding(crate::specs::Worlds::is_left_out))]
fn is_left_out(columns: &[WorldColumn], numbers: &[i64]) -> bool
    ensures { result ≡ spec.is_left_out columns.now numbers.now }
{
    match columns {
        [] => false,
        [column, ..] => match numbers {
            [] => false,
            [number, ..] => column.cell.is_none() && *number == 0,
        },
    }
}

/// The table with one row more, unless the row is left out.
fn put_row(
    alloc: Global,
    before: WorldTable,
    gone: bool,
    at: u32,
    columns: &[WorldColumn],
    numbers: &[i64],
    base: &Row,
) -> Result<WorldTable, Memory>
    requires { length numbers.now ≡ length columns.now }
    ensures picks { IfOk result (λ made. made.picks ≡ before.picks ++ (spec.one_row gone at (spec.row_with columns.now numbers.now base.now)).picks) }
    ensures rows { IfOk result (λ made. made.rows ≡ before.rows ++ (spec.one_row gone at (spec.row_with columns.now numbers.now base.now)).rows) }
{
    if gone {
        return Ok(before);
    }
    let row = row_with(alloc, columns, numbers, base)?;
    let mut made = before;
    made.picks.push(at)?;
    made.rows.push(row)?;
    Ok(made)
}

/// The row of the table with these numbers in its set cells.
fn row_with(
    alloc: Global,
    columns: &[WorldColumn],
    numbers: &[i64],
    base: &Row,
) -> Result<Row, Memory>
    requires { length numbers.now ≡ length columns.now }
    ensures { IfOk result (λ row. row ≡ spec.row_with columns.now numbers.now base.now) }
{
    let mut row = base.copy(alloc)?;
    for (at, column) in columns.iter().enumerate() {
        row = with_number(row, column, numbers[at]);
    }
    Ok(row)
}

/// The row with a number in a column's cell.
#[tactic(auto, unfolding(crate::specs::Worlds::with_number))]
fn with_number(before: Row, column: &WorldColumn, number: i64) -> Row
    ensures { result ≡ spec.with_number column.now number before }
{
    match column.cell {
        None => before,
        Some(cell) => {
            let place = cell as usize;
            let mut row = before;
            if place < row.len() {
                row.set(place, Value::Int(number));
            }
            row
        }
    }
}
