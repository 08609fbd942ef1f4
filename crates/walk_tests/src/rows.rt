//! Possible rows of small queries, with places of formulas that were reckoned apart from the program.

ghost use Rattle.std.specs.Prelude.{◌≤◌, length, All, IfOk};
ghost use Rattle.tiql_query.specs.Rows.{AreTables};
ghost use Rattle.tiql_query.specs.WellFormed.{IsWellFormed};

use base_kit::{List, Value};
use bumpalo::Bump;
use prov_fold::Fold;
use std::alloc::Global;
use std::test::Fail;
use sym_rows::{Cell, SymRow, hypo_rows, table_rows};
use tables_csv::read_table;
use tiql_check::check;
use tiql_query::Query;
use tiql_read::read_query;
use world_def::{Tables, world_columns};

const CHANGED: &str =
    "TABLE item (id INT, qty INT) KEY (id); HYPO h FROM item SET qty IN 0 .. 8; FIND;";

const SHRUNK: &str =
    "TABLE item (id INT, qty INT) KEY (id); HYPO h FROM item SET qty IN 0 .. qty DROP; FIND;";

const DROPPED: &str =
    "TABLE item (id INT, qty INT) KEY (id); HYPO h FROM item SET qty IN 0 .. qty WHERE id >= 2 DROP; FIND;";

/// The query of a text.
fn query_of(alloc: Global, text: &str) -> Result<Query, Fail>
    ensures { IfOk result (λ made. IsWellFormed made) }
{
    let bytes = text.as_bytes();
    if bytes.len() > 1000 {
        return Err(Fail::from("a long text"));
    }
    let tree = read_query(alloc, bytes)?;
    Ok(check(alloc, &tree)?)
}

/// The tables of a query of one table, of which this is the text.
fn tables_of(alloc: Global, query: &Query, text: &str) -> Result<Tables, Fail>
    ensures rows { IfOk result (λ made. AreTables query.now made) }
    ensures few { IfOk result (λ made. All (λ rows. length rows ≤ 200000) made) }
{
    let [table] = query.tables.as_slice() else {
        return Err(Fail::from("one table is wanted"));
    };
    let mut tables = List::new(alloc);
    tables.push(read_table(alloc, text.as_bytes(), table)?)?;
    Ok(tables)
}

/// The possible rows of the one hypothetical table.
fn rows_of_hypo(
    alloc: Global,
    fold: &mut Fold<'_>,
    query: &str,
    table: &str,
) -> Result<List<SymRow>, Fail> {
    let query = query_of(alloc, query)?;
    let tables = tables_of(alloc, &query, table)?;
    if query.hypos.len() != 1 {
        return Err(Fail::from("one hypothetical table is wanted"));
    }
    let columns = world_columns(alloc, &query, &tables)?;
    Ok(hypo_rows(alloc, fold, &query, &tables, &columns, 0)?)
}

/// The row in a place as its presence and its cells: a number is its place, and a value the value with 1000 more.
fn spelled(alloc: Global, rows: &List<SymRow>, at: usize) -> Result<Vec<i64>, Fail> {
    let Some(row) = rows.as_slice().get(at) else {
        return Err(Fail::from("no such row"));
    };
    let mut made = Vec::new(alloc);
    made.push(i64::from(row.presence))?;
    for cell in row.cells.as_slice() {
        match cell {
            Cell::Number(id) => made.push(i64::from(*id))?,
            Cell::Fixed(Value::Int(number)) => made.push(number.saturating_add(1000))?,
            Cell::Fixed(Value::Text(_)) => made.push(-1)?,
        }
    }
    Ok(made)
}

#[test]
fn rows_of_a_table(rt: HostRuntime) -> Result<(), Fail> {
    let alloc = rt.alloc();
    let query = query_of(alloc, CHANGED)?;
    let tables = tables_of(alloc, &query, "id,qty\n1,5\n2,7\n")?;
    let [table] = tables.as_slice() else {
        return Err(Fail::from("one table is wanted"));
    };
    let rows = table_rows(alloc, table)?;
    assert_eq!(rt; rows.len(), 2);
    let last = spelled(alloc, &rows, 1)?;
    assert_eq!(rt; last.as_slice(), [1, 1002, 1007].as_slice());
    Ok(())
}

#[test]
fn rows_with_a_choice_each(rt: HostRuntime) -> Result<(), Fail> {
    let alloc = rt.alloc();
    let arena = Bump::new(alloc);
    let mut fold = Fold::start(alloc, &arena)?;
    let rows = rows_of_hypo(alloc, &mut fold, CHANGED, "id,qty\n1,5\n2,7\n3,4\n")?;
    assert_eq!(rt; fold.prov().len(), 8);
    let first = spelled(alloc, &rows, 0)?;
    assert_eq!(rt; first.as_slice(), [1, 1001, 3].as_slice());
    let last = spelled(alloc, &rows, 2)?;
    assert_eq!(rt; last.as_slice(), [1, 1003, 7].as_slice());
    Ok(())
}

#[test]
fn rows_that_may_be_left_out(rt: HostRuntime) -> Result<(), Fail> {
    let alloc = rt.alloc();
    let arena = Bump::new(alloc);
    let mut fold = Fold::start(alloc, &arena)?;
    let rows = rows_of_hypo(alloc, &mut fold, DROPPED, "id,qty\n1,5\n2,7\n")?;
    assert_eq!(rt; fold.prov().len(), 6);
    let first = spelled(alloc, &rows, 0)?;
    assert_eq!(rt; first.as_slice(), [1, 1001, 2].as_slice());
    let second = spelled(alloc, &rows, 1)?;
    assert_eq!(rt; second.as_slice(), [3, 1002, 5].as_slice());
    Ok(())
}

#[test]
fn each_row_may_be_left_out(rt: HostRuntime) -> Result<(), Fail> {
    let alloc = rt.alloc();
    let arena = Bump::new(alloc);
    let mut fold = Fold::start(alloc, &arena)?;
    let rows = rows_of_hypo(alloc, &mut fold, SHRUNK, "id,qty\n1,5\n2,7\n")?;
    assert_eq!(rt; fold.prov().len(), 8);
    let first = spelled(alloc, &rows, 0)?;
    assert_eq!(rt; first.as_slice(), [2, 1001, 4].as_slice());
    let second = spelled(alloc, &rows, 1)?;
    assert_eq!(rt; second.as_slice(), [5, 1002, 7].as_slice());
    Ok(())
}
