//! Worked queries over small tables, with expected values reckoned by hand.

ghost use Rattle.std.specs.Prelude.{◌≤◌, length, All, IfOk};
ghost use Rattle.tiql_query.specs.WellFormed.{IsWellFormed};

use base_kit::{Duplicate, List, Row, Value};
use row_values::{Wide, number};
use std::alloc::Global;
use std::test::Fail;
use tiql_check::check;
use tiql_query::{At, Expr, Query, Source, WorldColumn};
use tiql_read::read_query;
use world_def::{
    BoundsFault, Broken, Tables, is_possible, meets, numbers_of, score, score_met, view_rows,
    world_at, world_columns,
};
use world_points::{judge_point, sides_of};

const KEPT: &str = "TABLE item (id INT, qty INT);\n\
    HYPO h FROM item SET qty IN qty .. qty;\n\
    REQUIRE ALL h HAVE qty >= 6;\n\
    MINIMIZE SUM(qty) FROM h;";

const SHRUNK: &str = "TABLE item (id INT, qty INT);\n\
    HYPO h FROM item SET qty IN 0 .. qty;\n\
    MINIMIZE SUM(qty) FROM h;";

const DROPPED: &str = "TABLE item (id INT, qty INT) KEY (id);\n\
    HYPO h FROM item SET qty IN 2 .. 3 WHERE id >= 2 DROP;\n\
    REQUIRE SOME h HAVE qty = 3;\n\
    MINIMIZE SUM(qty) FROM h;";

const TOTAL: &str = "TABLE item (id INT, qty INT);\n\
    HYPO h FROM item SET qty IN 0 .. qty;\n\
    VIEW tot AS SELECT SUM(h.qty) AS n FROM h;\n\
    REQUIRE ALL tot HAVE n <= 8;\n\
    MAXIMIZE SUM(2 * n) FROM tot;";

/// Rows of two numbers.
fn rows_of_two(alloc: Global, numbers: &[[i64; 2]]) -> Result<List<Row>, Fail> {
    let mut rows = List::new(alloc);
    for pair in numbers {
        let mut row = List::new(alloc);
        row.push(Value::Int(pair[0]))?;
        row.push(Value::Int(pair[1]))?;
        rows.push(row)?;
    }
    Ok(rows)
}

/// The query of a text.
fn query_of(alloc: Global, text: &str) -> Result<Query, Fail>
    ensures fit { IfOk result (λ made. IsWellFormed made) }
    ensures few { IfOk result (λ made. (length made.hypos ≤ 9) × (length made.requires_ ≤ 9)) }
{
    let bytes = text.as_bytes();
    if bytes.len() > 1000 {
        return Err(Fail::from("a long text"));
    }
    let tree = read_query(alloc, bytes)?;
    let query = check(alloc, &tree)?;
    if query.hypos.len() > 9 || query.requires_.len() > 9 {
        return Err(Fail::from("a long query"));
    }
    Ok(query)
}

/// One table with these rows.
fn one_table(alloc: Global, numbers: &[[i64; 2]]) -> Result<Tables, Fail>
    ensures { IfOk result (λ made. All (λ rows. length rows ≤ 200000) made) }
{
    let rows = rows_of_two(alloc, numbers)?;
    if rows.len() > 9 {
        return Err(Fail::from("too many rows"));
    }
    let mut tables = List::new(alloc);
    tables.push(rows)?;
    Ok(tables)
}

#[test]
fn equal_bounds_leave_one_world(rt: HostRuntime) -> Result<(), Fail> {
    let alloc = rt.alloc();
    let query = query_of(alloc, KEPT)?;
    let tables = one_table(alloc, &[[1, 5], [2, 7]])?;
    let columns = world_columns(alloc, &query, &tables)?;
    let cell = |row: u32, number: i64| WorldColumn {
        hypo: 0,
        row,
        cell: Some(1),
        droppable: false,
        lo: number,
        hi: number,
    };
    assert_eq!(rt; columns.as_slice(), [cell(0, 5), cell(1, 7)].as_slice());
    assert_eq!(rt; columns.len(), 2);
    let world = world_at(alloc, &query, &tables, &columns, &[5, 7])?;
    assert_eq!(rt; is_possible(&query, &tables, &columns, &world), None);
    let broken = Broken {
        requirement: 1,
        row: 1,
    };
    assert_eq!(rt; meets(alloc, &query, &tables, &world), Ok(Some(broken)));
    assert_eq!(rt; score(alloc, &query, &tables, &world), Ok(12));
    Ok(())
}

#[test]
fn bounds_are_read_from_the_row(rt: HostRuntime) -> Result<(), Fail> {
    let alloc = rt.alloc();
    let query = query_of(alloc, SHRUNK)?;
    let tables = one_table(alloc, &[[1, 0], [2, 3], [3, -1]])?;
    let fault = BoundsFault::EmptyBounds { hypo: 0, row: 3 };
    assert_eq!(rt; world_columns(alloc, &query, &tables).err(), Some(fault));
    Ok(())
}

#[test]
fn a_row_outside_where_stays(rt: HostRuntime) -> Result<(), Fail> {
    let alloc = rt.alloc();
    let query = query_of(alloc, DROPPED)?;
    let tables = one_table(alloc, &[[1, 1], [2, 9]])?;
    let columns = world_columns(alloc, &query, &tables)?;
    assert_eq!(rt; columns.len(), 2);
    let mine = &columns;
    let whole = world_at(alloc, &query, &tables, mine, &[1, 3])?;
    assert_eq!(rt; is_possible(&query, &tables, mine, &whole), None);
    assert_eq!(rt; meets(alloc, &query, &tables, &whole), Ok(None));
    assert_eq!(rt; score_met(alloc, &query, &tables, &whole), Ok(Some(4)));
    let numbers = numbers_of(alloc, &query, &tables, mine, &whole)?;
    assert_eq!(rt; numbers.as_slice(), [1, 3].as_slice());
    Ok(())
}

#[test]
fn a_row_that_is_left_out(rt: HostRuntime) -> Result<(), Fail> {
    let alloc = rt.alloc();
    let query = query_of(alloc, DROPPED)?;
    let tables = one_table(alloc, &[[1, 1], [2, 9]])?;
    let columns = world_columns(alloc, &query, &tables)?;
    assert_eq!(rt; columns.len(), 2);
    let mine = &columns;
    let dropped = world_at(alloc, &query, &tables, mine, &[0, 0])?;
    assert_eq!(rt; is_possible(&query, &tables, mine, &dropped), None);
    let broken = Broken {
        requirement: 1,
        row: 0,
    };
    assert_eq!(rt; meets(alloc, &query, &tables, &dropped), Ok(Some(broken)));
    assert_eq!(rt; score(alloc, &query, &tables, &dropped), Ok(1));
    Ok(())
}

#[test]
fn points_of_worlds_are_judged(rt: HostRuntime) -> Result<(), Fail> {
    let alloc = rt.alloc();
    let query = query_of(alloc, DROPPED)?;
    let tables = one_table(alloc, &[[1, 1], [2, 9]])?;
    let columns = world_columns(alloc, &query, &tables)?;
    assert_eq!(rt; columns.len(), 2);
    let sides = sides_of(alloc, columns.as_slice())?;
    assert_eq!(rt; sides.len(), 2);
    let mine = &columns;
    assert_eq!(rt;
        judge_point(alloc, &query, &tables, mine, &[1, 3])?,
        Some(4)
    );
    assert_eq!(rt; judge_point(alloc, &query, &tables, mine, &[1, 2])?, None);
    assert_eq!(rt; judge_point(alloc, &query, &tables, mine, &[0, 3])?, None);
    Ok(())
}

#[test]
fn a_view_has_rows_in_each_world(rt: HostRuntime) -> Result<(), Fail> {
    let alloc = rt.alloc();
    let query = query_of(alloc, TOTAL)?;
    let tables = one_table(alloc, &[[1, 5], [2, 7]])?;
    let columns = world_columns(alloc, &query, &tables)?;
    assert_eq!(rt; columns.len(), 2);
    let world = world_at(alloc, &query, &tables, &columns, &[5, 3])?;
    let rows = view_rows(alloc, &query, &tables, &world, Source::View(0))?;
    let total = rows.get(0).ok_or("a row")?;
    assert!(rt; total.as_slice() == [Value::Int(8)].as_slice());
    assert_eq!(rt; score_met(alloc, &query, &tables, &world), Ok(Some(16)));
    Ok(())
}

#[test]
fn a_product_is_judged_by_its_own_value(rt: HostRuntime) -> Result<(), Fail> {
    let alloc = rt.alloc();
    let mut row = List::new(alloc);
    row.push(Value::Int(1_000_000_000_000_000))?;
    let at = At {
        source: 0,
        column: 0,
    };
    let mut factors = List::new(alloc);
    factors.push(Expr::Column(at))?;
    factors.push(Expr::Column(at))?;
    let wide = Wide {
        number: 1_000_000_000_000_000_000_000_000_000_000,
    };
    let product = Expr::Product(factors.copy(alloc)?);
    assert_eq!(rt; number(&product, &[&row]), Err(wide));
    factors.push(Expr::Int(0))?;
    assert_eq!(rt; number(&Expr::Product(factors), &[&row]), Ok(0));
    Ok(())
}
