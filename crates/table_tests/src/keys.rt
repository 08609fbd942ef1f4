//! Rows are found by their keys.

use base_kit::{List, Row, Txt, Value};
use join_index::Index;
use std::alloc::Global;
use std::test::Fail;

/// A row of a number and a text.
fn row(alloc: Global, number: i64, text: &str) -> Result<Row, Fail> {
    let mut row = List::new(alloc);
    row.push(Value::Int(number))?;
    row.push(Value::Text(Txt::new(alloc, text)?))?;
    Ok(row)
}

#[test]
fn the_rows_of_a_key(rt: HostRuntime) -> Result<(), Fail> {
    let alloc = rt.alloc();
    let mut rows = List::new(alloc);
    rows.push(row(alloc, 7, "nut")?)?;
    rows.push(row(alloc, 7, "bolt")?)?;
    rows.push(row(alloc, 7, "nut")?)?;
    let index = Index::build(alloc, &rows, &[0, 1])?;
    assert_eq!(rt; index.matches(&row(alloc, 7, "nut")?), [0, 2].as_slice());
    Ok(())
}
