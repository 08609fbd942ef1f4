//! The world of sections that are spelled otherwise than they are written, and a section that is not right.

ghost use Rattle.std.specs.Prelude.{◌≡◌, [], ◌∷◌, IfOk};

use answer_text::{WorldFault, WorldText, world_of};
use base_kit::{List, Name};
use std::alloc::Global;
use std::test::Fail;
use tables_csv::read_table;
use tiql_query::{Aim, Column, QHypo, QTable, Query};
use world_def::World;

fn one<T: Drop>(alloc: Global, item: T) -> Result<List<T>, Fail>
    ensures { IfOk result (λ made. made ≡ item ∷ []) }
{
    let mut made = List::new(alloc);
    made.push(item)?;
    Ok(made)
}

/// The columns id and name.
fn columns(alloc: Global) -> Result<List<Column>, Fail> {
    let mut columns = List::new(alloc);
    for (name, text) in [("id", false), ("name", true)] {
        columns.push(Column {
            name: Name::new(alloc, name)?,
            text,
            unknown: false,
        })?;
    }
    Ok(columns)
}

/// The world of a section of `HYPO h FROM item DROP;` over `TABLE item (id INT, name TEXT) KEY (id, name);`.
fn world(alloc: Global, rows: u32, bytes: &[u8]) -> Result<Result<World, WorldFault>, Fail> {
    let table = QTable {
        name: Name::new(alloc, "item")?,
        columns: columns(alloc)?,
        key: List::from_slice(alloc, &[0, 1])?,
    };
    let hypo = QHypo {
        name: Name::new(alloc, "h")?,
        table: 0,
        columns: columns(alloc)?,
        set: List::new(alloc),
        filter: None,
        droppable: true,
    };
    let items = read_table(alloc, b"id,name\n1,bolt\n1,nut\n2,bolt\n", &table)?;
    let query = Query {
        tables: one(alloc, table)?,
        hypos: one(alloc, hypo)?,
        views: List::new(alloc),
        requires_: List::new(alloc),
        aim: Aim::Find,
    };
    let tables = one(alloc, items)?;
    let section = WorldText {
        name: Name::new(alloc, "h")?,
        rows,
        bytes: List::from_slice(alloc, bytes)?,
    };
    let worlds = one(alloc, section)?;
    Ok(world_of(alloc, &query, &tables, &worlds))
}

#[test]
fn a_section_in_another_spelling(rt: HostRuntime) -> Result<(), Fail> {
    let bytes = b"\xEF\xBB\xBFid,\"name\"\r\n02,bolt\r\n\r\n +1,\"nut\"";
    let found = world(rt.alloc(), 2, bytes)??;
    let table = found.tables.get(0).ok_or("a table")?;
    assert!(rt; table.picks.as_slice() == [2, 1].as_slice());
    assert_eq!(rt; table.rows.len(), 2);
    Ok(())
}

#[test]
fn a_row_of_no_row_of_the_table(rt: HostRuntime) -> Result<(), Fail> {
    let found = world(rt.alloc(), 1, b"id,name\n2,nut\n")?;
    match found {
        Err(WorldFault::NoTable { hypo }) => assert_eq!(rt; hypo, 0),
        _ => panic!(rt; "another outcome"),
    }
    Ok(())
}
