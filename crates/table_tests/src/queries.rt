//! Checked queries are copied, and their relations are found.

use base_kit::{Boxed, Duplicate, List, Name};
use std::alloc::Global;
use std::test::Fail;
use tiql_query::{
    Aim, At, Cmp, Column, Cond, Expr, QBound, QHypo, QTable, QView, Query, Source, WorldColumn,
};

fn one<T: Drop>(alloc: Global, item: T) -> Result<List<T>, Fail> {
    let mut made = List::new(alloc);
    made.push(item)?;
    Ok(made)
}

/// The column qty.
fn columns(alloc: Global, unknown: bool) -> Result<List<Column>, Fail> {
    one(
        alloc,
        Column {
            name: Name::new(alloc, "qty")?,
            text: false,
            unknown,
        },
    )
}

/// TABLE item (qty INT);
fn table(alloc: Global) -> Result<QTable, Fail> {
    Ok(QTable {
        name: Name::new(alloc, "item")?,
        columns: columns(alloc, false)?,
        key: List::new(alloc),
    })
}

fn quantity() -> Expr {
    Expr::Column(At {
        source: 0,
        column: 0,
    })
}

/// HYPO h FROM item SET qty IN 0 .. -qty WHERE NOT qty < 2;
fn hypo(alloc: Global) -> Result<QHypo, Fail> {
    let bound = QBound {
        column: 0,
        lo: Expr::Int(0),
        hi: Expr::Neg(Boxed::new(alloc, quantity())?),
    };
    let less = Cond::Compare(Cmp::Lt, quantity(), Expr::Int(2));
    Ok(QHypo {
        name: Name::new(alloc, "h")?,
        table: 0,
        columns: columns(alloc, true)?,
        set: one(alloc, bound)?,
        filter: Some(Cond::Not(Boxed::new(alloc, less)?)),
        droppable: false,
    })
}

fn query(alloc: Global) -> Result<Query, Fail> {
    let view = QView {
        name: Name::new(alloc, "v")?,
        columns: columns(alloc, true)?,
        arms: List::new(alloc),
    };
    Ok(Query {
        tables: one(alloc, table(alloc)?)?,
        hypos: one(alloc, hypo(alloc)?)?,
        views: one(alloc, view)?,
        requires_: List::new(alloc),
        aim: Aim::Find,
    })
}

#[test]
fn a_query_is_copied(rt: HostRuntime) -> Result<(), Fail> {
    let alloc = rt.alloc();
    let first = query(alloc)?;
    let copy = first.copy(alloc)?;
    assert_eq!(rt;
        format!(in alloc; "{copy:?}")?.as_str(),
        format!(in alloc; "{first:?}")?.as_str()
    );
    Ok(())
}

#[test]
fn small_parts_are_copied(rt: HostRuntime) -> Result<(), Fail> {
    let alloc = rt.alloc();
    let presence = WorldColumn {
        hypo: 1,
        row: 2,
        cell: None,
        droppable: true,
        lo: 0,
        hi: 1,
    };
    assert!(rt; presence.copy(alloc)? == presence);
    assert!(rt; Source::View(3).copy(alloc)? == Source::View(3));
    Ok(())
}

#[test]
fn relations_are_found(rt: HostRuntime) -> Result<(), Fail> {
    let query = query(rt.alloc())?;
    assert_eq!(rt; query.find_table("item"), Some(0));
    assert_eq!(rt; query.find_table("h"), None);
    assert_eq!(rt; query.find_hypo("h"), Some(0));
    assert_eq!(rt; query.find_view("v"), Some(0));
    assert_eq!(rt; query.find_view("V"), None);
    Ok(())
}
