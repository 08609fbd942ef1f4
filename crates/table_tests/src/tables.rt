//! Tables as they come from elsewhere: what their bytes are read as, and what is written again.

use base_kit::{List, Name};
use std::alloc::Global;
use std::process::Abort;
use std::test::Fail;
use tables_csv::{TableFault, read_table, table_text};
use tiql_query::{Column, QTable};

/// TABLE item (id INT, name TEXT) KEY (id);
fn items(alloc: Global) -> Result<QTable, Fail> {
    let mut columns = List::new(alloc);
    for (name, text) in [("id", false), ("name", true)] {
        columns.push(Column {
            name: Name::new(alloc, name)?,
            text,
            unknown: false,
        })?;
    }
    Ok(QTable {
        name: Name::new(alloc, "item")?,
        columns,
        key: List::from_slice(alloc, &[0])?,
    })
}

/// The bytes are refused so.
fn refuses(rt: &impl Abort, alloc: Global, bytes: &[u8], wanted: TableFault) -> Result<(), Fail> {
    let found = read_table(alloc, bytes, &items(alloc)?).err();
    assert_eq!(rt; found, Some(wanted), "of {bytes:?}");
    Ok(())
}

/// The bytes are items, which are written so.
fn writes(rt: &impl Abort, alloc: Global, bytes: &[u8], wanted: &[u8]) -> Result<(), Fail> {
    let table = items(alloc)?;
    let rows = read_table(alloc, bytes, &table)?;
    let text = table_text(alloc, &table.columns, &rows)?;
    assert!(rt; text.as_slice() == wanted);
    Ok(())
}

#[test]
fn a_spreadsheet(rt: HostRuntime) -> Result<(), Fail> {
    let bytes = b"\xef\xbb\xbfid,name\r\n1,\"a,b\"\r\n2,\"c\nd\"\r\n";
    writes(&rt, rt.alloc(), bytes, b"id,name\n1,\"a,b\"\n2,\"c\nd\"\n")
}

#[test]
fn spaces_signs_and_zeros(rt: HostRuntime) -> Result<(), Fail> {
    let bytes = b"id,name\r\n 07 ,\r\n\r\n-0,\"x\"\"y\"\n-1000000000000000, n";
    let wanted = b"id,name\n7,\n0,\"x\"\"y\"\n-1000000000000000, n\n";
    writes(&rt, rt.alloc(), bytes, wanted)
}

#[test]
fn names_in_another_order(rt: HostRuntime) -> Result<(), Fail> {
    refuses(&rt, rt.alloc(), b"name,id\n", TableFault::Header)
}

#[test]
fn a_second_mark(rt: HostRuntime) -> Result<(), Fail> {
    let bytes = b"\xef\xbb\xbf\xef\xbb\xbfid,name\n";
    refuses(&rt, rt.alloc(), bytes, TableFault::Header)
}

#[test]
fn a_row_of_one_field(rt: HostRuntime) -> Result<(), Fail> {
    refuses(
        &rt,
        rt.alloc(),
        b"id,name\n1,a\n2\n",
        TableFault::Ragged { row: 2 },
    )
}

#[test]
fn a_number_too_large(rt: HostRuntime) -> Result<(), Fail> {
    let bad = TableFault::BadNumber { row: 1, column: 1 };
    refuses(&rt, rt.alloc(), b"id,name\n1000000000000001,a\nx\n", bad)
}

#[test]
fn a_tab_is_no_space(rt: HostRuntime) -> Result<(), Fail> {
    let bad = TableFault::BadNumber { row: 1, column: 1 };
    refuses(&rt, rt.alloc(), b"id,name\n\t1,a\n", bad)
}

#[test]
fn bytes_that_are_no_text(rt: HostRuntime) -> Result<(), Fail> {
    let wrong = TableFault::NotUtf8 { row: 2, column: 2 };
    refuses(&rt, rt.alloc(), b"id,name\n1,a\n2,\xff\n1,a\n", wrong)
}

#[test]
fn a_key_again(rt: HostRuntime) -> Result<(), Fail> {
    let same = TableFault::SameKey { row: 3, earlier: 1 };
    refuses(&rt, rt.alloc(), b"id,name\n3,a\n2,b\n03,b\n", same)
}

/// The header of items and a row whose name has so many bytes.
fn long_name(alloc: Global, bytes: usize) -> Result<String, Fail> {
    let mut text = String::from_str(alloc, "id,name\n1,")?;
    for _ in 0..bytes {
        text.push_str("n")?;
    }
    Ok(text)
}

#[test]
fn a_text_too_long(rt: HostRuntime) -> Result<(), Fail> {
    let text = long_name(rt.alloc(), 1001)?;
    let long = TableFault::TooLongText { row: 1, column: 2 };
    refuses(&rt, rt.alloc(), text.as_bytes(), long)
}
