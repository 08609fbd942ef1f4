//! Names, texts, values, copies and statuses.

use base_kit::{
    Boxed, Duplicate, List, Memory, Name, NameFault, Place, Row, Status, Txt, TxtFault, Value,
    copy_list, is_keyword, row_order,
};
use std::alloc::AllocError;
use std::cmp::Ordering;
use std::test::Fail;

const LETTERS: [u8; 1001] = [b'a'; 1001];

fn letters(count: usize) -> Option<&'static str> {
    std::str::from_utf8(LETTERS.get(..count)?).ok()
}

#[test]
fn names(rt: HostRuntime) -> Result<(), Fail> {
    for name in ["_", "a1_B", "table"] {
        assert_eq!(rt; Name::new(rt.alloc(), name)?.as_str(), name);
    }
    for text in ["", "1a", "h.qty", "TABLE", "COST", "straße"] {
        assert!(rt;
            Name::new(rt.alloc(), text) == Err(NameFault::NotName),
            "{text}"
        );
    }
    let longest = letters(64).ok_or("64 letters")?;
    assert!(rt; Name::new(rt.alloc(), longest).is_ok());
    let longer = letters(65).ok_or("65 letters")?;
    assert!(rt; Name::new(rt.alloc(), longer).is_err());
    assert!(rt; is_keyword(b"EXCEPT"));
    assert!(rt; !is_keyword(b"except"));
    Ok(())
}

#[test]
fn texts(rt: HostRuntime) -> Result<(), Fail> {
    let longest = letters(1000).ok_or("1000 letters")?;
    assert_eq!(rt; Txt::new(rt.alloc(), longest)?.as_str(), longest);
    let longer = letters(1001).ok_or("1001 letters")?;
    assert!(rt; Txt::new(rt.alloc(), longer) == Err(TxtFault::TooLong));
    Ok(())
}

#[test]
fn orders(rt: HostRuntime) -> Result<(), Fail> {
    let ten = Value::Text(Txt::new(rt.alloc(), "10")?);
    let nine = Value::Text(Txt::new(rt.alloc(), "9")?);
    assert_eq!(rt; Value::Int(-5).order(&Value::Int(3)), Ordering::Less);
    assert_eq!(rt; ten.order(&nine), Ordering::Less);
    let row = [Value::Int(20), ten, nine];
    let all = &row[..];
    assert_eq!(rt; row_order(&all[..2], all), Ordering::Less);
    assert_eq!(rt; row_order(&all[1..], all), Ordering::Greater);
    assert_eq!(rt; row_order(all, all), Ordering::Equal);
    Ok(())
}

#[test]
fn copies(rt: HostRuntime) -> Result<(), Fail> {
    let mut row: Row = List::new(rt.alloc());
    row.push(Value::Int(7))?;
    row.push(Value::Text(Txt::new(rt.alloc(), "pear")?))?;
    assert!(rt; row.copy(rt.alloc())?.as_slice() == row.as_slice());
    let name = Name::new(rt.alloc(), "item")?;
    assert!(rt; name.copy(rt.alloc())? == name);
    let numbers = copy_list(rt.alloc(), &[3u32, 1, 2])?;
    assert_eq!(rt; numbers.as_slice(), [3, 1, 2].as_slice());
    let boxed = Boxed::new(rt.alloc(), Place { line: 1, column: 9 })?;
    assert_eq!(rt; boxed.get().column, 9);
    assert_eq!(rt; Memory::from(AllocError), Memory);
    Ok(())
}

#[test]
fn statuses(rt: HostRuntime) {
    assert_eq!(rt; Status::Done.code(), 0);
    assert_eq!(rt; Status::Unfinished.code(), 6);
    assert_eq!(rt; Status::Unreadable.code(), 11);
}
