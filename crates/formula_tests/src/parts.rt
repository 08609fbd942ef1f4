//! The list of parts.

use bumpalo::Bump;
use prov_arena::{Pair, Part, Prov, Term};
use std::test::Fail;

#[test]
fn equal_parts_have_one_place(rt: HostRuntime) -> Result<(), Fail> {
    let arena = Bump::new(rt.alloc());
    let mut prov = Prov::start(rt.alloc(), &arena)?;
    assert_eq!(rt; prov.len(), 2);
    assert_eq!(rt; prov.intern(Part::Pres(7))?, 2);
    assert_eq!(rt; prov.len(), 3);
    assert_eq!(rt; prov.intern(Part::And(&[1, 2]))?, 3);
    assert_eq!(rt; prov.intern(Part::Pres(7))?, 2);
    assert_eq!(rt; prov.len(), 4);
    Ok(())
}

#[test]
fn a_part_is_found_by_all_that_it_says(rt: HostRuntime) -> Result<(), Fail> {
    let arena = Bump::new(rt.alloc());
    let mut prov = Prov::start(rt.alloc(), &arena)?;
    assert_eq!(rt; prov.len(), 2);
    assert_eq!(rt; prov.intern(Part::And(&[0, 1]))?, 2);
    assert_eq!(rt; prov.find(Part::And(&[0, 1])), Some(2));
    assert_eq!(rt; prov.find(Part::Or(&[0, 1])), None);
    assert_eq!(rt; prov.find(Part::And(&[1, 0])), None);
    assert_eq!(rt; prov.find(Part::True), Some(1));
    Ok(())
}

#[test]
fn lists_are_compared_whole(rt: HostRuntime) -> Result<(), Fail> {
    let arena = Bump::new(rt.alloc());
    let mut prov = Prov::start(rt.alloc(), &arena)?;
    assert_eq!(rt; prov.len(), 2);
    let one = [Term { factor: 1, node: 1 }];
    let minus = [Term {
        factor: -1,
        node: 1,
    }];
    assert_eq!(rt; prov.intern(Part::Lin(0, &one))?, 2);
    assert_eq!(rt; prov.intern(Part::Lin(0, &minus))?, 3);
    assert_eq!(rt; prov.intern(Part::Lin(i64::MIN, &one))?, 4);
    assert_eq!(rt; prov.find(Part::Lin(0, &minus)), Some(3));
    Ok(())
}

#[test]
fn a_part_is_read_again(rt: HostRuntime) -> Result<(), Fail> {
    let arena = Bump::new(rt.alloc());
    let mut prov = Prov::start(rt.alloc(), &arena)?;
    assert_eq!(rt; prov.len(), 2);
    let pairs = [Pair {
        truth: 1,
        number: 0,
    }];
    assert_eq!(rt; prov.intern(Part::Min(&pairs))?, 2);
    assert_eq!(rt; prov.len(), 3);
    match prov.node(2) {
        Part::Min(kept) => assert_eq!(rt; kept, pairs.as_slice()),
        _ => assert!(rt; false),
    }
    Ok(())
}

#[test]
fn chains_are_doubled(rt: HostRuntime) -> Result<(), Fail> {
    let arena = Bump::new(rt.alloc());
    let mut prov = Prov::start(rt.alloc(), &arena)?;
    for column in 0..1100 {
        assert!(rt; prov.len() < 20_000_000);
        assert_eq!(rt; prov.intern(Part::Cell(column))?, column + 2);
    }
    for column in 0..1100 {
        assert_eq!(rt; prov.find(Part::Cell(column)), Some(column + 2));
    }
    assert_eq!(rt; prov.find(Part::Cell(1100)), None);
    Ok(())
}
