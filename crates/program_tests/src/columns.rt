//! Which nodes of a small list are used, and their columns.

use bool_encode::Stand;
use bumpalo::Bump;
use ip_rows::Bounds;
use prov_fold::Fold;
use std::test::Fail;
use used_columns::{columns_for, used};

/// The list is false, true, pres 0, pres 1, not 2, or 4 3.
#[test]
fn an_or_uses_what_it_names(rt: HostRuntime) -> Result<(), Fail> {
    let alloc = rt.alloc();
    let arena = Bump::new(alloc);
    let mut fold = Fold::start(alloc, &arena)?;
    let other = fold.pres(0)?;
    let there = fold.pres(1)?;
    let absent = fold.not(other)?;
    let either = fold.or(&[absent, there])?;
    let marks = used(alloc, &fold, &[either])?;
    let wanted = [false, false, true, true, false, true];
    assert!(rt; marks.as_slice() == wanted.as_slice());
    let sides = [Bounds { lo: 0, hi: 1 }, Bounds { lo: 0, hi: 1 }];
    let layout = columns_for(alloc, &fold, &sides, marks.as_slice())?;
    let stands = [Stand::World(0), Stand::World(1), Stand::Node(5)];
    assert!(rt; layout.map.stands.as_slice() == stands.as_slice());
    Ok(())
}
