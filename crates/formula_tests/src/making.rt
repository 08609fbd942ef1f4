//! The making of formulas by the fold rules, their ranges and their values.

use bumpalo::Bump;
use prov_fold::{Fold, FoldFault, Pair, Scaled, Span};
use std::test::Fail;

#[test]
fn the_cap_query_has_twelve_nodes(rt: HostRuntime) -> Result<(), Fail> {
    let arena = Bump::new(rt.alloc());
    let mut fold = Fold::start(rt.alloc(), &arena)?;
    let first = Span { lo: 0, hi: 5 };
    assert_eq!(rt; fold.cell(0, first)?, 3);
    assert_eq!(rt; fold.cell(1, Span { lo: 0, hi: 7 })?, 5);
    let both = [
        Scaled {
            factor: 1,
            number: 3,
        },
        Scaled {
            factor: 1,
            number: 5,
        },
    ];
    assert_eq!(rt; fold.sum(0, &both)?, 6);
    assert_eq!(rt; fold.tot(6)?, 8);
    assert_eq!(rt; fold.constant(8)?, 9);
    let rest = [
        Scaled {
            factor: 1,
            number: 9,
        },
        Scaled {
            factor: -1,
            number: 8,
        },
    ];
    assert_eq!(rt; fold.sum(0, &rest)?, 10);
    assert_eq!(rt; fold.pos(10)?, 11);
    assert_eq!(rt; fold.cell(0, first)?, 3);
    assert_eq!(rt; fold.prov().len(), 12);
    Ok(())
}

#[test]
fn a_wide_constant_is_refused(rt: HostRuntime) -> Result<(), Fail> {
    let arena = Bump::new(rt.alloc());
    let mut fold = Fold::start(rt.alloc(), &arena)?;
    assert_eq!(rt;
        fold.constant(100_000_000_000_000_001),
        Err(FoldFault::Wide(100_000_000_000_000_001))
    );
    assert_eq!(rt; fold.prov().len(), 2);
    Ok(())
}

#[test]
fn atoms_come_with_their_numbers(rt: HostRuntime) -> Result<(), Fail> {
    let arena = Bump::new(rt.alloc());
    let mut fold = Fold::start(rt.alloc(), &arena)?;
    let truth = fold.pres(0)?;
    let number = fold.cell(1, Span { lo: -4, hi: 6 })?;
    let guarded = fold.guard(truth, number)?;
    assert_eq!(rt; guarded, 6);
    assert_eq!(rt; fold.range(guarded), Span { lo: -4, hi: 6 });
    assert_eq!(rt; fold.abs(guarded)?, 9);
    Ok(())
}

#[test]
fn the_least_of_two_is_a_number(rt: HostRuntime) -> Result<(), Fail> {
    let arena = Bump::new(rt.alloc());
    let mut fold = Fold::start(rt.alloc(), &arena)?;
    let number = fold.cell(1, Span { lo: 2, hi: 6 })?;
    let truth = fold.pres(0)?;
    let other = fold.not(truth)?;
    let pairs = [
        Pair { truth, number },
        Pair {
            truth: other,
            number,
        },
    ];
    assert_eq!(rt; fold.min(&pairs)?, 8);
    Ok(())
}
