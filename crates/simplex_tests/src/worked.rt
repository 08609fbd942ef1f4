//! Parts of two columns, x and y, with a row or none.
ghost use Rattle.std.specs.Prelude.{◌≡◌, ◌^◌, ◌≤◌, ℤ, true, unsigned_abs, IfOk, IfSome};
ghost use Rattle.simplex_tests.specs.Parts.{row_of, rows_of, aim_of, part_of, is_part};

use crate::asked::{Asked, Factors};
use base_kit::{List, Memory};
use dict_pivot::WideCell;
use dual_simplex::{PivotAt, Relaxed, relax};
use ip_rows::{Bounds, Coef, IpRow, Lp, Mult};
use rat128::Rat;
use std::alloc::{AllocError, Global};
use std::test::Fail;

/// A row, or none.
fn rows(alloc: Global, asked: Option<Asked>) -> Result<List<IpRow>, AllocError>
    ensures { IfOk result (λ rows. rows ≡ rows_of asked) }
{
    match asked {
        None => Ok(List::new(alloc)),
        Some(asked) => {
            let row = row(alloc, asked)?;
            Ok(List::from_vec(vec![in alloc; row]?))
        }
    }
}

/// A row.
fn row(alloc: Global, asked: Asked) -> Result<IpRow, AllocError>
    ensures { IfOk result (λ row. row ≡ row_of asked) }
{
    Ok(IpRow {
        terms: aim(alloc, Some(asked.factors))?,
        least: asked.least,
    })
}

/// Terms of both columns, or none.
fn aim(alloc: Global, factors: Option<Factors>) -> Result<List<Coef>, AllocError>
    ensures { IfOk result (λ terms. terms ≡ aim_of factors) }
{
    match factors {
        None => Ok(List::new(alloc)),
        Some(factors) => List::from_slice(
            alloc,
            &[
                Coef {
                    factor: factors.x,
                    column: 0,
                },
                Coef {
                    factor: factors.y,
                    column: 1,
                },
            ],
        ),
    }
}

/// A part.
fn part(
    alloc: Global,
    x: Bounds,
    y: Bounds,
    asked: Option<Asked>,
    factors: Option<Factors>,
) -> Result<Lp, AllocError>
    ensures { IfOk result (λ lp. lp ≡ part_of x y asked factors) }
{
    Ok(Lp {
        sides: List::from_slice(alloc, &[x, y])?,
        rows: rows(alloc, asked)?,
        aim: aim(alloc, factors)?,
    })
}

/// What a part comes to.
fn relaxed(
    alloc: Global,
    x: Bounds,
    y: Bounds,
    asked: Option<Asked>,
    factors: Option<Factors>,
    best: Option<i128>,
) -> Result<Relaxed, Memory>
    requires part { is_part (part_of x y asked factors) ≡ true }
    requires best { IfSome best (λ (b : ℤ). unsigned_abs b ≤ 2 ^ 126) }
{
    let lp = part(alloc, x, y, asked, factors)?;
    relax(alloc, &lp, best)
}

/// The fraction of these numbers; 0 where there is none.
fn fraction(num: i128, den: i128) -> Rat {
    Rat::new(num, den).unwrap_or(Rat::from(0))
}

/// 2 x + 3 y is at least 7.
const COVER: Asked = Asked {
    factors: Factors { x: 2, y: 3 },
    least: 7,
};

/// x + y.
const SUM: Factors = Factors { x: 1, y: 1 };

/// From 0 to 5.
const UP_TO_5: Bounds = Bounds { lo: 0, hi: 5 };

/// 0 or 1.
const UP_TO_1: Bounds = Bounds { lo: 0, hi: 1 };

#[test]
fn least_point(rt: HostRuntime) -> Result<(), Fail> {
    match relaxed(rt.alloc(), UP_TO_5, UP_TO_5, Some(COVER), Some(SUM), None)? {
        Relaxed::Optimum {
            value,
            point,
            multipliers,
        } => {
            assert_eq!(rt; value, fraction(7, 3));
            assert_eq!(rt; point.as_slice(), [Rat::from(0), fraction(7, 3)].as_slice());
            assert_eq!(rt;
                multipliers.as_slice(),
                [Mult {
                    row: 0,
                    factor: fraction(1, 3),
                }]
                .as_slice()
            );
            Ok(())
        }
        _ => Err("no optimum".into()),
    }
}

#[test]
fn least_point_without_rows(rt: HostRuntime) -> Result<(), Fail> {
    let below = Factors { x: -3, y: 2 };
    match relaxed(rt.alloc(), UP_TO_5, UP_TO_1, None, Some(below), None)? {
        Relaxed::Optimum {
            value,
            point,
            multipliers,
        } => {
            assert_eq!(rt; value, Rat::from(-15));
            assert_eq!(rt; point.as_slice(), [Rat::from(5), Rat::from(0)].as_slice());
            assert_eq!(rt; multipliers.len(), 0);
            Ok(())
        }
        _ => Err("no optimum".into()),
    }
}

#[test]
fn least_point_without_aim(rt: HostRuntime) -> Result<(), Fail> {
    match relaxed(rt.alloc(), UP_TO_5, UP_TO_5, Some(COVER), None, None)? {
        Relaxed::Optimum {
            value,
            point,
            multipliers,
        } => {
            assert_eq!(rt; value, Rat::from(0));
            assert_eq!(rt; point.as_slice(), [Rat::from(0), fraction(7, 3)].as_slice());
            assert_eq!(rt; multipliers.len(), 0);
            Ok(())
        }
        _ => Err("no optimum".into()),
    }
}

#[test]
fn past_the_best(rt: HostRuntime) -> Result<(), Fail> {
    match relaxed(
        rt.alloc(),
        UP_TO_5,
        UP_TO_5,
        Some(COVER),
        Some(SUM),
        Some(3),
    )? {
        Relaxed::Closed {
            against_best,
            multipliers,
        } => {
            assert!(rt; against_best);
            assert_eq!(rt;
                multipliers.as_slice(),
                [Mult {
                    row: 0,
                    factor: fraction(1, 3),
                }]
                .as_slice()
            );
            Ok(())
        }
        _ => Err("not closed".into()),
    }
}

#[test]
fn no_point(rt: HostRuntime) -> Result<(), Fail> {
    match relaxed(rt.alloc(), UP_TO_1, UP_TO_1, Some(COVER), Some(SUM), None)? {
        Relaxed::Closed {
            against_best,
            multipliers,
        } => {
            assert!(rt; !against_best);
            assert_eq!(rt;
                multipliers.as_slice(),
                [Mult {
                    row: 0,
                    factor: fraction(1, 2),
                }]
                .as_slice()
            );
            Ok(())
        }
        _ => Err("not closed".into()),
    }
}

#[test]
fn wide_pivot(rt: HostRuntime) -> Result<(), Fail> {
    let x = Bounds {
        lo: -1000000000000000000,
        hi: 1000000000000000000,
    };
    let y = Bounds { lo: 0, hi: 0 };
    let factors = Factors {
        x: 100000000000000001,
        y: 1,
    };
    let aim = Factors { x: 10000, y: 1 };
    match relaxed(
        rt.alloc(),
        x,
        y,
        Some(Asked { factors, least: 1 }),
        Some(aim),
        None,
    )? {
        Relaxed::Wide(proof) => {
            assert_eq!(rt; proof.basis.as_slice(), [1, 2].as_slice());
            assert_eq!(rt; proof.pivot, Some(PivotAt { row: 5, column: 1 }));
            assert_eq!(rt; proof.cell, Some(WideCell { row: 0, column: 0 }));
            Ok(())
        }
        _ => Err("not wide".into()),
    }
}

#[test]
fn wide_bound(rt: HostRuntime) -> Result<(), Fail> {
    let x = Bounds {
        lo: 0,
        hi: 1000000000,
    };
    let y = Bounds {
        lo: 1000000000000000000,
        hi: 1000000000000000000,
    };
    let factors = Factors {
        x: 10000000001,
        y: -13,
    };
    let least = -9000000000000000000;
    let aim = Factors {
        x: 9000000000000000000,
        y: 10000000000,
    };
    match relaxed(
        rt.alloc(),
        x,
        y,
        Some(Asked { factors, least }),
        Some(aim),
        None,
    )? {
        Relaxed::Wide(proof) => {
            assert_eq!(rt; proof.basis.as_slice(), [5, 2].as_slice());
            assert_eq!(rt; proof.pivot, None);
            assert_eq!(rt; proof.cell, None);
            Ok(())
        }
        _ => Err("not wide".into()),
    }
}
