//! A part of as many columns as there may be, each of them 0 or 1, under one row over all of them.
ghost use Rattle.std.specs.Prelude.{◌≡◌, ◌≤◌, replicate, IfOk};
ghost use Rattle.simplex_tests.specs.Columns.{side, factor_of, terms_to, part_of};

use base_kit::{List, Memory};
use dual_simplex::{Relaxed, relax};
use ip_rows::{Bounds, Coef, IpRow, Lp, Mult};
use rat128::Rat;
use std::alloc::{AllocError, Global};
use std::test::Fail;

/// The sides of so many columns.
fn sides(alloc: Global, columns: usize) -> Result<List<Bounds>, AllocError>
    ensures { IfOk result (λ sides. sides ≡ replicate columns side) }
{
    let mut sides = Vec::with_capacity(alloc, columns)?;
    for _ in 0..columns {
        sides.push(Bounds { lo: 0, hi: 1 })?;
    }
    Ok(List::from_vec(sides))
}

/// A column's factor: 3 and so many steps.
fn factor(step: usize, column: usize) -> i64
    requires step { step ≤ 1 }
    requires column { column ≤ 1024 }
    ensures { result ≡ factor_of step column }
{
    (3 + step * column) as i64
}

/// A term of each column, whose factors rise by this step.
fn terms(alloc: Global, step: usize, columns: usize) -> Result<List<Coef>, AllocError>
    requires step { step ≤ 1 }
    requires columns { columns ≤ 1024 }
    ensures { IfOk result (λ terms. terms ≡ terms_to step columns) }
{
    let mut terms = Vec::with_capacity(alloc, columns)?;
    for column in 0..columns {
        terms.push(Coef {
            factor: factor(step, column),
            column: column as u32,
        })?;
    }
    Ok(List::from_vec(terms))
}

/// Three times the sum of the columns is at least 10, and a column costs 1 more than the one before it.
fn part(alloc: Global, columns: usize) -> Result<Lp, AllocError>
    requires { columns ≤ 1024 }
    ensures { IfOk result (λ lp. lp ≡ part_of columns) }
{
    let row = IpRow {
        terms: terms(alloc, 0, columns)?,
        least: 10,
    };
    Ok(Lp {
        sides: sides(alloc, columns)?,
        rows: List::from_vec(vec![in alloc; row]?),
        aim: terms(alloc, 1, columns)?,
    })
}

/// What the part of 1,024 columns comes to.
fn relaxed(alloc: Global) -> Result<Relaxed, Memory> {
    let lp = part(alloc, 1024)?;
    relax(alloc, &lp, None)
}

/// The sum 10/3 costs the least in the first columns: 3 + 4 + 5, and a third of 6.
#[test]
fn least_point_of_many_columns(rt: HostRuntime) -> Result<(), Fail> {
    let third = Rat::new(1, 3).unwrap_or(Rat::from(0));
    let mut least = vec![in rt.alloc(); Rat::from(1); 3]?;
    least.push(third)?;
    for _ in 4..1024 {
        least.push(Rat::from(0))?;
    }
    match relaxed(rt.alloc())? {
        Relaxed::Optimum {
            value,
            point,
            multipliers,
        } => {
            let factor = Rat::from(2);
            assert_eq!(rt; value, Rat::from(14));
            assert_eq!(rt; point.as_slice(), least.as_slice());
            assert_eq!(rt;
                multipliers.as_slice(),
                [Mult { row: 0, factor }].as_slice()
            );
            Ok(())
        }
        _ => Err("no optimum".into()),
    }
}
