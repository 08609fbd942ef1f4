//! Bounds of a worked program.
ghost use Rattle.std.specs.Prelude.{◌≡◌, IfOk};
ghost use Rattle.ip_rows.specs.declared.rows.IpRow.{IpRow};
ghost use Rattle.number_tests.specs.Programs.{capped_rows};

use base_kit::List;
use ip_rows::{Bounds, Coef, IpRow, Mult};
use rat128::{Rat, read_rat};
use safe_bound::bound;
use std::alloc::{AllocError, Global};
use std::test::Fail;

/// A row of these terms.
fn row(alloc: Global, terms: &[Coef], least: i64) -> Result<IpRow, AllocError>
    ensures { IfOk result (λ row. row ≡ record { terms = terms.now; least = least }) }
{
    Ok(IpRow {
        terms: List::from_slice(alloc, terms)?,
        least,
    })
}

/// A factor of a column.
const fn term(factor: i64, column: u32) -> Coef
    ensures { result ≡ record { factor = factor; column = column } }
{
    Coef { factor, column }
}

/// Rows for x, y and z, where z is x + y and at most 8.
fn capped(alloc: Global) -> Result<List<IpRow>, AllocError>
    ensures { IfOk result (λ rows. rows ≡ capped_rows) }
{
    let above = row(alloc, &[term(-1, 0), term(-1, 1), term(1, 2)], 0)?;
    let below = row(alloc, &[term(1, 0), term(1, 1), term(-1, 2)], 0)?;
    let cap = row(alloc, &[term(-1, 2)], -8)?;
    Ok(List::from_vec(vec![in alloc; above, below, cap]?))
}

/// The bound on -3 x - 2 y with x in 0 .. 5 and y in 0 .. 7, by multipliers of the first row and of the cap.
fn capped_bound(rows: &List<IpRow>, above: &Rat, cap: &Rat) -> Option<Rat>
    requires { rows.now ≡ capped_rows }
{
    let aim = [
        Coef {
            factor: -3,
            column: 0,
        },
        Coef {
            factor: -2,
            column: 1,
        },
    ];
    let sides = [
        Bounds { lo: 0, hi: 5 },
        Bounds { lo: 0, hi: 7 },
        Bounds { lo: 0, hi: 12 },
    ];
    let multipliers = [
        Mult {
            row: 0,
            factor: *above,
        },
        Mult {
            row: 2,
            factor: *cap,
        },
    ];
    bound(rows, &aim, &sides, &[0, 1, 2], &multipliers)
}

#[test]
fn best_multipliers(rt: HostRuntime) -> Result<(), Fail> {
    let rows = capped(rt.alloc())?;
    let two = Rat::from(2);
    assert_eq!(rt; capped_bound(&rows, &two, &two), Some(Rat::from(-21)));
    Ok(())
}

#[test]
fn broken_multipliers(rt: HostRuntime) -> Result<(), Fail> {
    let rows = capped(rt.alloc())?;
    let half = read_rat(b"5/2").ok_or("no fraction")?;
    assert_eq!(rt; capped_bound(&rows, &half, &half), read_rat(b"-45/2"));
    Ok(())
}

#[test]
fn sides_alone(rt: HostRuntime) -> Result<(), Fail> {
    let rows = capped(rt.alloc())?;
    let none = Rat::from(0);
    assert_eq!(rt; capped_bound(&rows, &none, &none), Some(Rat::from(-29)));
    Ok(())
}

#[test]
fn too_large(rt: HostRuntime) -> Result<(), Fail> {
    let rows = capped(rt.alloc())?;
    let largest = Rat::new(i128::MAX, 1).ok_or("no fraction")?;
    assert_eq!(rt; capped_bound(&rows, &Rat::from(0), &largest), None);
    Ok(())
}
