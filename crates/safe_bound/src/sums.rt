//! The bound: the rows first, then column by column.
ghost use Rattle.std.specs.Prelude.{◌≡◌, ◌<◌, length, All, IfSome, pos};
ghost use Rattle.rat128.specs.Fractions.{whole_fraction};
ghost use Rattle.rat128.specs.Rationals.{value};
ghost use Rattle.ip_rows.specs.declared.rows.IpRow.{IpRow};
ghost use Rattle.ip_rows.specs.declared.mult.Mult.{Mult};
ghost use Rattle.ip_rows.specs.Rows.{AreTerms, Rise, factor_at};
ghost use Rattle.safe_bound.specs.Below.{IsReach, AreNotNegative, IsAtMost};
ghost use Rattle.safe_bound.specs.Bound as spec;
ghost use Rattle.safe_bound.specs.Exact.{exact_bound};

use crate::factor::factor_of;
use crate::steps::{less_product, plus_product, plus_side};
use base_kit::List;
use ip_rows::{Bounds, Coef, IpRow, Mult};
use rat128::Rat;

/// A number that the objective does not fall below at any relaxed point of the box that meets the named rows, where no
/// multiplier is negative. None exactly where one of its operations is None (docs/BOUNDS.md).
///
/// It takes no memory. `reach` rises, and has every column of the aim and of the named rows.
pub fn bound(
    rows: &List<IpRow>,
    aim: &[Coef],
    sides: &[Bounds],
    reach: &[u32],
    multipliers: &[Mult],
) -> Option<Rat>
    requires rows { All (λ (row : IpRow). AreTerms (length sides.now) row.terms) rows.now }
    requires aim { AreTerms (length sides.now) aim.now }
    requires named { All (λ (m : Mult). m.row < length rows.now) multipliers.now }
    requires reach { IsReach (length sides.now) rows.now aim.now multipliers.now reach.now }
    ensures gives { result ≡ spec.bound_of rows.now aim.now sides.now multipliers.now reach.now }
    ensures exact { IfSome result (λ z. value z ≡ exact_bound rows.now aim.now sides.now multipliers.now reach.now) }
    ensures below { IfSome result (λ z. AreNotNegative multipliers.now → IsAtMost (value z) rows.now aim.now sides.now multipliers.now) }
{
    let rows = rows.as_slice();
    let total = plus_leasts(rows, multipliers)?;
    plus_columns(total, rows, aim, sides, reach, multipliers)
}

/// What each named row asks times its multiplier, summed.
fn plus_leasts(rows: &[IpRow], multipliers: &[Mult]) -> Option<Rat>
    requires { All (λ (m : Mult). m.row < length rows.now) multipliers.now }
    ensures { result ≡ spec.plus_leasts rows.now (whole_fraction (pos 0)) multipliers.now }
{
    let mut total = Rat::from(0);
    for multiplier in multipliers {
        let least = rows[multiplier.row as usize].least;
        total = plus_product(&total, &multiplier.factor, least)?;
    }
    Some(total)
}

/// The sum, and for each column what is left of its factor times its worst side.
fn plus_columns(
    mut total: Rat,
    rows: &[IpRow],
    aim: &[Coef],
    sides: &[Bounds],
    reach: &[u32],
    multipliers: &[Mult],
) -> Option<Rat>
    requires rows { All (λ (row : IpRow). Rise row.terms) rows.now }
    requires aim { Rise aim.now }
    requires named { All (λ (m : Mult). m.row < length rows.now) multipliers.now }
    requires reach { All (λ column. column < length sides.now) reach.now }
    ensures { result ≡ spec.plus_columns rows.now aim.now sides.now multipliers.now total reach.now }
{
    for column in reach {
        let rest = rest_of(rows, factor_of(aim, *column), multipliers, *column)?;
        total = plus_side(&total, &rest, &sides[*column as usize])?;
    }
    Some(total)
}

/// A column's factor in the aim, less what the named rows take of it.
fn rest_of(rows: &[IpRow], factor: i64, multipliers: &[Mult], column: u32) -> Option<Rat>
    requires rows { All (λ (row : IpRow). Rise row.terms) rows.now }
    requires named { All (λ (m : Mult). m.row < length rows.now) multipliers.now }
    ensures { result ≡ spec.rest_of rows.now column (whole_fraction factor) multipliers.now }
{
    let mut rest = Rat::from(factor);
    for multiplier in multipliers {
        let terms = rows[multiplier.row as usize].terms.as_slice();
        rest = less_product(&rest, &multiplier.factor, factor_of(terms, column))?;
    }
    Some(rest)
}
