//! The rows of each kind, one by one.
ghost use Rattle.std.specs.Prelude.{◌≡◌, ◌≤◌, ◌+ℤ◌, ◌*ℤ◌, pos, negsuc, neg_ℤ, unsigned_abs, [], ◌∷◌, IfOk};
ghost use Rattle.bool_encode.specs.Forms.{form};
ghost use Rattle.bool_encode.specs.Stands.{IsMap};
ghost use Rattle.bool_encode.specs.Rows.{IsRowOf, IsKid};
ghost use Rattle.bool_encode.specs.Tables.{times as times_of};
ghost use Rattle.cmp_encode.specs.Light.{IsLight};

use base_kit::Memory;
use bool_encode::{ColumnMap, form_row, times};
use ip_rows::IpRow;
use prov_fold::{Fold, Span};
use std::alloc::Global;

/// z - n.
pub(crate) fn equal_below(
    alloc: Global,
    fold: &Fold<'_>,
    map: &ColumnMap,
    number: u32,
    id: u32,
) -> Result<IpRow, Memory>
    requires map { IsMap map.now.stands }
    requires number { IsKid fold.now map.now.stands 300000000000000000 number }
    requires node { IsKid fold.now map.now.stands 2 id }
    ensures { IfOk result (λ row. IsRowOf fold.now map.now.stands (form (pos 0) (times_of (pos 1) id ∷ times_of (negsuc 0) number ∷ [])) row) }
{
    two_terms(alloc, fold, map, 0, (1, id), (-1, number))
}

/// n - z.
pub(crate) fn equal_above(
    alloc: Global,
    fold: &Fold<'_>,
    map: &ColumnMap,
    number: u32,
    id: u32,
) -> Result<IpRow, Memory>
    requires map { IsMap map.now.stands }
    requires number { IsKid fold.now map.now.stands 300000000000000000 number }
    requires node { IsKid fold.now map.now.stands 2 id }
    ensures { IfOk result (λ row. IsRowOf fold.now map.now.stands (form (pos 0) (times_of (pos 1) number ∷ times_of (negsuc 0) id ∷ [])) row) }
{
    two_terms(alloc, fold, map, 0, (1, number), (-1, id))
}

/// z + n.
pub(crate) fn together(
    alloc: Global,
    fold: &Fold<'_>,
    map: &ColumnMap,
    number: u32,
    id: u32,
) -> Result<IpRow, Memory>
    requires map { IsMap map.now.stands }
    requires number { IsKid fold.now map.now.stands 300000000000000000 number }
    requires node { IsKid fold.now map.now.stands 2 id }
    ensures { IfOk result (λ row. IsRowOf fold.now map.now.stands (form (pos 0) (times_of (pos 1) id ∷ times_of (pos 1) number ∷ [])) row) }
{
    two_terms(alloc, fold, map, 0, (1, id), (1, number))
}

/// n - lo (1 - z).
pub(crate) fn pos_low(
    alloc: Global,
    fold: &Fold<'_>,
    map: &ColumnMap,
    span: Span,
    number: u32,
    id: u32,
) -> Result<IpRow, Memory>
    requires map { IsMap map.now.stands }
    requires small_lo { unsigned_abs span.lo ≤ 100000000000000000 }
    requires number { IsKid fold.now map.now.stands 300000000000000000 number }
    requires node { IsKid fold.now map.now.stands 2 id }
    ensures { IfOk result (λ row. IsRowOf fold.now map.now.stands (form (neg_ℤ span.lo) (times_of (pos 1) number ∷ times_of span.lo id ∷ [])) row) }
{
    two_terms(alloc, fold, map, -span.lo, (1, number), (span.lo, id))
}

/// (hi + 1) z - 1 - n.
pub(crate) fn pos_high(
    alloc: Global,
    fold: &Fold<'_>,
    map: &ColumnMap,
    span: Span,
    number: u32,
    id: u32,
) -> Result<IpRow, Memory>
    requires map { IsMap map.now.stands }
    requires small_hi { unsigned_abs span.hi ≤ 100000000000000000 }
    requires number { IsKid fold.now map.now.stands 300000000000000000 number }
    requires node { IsKid fold.now map.now.stands 2 id }
    ensures { IfOk result (λ row. IsRowOf fold.now map.now.stands (form (negsuc 0) (times_of (span.hi +ℤ pos 1) id ∷ times_of (negsuc 0) number ∷ [])) row) }
{
    two_terms(alloc, fold, map, -1, (span.hi + 1, id), (-1, number))
}

/// z - lo t.
pub(crate) fn guard_low(
    alloc: Global,
    fold: &Fold<'_>,
    map: &ColumnMap,
    span: Span,
    truth: u32,
    id: u32,
) -> Result<IpRow, Memory>
    requires map { IsMap map.now.stands }
    requires small_lo { unsigned_abs span.lo ≤ 100000000000000000 }
    requires truth { IsKid fold.now map.now.stands 2 truth }
    requires node { IsKid fold.now map.now.stands 2 id }
    ensures { IfOk result (λ row. IsRowOf fold.now map.now.stands (form (pos 0) (times_of (pos 1) id ∷ times_of (neg_ℤ span.lo) truth ∷ [])) row) }
{
    two_terms(alloc, fold, map, 0, (1, id), (-span.lo, truth))
}

/// hi t - z.
pub(crate) fn guard_high(
    alloc: Global,
    fold: &Fold<'_>,
    map: &ColumnMap,
    span: Span,
    truth: u32,
    id: u32,
) -> Result<IpRow, Memory>
    requires map { IsMap map.now.stands }
    requires small_hi { unsigned_abs span.hi ≤ 100000000000000000 }
    requires truth { IsKid fold.now map.now.stands 2 truth }
    requires node { IsKid fold.now map.now.stands 2 id }
    ensures { IfOk result (λ row. IsRowOf fold.now map.now.stands (form (pos 0) (times_of span.hi truth ∷ times_of (negsuc 0) id ∷ [])) row) }
{
    two_terms(alloc, fold, map, 0, (span.hi, truth), (-1, id))
}

/// z - n + hi (1 - t).
pub(crate) fn guard_above(
    alloc: Global,
    fold: &Fold<'_>,
    map: &ColumnMap,
    span: Span,
    truth: u32,
    number: u32,
    id: u32,
) -> Result<IpRow, Memory>
    requires map { IsMap map.now.stands }
    requires small_hi { unsigned_abs span.hi ≤ 100000000000000000 }
    requires truth { IsKid fold.now map.now.stands 2 truth }
    requires number { IsKid fold.now map.now.stands 300000000000000000 number }
    requires node { IsKid fold.now map.now.stands 2 id }
    ensures { IfOk result (λ row. IsRowOf fold.now map.now.stands (form span.hi (times_of (pos 1) id ∷ times_of (negsuc 0) number ∷ times_of (neg_ℤ span.hi) truth ∷ [])) row) }
{
    three_terms(
        alloc,
        fold,
        map,
        span.hi,
        (1, id),
        (-1, number),
        (-span.hi, truth),
    )
}

/// n - lo (1 - t) - z.
pub(crate) fn guard_below(
    alloc: Global,
    fold: &Fold<'_>,
    map: &ColumnMap,
    span: Span,
    truth: u32,
    number: u32,
    id: u32,
) -> Result<IpRow, Memory>
    requires map { IsMap map.now.stands }
    requires small_lo { unsigned_abs span.lo ≤ 100000000000000000 }
    requires truth { IsKid fold.now map.now.stands 2 truth }
    requires number { IsKid fold.now map.now.stands 300000000000000000 number }
    requires node { IsKid fold.now map.now.stands 2 id }
    ensures { IfOk result (λ row. IsRowOf fold.now map.now.stands (form (neg_ℤ span.lo) (times_of (pos 1) number ∷ times_of span.lo truth ∷ times_of (negsuc 0) id ∷ [])) row) }
{
    three_terms(
        alloc,
        fold,
        map,
        -span.lo,
        (1, number),
        (span.lo, truth),
        (-1, id),
    )
}

/// n - 2 lo (1 - b) - z.
pub(crate) fn abs_low(
    alloc: Global,
    fold: &Fold<'_>,
    map: &ColumnMap,
    span: Span,
    truth: u32,
    number: u32,
    id: u32,
) -> Result<IpRow, Memory>
    requires map { IsMap map.now.stands }
    requires small_lo { unsigned_abs span.lo ≤ 100000000000000000 }
    requires truth { IsKid fold.now map.now.stands 2 truth }
    requires number { IsKid fold.now map.now.stands 300000000000000000 number }
    requires node { IsKid fold.now map.now.stands 2 id }
    ensures { IfOk result (λ row. IsRowOf fold.now map.now.stands (form (neg_ℤ (pos 2 *ℤ span.lo)) (times_of (pos 1) number ∷ times_of (pos 2 *ℤ span.lo) truth ∷ times_of (negsuc 0) id ∷ [])) row) }
{
    let low = twice(span.lo);
    low_row(alloc, fold, map, low, truth, number, id)
}

/// 2 hi b - n - z.
pub(crate) fn abs_high(
    alloc: Global,
    fold: &Fold<'_>,
    map: &ColumnMap,
    span: Span,
    truth: u32,
    number: u32,
    id: u32,
) -> Result<IpRow, Memory>
    requires map { IsMap map.now.stands }
    requires small_hi { unsigned_abs span.hi ≤ 100000000000000000 }
    requires truth { IsKid fold.now map.now.stands 2 truth }
    requires number { IsKid fold.now map.now.stands 300000000000000000 number }
    requires node { IsKid fold.now map.now.stands 2 id }
    ensures { IfOk result (λ row. IsRowOf fold.now map.now.stands (form (pos 0) (times_of (negsuc 0) number ∷ times_of (pos 2 *ℤ span.hi) truth ∷ times_of (negsuc 0) id ∷ [])) row) }
{
    let high = twice(span.hi);
    high_row(alloc, fold, map, high, truth, number, id)
}

/// n - low (1 - b) - z.
fn low_row(
    alloc: Global,
    fold: &Fold<'_>,
    map: &ColumnMap,
    low: i64,
    truth: u32,
    number: u32,
    id: u32,
) -> Result<IpRow, Memory>
    requires map { IsMap map.now.stands }
    requires small { unsigned_abs low ≤ 200000000000000000 }
    requires truth { IsKid fold.now map.now.stands 2 truth }
    requires number { IsKid fold.now map.now.stands 300000000000000000 number }
    requires node { IsKid fold.now map.now.stands 2 id }
    ensures { IfOk result (λ row. IsRowOf fold.now map.now.stands (form (neg_ℤ low) (times_of (pos 1) number ∷ times_of low truth ∷ times_of (negsuc 0) id ∷ [])) row) }
{
    three_terms(alloc, fold, map, -low, (1, number), (low, truth), (-1, id))
}

/// high b - n - z.
fn high_row(
    alloc: Global,
    fold: &Fold<'_>,
    map: &ColumnMap,
    high: i64,
    truth: u32,
    number: u32,
    id: u32,
) -> Result<IpRow, Memory>
    requires map { IsMap map.now.stands }
    requires small { unsigned_abs high ≤ 200000000000000000 }
    requires truth { IsKid fold.now map.now.stands 2 truth }
    requires number { IsKid fold.now map.now.stands 300000000000000000 number }
    requires node { IsKid fold.now map.now.stands 2 id }
    ensures { IfOk result (λ row. IsRowOf fold.now map.now.stands (form (pos 0) (times_of (negsuc 0) number ∷ times_of high truth ∷ times_of (negsuc 0) id ∷ [])) row) }
{
    three_terms(alloc, fold, map, 0, (-1, number), (high, truth), (-1, id))
}

/// Twice a number.
fn twice(number: i64) -> i64
    requires { unsigned_abs number ≤ 100000000000000000 }
    ensures twice { result ≡ pos 2 *ℤ number }
    ensures small { unsigned_abs result ≤ 200000000000000000 }
{
    2 * number
}

/// The row of a constant and two terms, each a factor with a node.
fn two_terms(
    alloc: Global,
    fold: &Fold<'_>,
    map: &ColumnMap,
    constant: i64,
    one: (i64, u32),
    other: (i64, u32),
) -> Result<IpRow, Memory>
    requires map { IsMap map.now.stands }
    requires small { unsigned_abs constant ≤ 1000000000000000000 }
    requires one { IsLight fold.now map.now.stands one.0 one.1 }
    requires other { IsLight fold.now map.now.stands other.0 other.1 }
    ensures { IfOk result (λ row. IsRowOf fold.now map.now.stands (form constant (times_of one.0 one.1 ∷ times_of other.0 other.1 ∷ [])) row) }
{
    form_row(
        alloc,
        fold,
        map,
        constant,
        &[times(one.0, one.1), times(other.0, other.1)],
    )
}

/// The row of a constant and three terms, each a factor with a node.
fn three_terms(
    alloc: Global,
    fold: &Fold<'_>,
    map: &ColumnMap,
    constant: i64,
    one: (i64, u32),
    other: (i64, u32),
    third: (i64, u32),
) -> Result<IpRow, Memory>
    requires map { IsMap map.now.stands }
    requires small { unsigned_abs constant ≤ 1000000000000000000 }
    requires one { IsLight fold.now map.now.stands one.0 one.1 }
    requires other { IsLight fold.now map.now.stands other.0 other.1 }
    requires third { IsLight fold.now map.now.stands third.0 third.1 }
    ensures { IfOk result (λ row. IsRowOf fold.now map.now.stands (form constant (times_of one.0 one.1 ∷ times_of other.0 other.1 ∷ times_of third.0 third.1 ∷ [])) row) }
{
    form_row(
        alloc,
        fold,
        map,
        constant,
        &[
            times(one.0, one.1),
            times(other.0, other.1),
            times(third.0, third.1),
        ],
    )
}
