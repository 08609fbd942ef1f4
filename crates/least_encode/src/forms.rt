//! The rows of a Min, one by one.
ghost use Rattle.std.specs.Prelude.{◌≡◌, ◌<◌, ◌≤◌, ◌^◌, pos, negsuc, neg_ℤ, unsigned_abs, [], ◌∷◌, length, IfOk};
ghost use Rattle.bool_encode.specs.declared.form.Key.TheVariants as key;
ghost use Rattle.bool_encode.specs.Columns.{IsOnMap};
ghost use Rattle.bool_encode.specs.Forms.{form};
ghost use Rattle.bool_encode.specs.Stands.{IsMap};
ghost use Rattle.bool_encode.specs.Rows.{IsKid, IsRowOf};
ghost use Rattle.bool_encode.specs.Tables.{times as times_of};
ghost use Rattle.cmp_encode.specs.Tables.{selects as selects_of, selectors};
ghost use Rattle.least_encode.specs.Groups.{AreKidPairs};

use base_kit::Memory;
use bool_encode::{ColumnMap, Key, Piece, form_row, times};
use ip_rows::IpRow;
use prov_fold::{Fold, Pair};
use std::alloc::Global;

/// A factor times the selector of a pair.
fn selects(factor: i64, id: u32, pair: u32) -> Piece
    ensures { result ≡ selects_of factor id pair }
{
    Piece {
        factor,
        key: Key::Selector { node: id, pair },
    }
}

/// t - w of a pair.
#[tactic(auto, using(crate::proofs::Weights::selector_light))]
pub(crate) fn present_row(
    alloc: Global,
    fold: &Fold<'_>,
    map: &ColumnMap,
    truth: u32,
    id: u32,
    pair: u32,
) -> Result<IpRow, Memory>
    requires map { IsMap map.now.stands }
    requires truth { IsKid fold.now map.now.stands 2 truth }
    requires chosen { IsOnMap fold.now map.now.stands (key.Selector id pair) }
    ensures { IfOk result (λ row. IsRowOf fold.now map.now.stands (form (pos 0) (times_of (pos 1) truth ∷ selects_of (negsuc 0) id pair ∷ [])) row) }
{
    form_row(
        alloc,
        fold,
        map,
        0,
        &[times(1, truth), selects(-1, id, pair)],
    )
}

/// n + gap (1 - t) - z of a pair.
pub(crate) fn above_row(
    alloc: Global,
    fold: &Fold<'_>,
    map: &ColumnMap,
    gap: i64,
    pair: Pair,
    id: u32,
) -> Result<IpRow, Memory>
    requires map { IsMap map.now.stands }
    requires small { unsigned_abs gap ≤ 200000000000000000 }
    requires truth { IsKid fold.now map.now.stands 2 pair.truth }
    requires number { IsKid fold.now map.now.stands 300000000000000000 pair.number }
    requires node { IsKid fold.now map.now.stands 2 id }
    ensures { IfOk result (λ row. IsRowOf fold.now map.now.stands (form gap (times_of (pos 1) pair.number ∷ times_of (neg_ℤ gap) pair.truth ∷ times_of (negsuc 0) id ∷ [])) row) }
{
    form_row(
        alloc,
        fold,
        map,
        gap,
        &[
            times(1, pair.number),
            times(-gap, pair.truth),
            times(-1, id),
        ],
    )
}

/// z - n + gap (1 - w) of a pair.
#[tactic(auto, using(crate::proofs::Weights::selector_light))]
pub(crate) fn below_row(
    alloc: Global,
    fold: &Fold<'_>,
    map: &ColumnMap,
    gap: i64,
    number: u32,
    id: u32,
    pair: u32,
) -> Result<IpRow, Memory>
    requires map { IsMap map.now.stands }
    requires small { unsigned_abs gap ≤ 200000000000000000 }
    requires number { IsKid fold.now map.now.stands 300000000000000000 number }
    requires node { IsKid fold.now map.now.stands 2 id }
    requires chosen { IsOnMap fold.now map.now.stands (key.Selector id pair) }
    ensures { IfOk result (λ row. IsRowOf fold.now map.now.stands (form gap (times_of (pos 1) id ∷ times_of (negsuc 0) number ∷ selects_of (neg_ℤ gap) id pair ∷ [])) row) }
{
    form_row(
        alloc,
        fold,
        map,
        gap,
        &[times(1, id), times(-1, number), selects(-gap, id, pair)],
    )
}

/// z - lo b.
pub(crate) fn low_row(
    alloc: Global,
    fold: &Fold<'_>,
    map: &ColumnMap,
    lo: i64,
    some_pair: u32,
    id: u32,
) -> Result<IpRow, Memory>
    requires map { IsMap map.now.stands }
    requires small { unsigned_abs lo ≤ 100000000000000000 }
    requires some_pair { IsKid fold.now map.now.stands 2 some_pair }
    requires node { IsKid fold.now map.now.stands 2 id }
    ensures { IfOk result (λ row. IsRowOf fold.now map.now.stands (form (pos 0) (times_of (pos 1) id ∷ times_of (neg_ℤ lo) some_pair ∷ [])) row) }
{
    form_row(alloc, fold, map, 0, &[times(1, id), times(-lo, some_pair)])
}

/// hi b - z.
pub(crate) fn high_row(
    alloc: Global,
    fold: &Fold<'_>,
    map: &ColumnMap,
    hi: i64,
    some_pair: u32,
    id: u32,
) -> Result<IpRow, Memory>
    requires map { IsMap map.now.stands }
    requires small { unsigned_abs hi ≤ 100000000000000000 }
    requires some_pair { IsKid fold.now map.now.stands 2 some_pair }
    requires node { IsKid fold.now map.now.stands 2 id }
    ensures { IfOk result (λ row. IsRowOf fold.now map.now.stands (form (pos 0) (times_of hi some_pair ∷ times_of (negsuc 0) id ∷ [])) row) }
{
    form_row(alloc, fold, map, 0, &[times(hi, some_pair), times(-1, id)])
}

/// The sum of the selectors less b, or the same with the other sign.
pub(crate) fn sum_row(
    alloc: Global,
    fold: &Fold<'_>,
    map: &ColumnMap,
    sign: i64,
    pairs: &[Pair],
    some_pair: u32,
    id: u32,
) -> Result<IpRow, Memory>
    requires map { IsMap map.now.stands }
    requires sign { unsigned_abs sign ≤ 1 }
    requires few { length pairs.now < 2 ^ 32 }
    requires pairs { AreKidPairs fold.now map.now.stands id pairs.now }
    requires some_pair { IsKid fold.now map.now.stands 2 some_pair }
    ensures { IfOk result (λ row. IsRowOf fold.now map.now.stands (form (pos 0) (times_of (neg_ℤ sign) some_pair ∷ selectors sign id 0 pairs.now)) row) }
{
    let mut pieces = Vec::new(alloc);
    pieces.push(times(-sign, some_pair))?;
    for (pair, _) in pairs.iter().enumerate() {
        pieces.push(selects(sign, id, pair as u32))?;
    }
    form_row(alloc, fold, map, 0, pieces.as_slice())
}
