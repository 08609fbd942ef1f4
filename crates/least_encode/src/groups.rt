//! The rows of a Min by groups, in the order of its table.
ghost use Rattle.std.specs.Prelude.{◌≡◌, ◌<◌, ◌≤◌, ◌^◌, ◌-ℤ◌, ◌++◌, ◌∷◌, [], unsigned_abs, length, OnOk};
ghost use Rattle.prov_fold.specs.Graphs.{range, size};
ghost use Rattle.bool_encode.specs.Stands.{IsMap};
ghost use Rattle.bool_encode.specs.Rows.{IsKid};
ghost use Rattle.cmp_encode.specs.Tables.{present_forms, sum_forms, above_forms, below_forms, end_forms};
ghost use Rattle.least_encode.specs.Groups.{Appends, AreKidPairs};

use crate::forms::{above_row, below_row, high_row, low_row, present_row, sum_row};
use base_kit::{List, Memory};
use bool_encode::ColumnMap;
use ip_rows::IpRow;
use prov_fold::{Fold, Pair, Span};
use std::alloc::Global;

/// Appends a row for each pair: it is chosen only where it is there.
pub(crate) fn present_rows(
    alloc: Global,
    fold: &Fold<'_>,
    map: &ColumnMap,
    rows: &mut List<IpRow>,
    pairs: &[Pair],
    id: u32,
) -> Result<(), Memory>
    requires map { IsMap map.now.stands }
    requires few { length pairs.now < 2 ^ 32 }
    requires pairs { AreKidPairs fold.now map.now.stands id pairs.now }
    ensures { OnOk result (Appends fold.now map.now.stands (present_forms id 0 pairs.now) rows.old rows.new) }
{
    for (pair, of) in pairs.iter().enumerate() {
        let row = present_row(alloc, fold, map, of.truth, id, pair as u32)?;
        rows.push(row)?;
    }
    Ok(())
}

/// Appends the two rows that ask that one pair is chosen where one is there, else none.
pub(crate) fn sum_rows(
    alloc: Global,
    fold: &Fold<'_>,
    map: &ColumnMap,
    rows: &mut List<IpRow>,
    pairs: &[Pair],
    some_pair: u32,
    id: u32,
) -> Result<(), Memory>
    requires map { IsMap map.now.stands }
    requires few { length pairs.now < 2 ^ 32 }
    requires pairs { AreKidPairs fold.now map.now.stands id pairs.now }
    requires some_pair { IsKid fold.now map.now.stands 2 some_pair }
    ensures { OnOk result (Appends fold.now map.now.stands (sum_forms some_pair id pairs.now) rows.old rows.new) }
{
    let least = sum_row(alloc, fold, map, 1, pairs, some_pair, id)?;
    let most = sum_row(alloc, fold, map, -1, pairs, some_pair, id)?;
    two(rows, least, most)
}

/// Appends a row for each pair: where it is there, the least number is at most its own.
pub(crate) fn above_rows(
    alloc: Global,
    fold: &Fold<'_>,
    map: &ColumnMap,
    rows: &mut List<IpRow>,
    span: Span,
    pairs: &[Pair],
    id: u32,
) -> Result<(), Memory>
    requires map { IsMap map.now.stands }
    requires small { unsigned_abs span.hi ≤ 100000000000000000 }
    requires pairs { AreKidPairs fold.now map.now.stands id pairs.now }
    requires node { IsKid fold.now map.now.stands 2 id }
    ensures { OnOk result (Appends fold.now map.now.stands (above_forms span (range fold.now) id pairs.now) rows.old rows.new) }
{
    for pair in pairs {
        let gap = above_gap(fold, span, *pair);
        rows.push(above_row(alloc, fold, map, gap, *pair, id)?)?;
    }
    Ok(())
}

/// How far the least number may lie above that of a pair which is not there.
fn above_gap(fold: &Fold<'_>, span: Span, pair: Pair) -> i64
    requires there { pair.number < size fold.now }
    requires small { unsigned_abs span.hi ≤ 100000000000000000 }
    ensures gap { result ≡ span.hi -ℤ (range fold.now pair.number).lo }
    ensures small { unsigned_abs result ≤ 200000000000000000 }
{
    span.hi - fold.range(pair.number).lo
}

/// Appends a row for each pair: where it is chosen, the least number is at least its own.
pub(crate) fn below_rows(
    alloc: Global,
    fold: &Fold<'_>,
    map: &ColumnMap,
    rows: &mut List<IpRow>,
    span: Span,
    pairs: &[Pair],
    id: u32,
) -> Result<(), Memory>
    requires map { IsMap map.now.stands }
    requires small { unsigned_abs span.lo ≤ 100000000000000000 }
    requires few { length pairs.now < 2 ^ 32 }
    requires pairs { AreKidPairs fold.now map.now.stands id pairs.now }
    requires node { IsKid fold.now map.now.stands 2 id }
    ensures { OnOk result (Appends fold.now map.now.stands (below_forms span (range fold.now) id 0 pairs.now) rows.old rows.new) }
{
    for (pair, of) in pairs.iter().enumerate() {
        let gap = below_gap(fold, span, *of);
        let row = below_row(alloc, fold, map, gap, of.number, id, pair as u32)?;
        rows.push(row)?;
    }
    Ok(())
}

/// How far the least number may lie below that of a pair which is not chosen.
fn below_gap(fold: &Fold<'_>, span: Span, pair: Pair) -> i64
    requires there { pair.number < size fold.now }
    requires small { unsigned_abs span.lo ≤ 100000000000000000 }
    ensures gap { result ≡ (range fold.now pair.number).hi -ℤ span.lo }
    ensures small { unsigned_abs result ≤ 200000000000000000 }
{
    fold.range(pair.number).hi - span.lo
}

/// Appends the two rows that keep the least number within its narrow range where a pair is there, else at 0.
pub(crate) fn end_rows(
    alloc: Global,
    fold: &Fold<'_>,
    map: &ColumnMap,
    rows: &mut List<IpRow>,
    narrow: Span,
    some_pair: u32,
    id: u32,
) -> Result<(), Memory>
    requires map { IsMap map.now.stands }
    requires small_lo { unsigned_abs narrow.lo ≤ 100000000000000000 }
    requires small_hi { unsigned_abs narrow.hi ≤ 100000000000000000 }
    requires some_pair { IsKid fold.now map.now.stands 2 some_pair }
    requires node { IsKid fold.now map.now.stands 2 id }
    ensures { OnOk result (Appends fold.now map.now.stands (end_forms narrow some_pair id) rows.old rows.new) }
{
    let low = low_row(alloc, fold, map, narrow.lo, some_pair, id)?;
    let high = high_row(alloc, fold, map, narrow.hi, some_pair, id)?;
    two(rows, low, high)
}

/// Appends two rows in order.
fn two(rows: &mut List<IpRow>, first: IpRow, second: IpRow) -> Result<(), Memory>
    ensures { OnOk result (rows.new ≡ rows.old ++ first ∷ second ∷ []) }
{
    rows.push(first)?;
    Ok(rows.push(second)?)
}
