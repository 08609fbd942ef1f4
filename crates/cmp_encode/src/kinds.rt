//! The rows of each kind, as forms.
ghost use Rattle.std.specs.Prelude.{◌≡◌, ◌<◌, ◌≤◌, unsigned_abs, [], ◌∷◌, IfOk};
ghost use Rattle.prov_arena.specs.Formulas.{AbsNode};
ghost use Rattle.prov_fold.specs.Graphs.{range, size};
ghost use Rattle.bool_encode.specs.Stands.{IsMap};
ghost use Rattle.bool_encode.specs.Rows.{AreRows, IsKid};
ghost use Rattle.cmp_encode.specs.Tables.{pos_forms, guard_forms, abs_forms, tot_forms, aid_of};

use crate::forms::{
    abs_high, abs_low, equal_above, equal_below, guard_above, guard_below, guard_high, guard_low,
    pos_high, pos_low, together,
};
use base_kit::{List, Memory};
use bool_encode::ColumnMap;
use ip_rows::IpRow;
use prov_fold::{Fold, Part, Span};
use std::alloc::Global;

/// The rows of a Pos: z is 1 where n is 0 or above, else 0.
pub(crate) fn pos_rows(
    alloc: Global,
    fold: &Fold<'_>,
    map: &ColumnMap,
    number: u32,
    id: u32,
) -> Result<List<IpRow>, Memory>
    requires map { IsMap map.now.stands }
    requires number { IsKid fold.now map.now.stands 300000000000000000 number }
    requires node { IsKid fold.now map.now.stands 2 id }
    ensures { IfOk result (λ rows. AreRows fold.now map.now.stands (pos_forms (range fold.now number) number id) rows) }
{
    let span = span(fold, number);
    let low = pos_low(alloc, fold, map, span, number, id)?;
    let high = pos_high(alloc, fold, map, span, number, id)?;
    two(alloc, low, high)
}

/// The rows of a Guard: z is n where t is 1, else 0.
pub(crate) fn guard_rows(
    alloc: Global,
    fold: &Fold<'_>,
    map: &ColumnMap,
    truth: u32,
    number: u32,
    id: u32,
) -> Result<List<IpRow>, Memory>
    requires map { IsMap map.now.stands }
    requires truth { IsKid fold.now map.now.stands 2 truth }
    requires number { IsKid fold.now map.now.stands 300000000000000000 number }
    requires node { IsKid fold.now map.now.stands 2 id }
    ensures { IfOk result (λ rows. AreRows fold.now map.now.stands (guard_forms (range fold.now number) truth number id) rows) }
{
    let span = span(fold, number);
    let low = guard_low(alloc, fold, map, span, truth, id)?;
    let high = guard_high(alloc, fold, map, span, truth, id)?;
    let above = guard_above(alloc, fold, map, span, truth, number, id)?;
    let below = guard_below(alloc, fold, map, span, truth, number, id)?;
    four(alloc, low, high, above, below)
}

/// The rows of an Abs, beside which stands the truth that its number is 0 or above: z is the size of n.
pub(crate) fn abs_rows(
    alloc: Global,
    fold: &Fold<'_>,
    map: &ColumnMap,
    number: u32,
    id: u32,
) -> Result<List<IpRow>, Memory>
    requires map { IsMap map.now.stands }
    requires number { IsKid fold.now map.now.stands 300000000000000000 number }
    requires node { IsKid fold.now map.now.stands 2 id }
    requires aid { IsKid fold.now map.now.stands 2 (aid_of fold.now (AbsNode number)) }
    ensures { IfOk result (λ rows. AreRows fold.now map.now.stands (abs_forms (range fold.now number) number (aid_of fold.now (AbsNode number)) id) rows) }
{
    let span = span(fold, number);
    let aid = aid(fold, number);
    let above = equal_below(alloc, fold, map, number, id)?;
    let below = together(alloc, fold, map, number, id)?;
    let low = abs_low(alloc, fold, map, span, aid, number, id)?;
    let high = abs_high(alloc, fold, map, span, aid, number, id)?;
    four(alloc, above, below, low, high)
}

/// The rows of a Tot: z is n.
pub(crate) fn tot_rows(
    alloc: Global,
    fold: &Fold<'_>,
    map: &ColumnMap,
    number: u32,
    id: u32,
) -> Result<List<IpRow>, Memory>
    requires map { IsMap map.now.stands }
    requires number { IsKid fold.now map.now.stands 300000000000000000 number }
    requires node { IsKid fold.now map.now.stands 2 id }
    ensures { IfOk result (λ rows. AreRows fold.now map.now.stands (tot_forms number id) rows) }
{
    let above = equal_below(alloc, fold, map, number, id)?;
    let below = equal_above(alloc, fold, map, number, id)?;
    two(alloc, above, below)
}

/// The range of a node, whose ends do not pass 10^17 in size.
fn span(fold: &Fold<'_>, id: u32) -> Span
    requires { id < size fold.now }
    ensures range { result ≡ range fold.now id }
    ensures small_lo { unsigned_abs result.lo ≤ 100000000000000000 }
    ensures small_hi { unsigned_abs result.hi ≤ 100000000000000000 }
{
    fold.range(id)
}

/// The truth that a number is 0 or above, which stands before the number's Abs.
fn aid(fold: &Fold<'_>, number: u32) -> u32
    requires { number < size fold.now }
    ensures { result ≡ aid_of fold.now (AbsNode number) }
{
    match fold.prov().find(Part::Pos(number)) {
        Some(place) => place,
        None => 0,
    }
}

/// Two rows in order.
fn two(alloc: Global, first: IpRow, second: IpRow) -> Result<List<IpRow>, Memory>
    ensures { IfOk result (λ rows. rows ≡ first ∷ second ∷ []) }
{
    let mut rows = List::new(alloc);
    rows.push(first)?;
    rows.push(second)?;
    Ok(rows)
}

/// Four rows in order.
fn four(
    alloc: Global,
    first: IpRow,
    second: IpRow,
    third: IpRow,
    fourth: IpRow,
) -> Result<List<IpRow>, Memory>
    ensures { IfOk result (λ rows. rows ≡ first ∷ second ∷ third ∷ fourth ∷ []) }
{
    let mut rows = List::new(alloc);
    rows.push(first)?;
    rows.push(second)?;
    rows.push(third)?;
    rows.push(fourth)?;
    Ok(rows)
}
