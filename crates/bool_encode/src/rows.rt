//! The rows of And and Or.
ghost use Rattle.std.specs.Prelude.{◌≡◌, ◌+◌, ◌<◌, ◌≤◌, ◌^◌, ◌-ℤ◌, neg_ℤ, pos, unsigned_abs, [], ◌∷◌, length, All, IfOk, true};
ghost use Rattle.prov_arena.specs.Formulas.{kids_of};
ghost use Rattle.prov_fold.specs.Graphs.{node, size};
ghost use Rattle.prov_fold.specs.Kinds.{is_truth};
ghost use Rattle.bool_encode.specs.declared.form.Key.TheVariants as key;
ghost use Rattle.bool_encode.specs.Forms.{form};
ghost use Rattle.bool_encode.specs.Stands.{IsMap};
ghost use Rattle.bool_encode.specs.Columns.{IsOnMap};
ghost use Rattle.bool_encode.specs.Rows.{IsRowOf, AreRows, IsKid};
ghost use Rattle.bool_encode.specs.Tables.{bool_forms, and_forms, or_forms, each_form, last_form, is_joined, times as times_of};
ghost use Rattle.bool_encode.specs.Tellings.{Tells};

use crate::{ColumnMap, Piece, form_row, times};
use base_kit::{List, Memory};
use ip_rows::IpRow;
use prov_fold::{Fold, Part};
use std::alloc::Global;

/// No memory holds so many kids.
const MOST_KIDS: usize = 1 << 40;

/// The rows of an And or an Or, which are 0 or 1 by their kids: with all of them right, the rows hold exactly where the
/// node's column is right too. The columns of the node and of its kids are on the map. `Err` is want of memory
/// (docs/ENCODING.md).
pub fn bool_rows(
    alloc: Global,
    fold: &Fold<'_>,
    map: &ColumnMap,
    id: u32,
) -> Result<List<IpRow>, Memory>
    requires map { IsMap map.now.stands }
    requires there { id < size fold.now }
    requires kind { is_joined (node fold.now id) ≡ true }
    requires named { All (λ z. IsOnMap fold.now map.now.stands (key.Node z)) (id ∷ kids_of (node fold.now id)) }
    ensures rows { IfOk result (λ rows. AreRows fold.now map.now.stands (bool_forms id (node fold.now id)) rows) }
    ensures tells { IfOk result (λ rows. Tells fold.now map.now.stands id (kids_of (node fold.now id)) rows) }
{
    let _range = fold.range(id);
    match fold.prov().node(id) {
        Part::And(kids) => and_rows(alloc, fold, map, kids, id),
        Part::Or(kids) => or_rows(alloc, fold, map, kids, id),
        _ => unreachable!(),
    }
}

/// The rows of an And.
fn and_rows(
    alloc: Global,
    fold: &Fold<'_>,
    map: &ColumnMap,
    kids: &[u32],
    id: u32,
) -> Result<List<IpRow>, Memory>
    requires map { IsMap map.now.stands }
    requires kids { All (λ z. IsKid fold.now map.now.stands 2 z) (id ∷ kids.now) }
    ensures { IfOk result (λ rows. AreRows fold.now map.now.stands (and_forms kids.now id) rows) }
{
    let mut rows = each_row(alloc, fold, map, 1, kids, id)?;
    rows.push(last_row(alloc, fold, map, 1, all_but_one(kids), kids, id)?)?;
    Ok(rows)
}

/// How many kids there are, less one.
fn all_but_one(kids: &[u32]) -> i64
    ensures value { result ≡ pos (length kids.now) -ℤ pos 1 }
    ensures small { unsigned_abs result ≤ length kids.now + 1 }
{
    kids.len() as i64 - 1
}

/// The rows of an Or.
fn or_rows(
    alloc: Global,
    fold: &Fold<'_>,
    map: &ColumnMap,
    kids: &[u32],
    id: u32,
) -> Result<List<IpRow>, Memory>
    requires map { IsMap map.now.stands }
    requires kids { All (λ z. IsKid fold.now map.now.stands 2 z) (id ∷ kids.now) }
    ensures { IfOk result (λ rows. AreRows fold.now map.now.stands (or_forms kids.now id) rows) }
{
    let mut rows = each_row(alloc, fold, map, -1, kids, id)?;
    rows.push(last_row(alloc, fold, map, -1, 0, kids, id)?)?;
    Ok(rows)
}

/// A row for each kid: of it and the node, with opposite signs.
fn each_row(
    alloc: Global,
    fold: &Fold<'_>,
    map: &ColumnMap,
    sign: i64,
    kids: &[u32],
    id: u32,
) -> Result<List<IpRow>, Memory>
    requires map { IsMap map.now.stands }
    requires kids { All (λ z. IsKid fold.now map.now.stands 2 z) (id ∷ kids.now) }
    requires sign { unsigned_abs sign ≤ 1 }
    ensures { IfOk result (λ rows. AreRows fold.now map.now.stands (each_form sign id kids.now) rows) }
{
    let mut rows = List::new(alloc);
    for kid in kids {
        rows.push(pair_row(alloc, fold, map, sign, *kid, id)?)?;
    }
    Ok(rows)
}

/// The row of one kid.
fn pair_row(
    alloc: Global,
    fold: &Fold<'_>,
    map: &ColumnMap,
    sign: i64,
    kid: u32,
    id: u32,
) -> Result<IpRow, Memory>
    requires map { IsMap map.now.stands }
    requires kid { IsKid fold.now map.now.stands 2 kid }
    requires node { IsKid fold.now map.now.stands 2 id }
    requires sign { unsigned_abs sign ≤ 1 }
    ensures { IfOk result (λ row. IsRowOf fold.now map.now.stands (form (pos 0) (times_of sign kid ∷ times_of (neg_ℤ sign) id ∷ [])) row) }
{
    form_row(alloc, fold, map, 0, &[times(sign, kid), times(-sign, id)])
}

/// The row of the node and all of its kids.
fn last_row(
    alloc: Global,
    fold: &Fold<'_>,
    map: &ColumnMap,
    sign: i64,
    constant: i64,
    kids: &[u32],
    id: u32,
) -> Result<IpRow, Memory>
    requires map { IsMap map.now.stands }
    requires kids { All (λ z. IsKid fold.now map.now.stands 2 z) (id ∷ kids.now) }
    requires sign { unsigned_abs sign ≤ 1 }
    requires constant { unsigned_abs constant ≤ length kids.now + 1 }
    ensures { IfOk result (λ row. IsRowOf fold.now map.now.stands (last_form sign constant id kids.now) row) }
{
    if kids.len() > MOST_KIDS {
        return Err(Memory);
    }
    let mut pieces = Vec::new(alloc);
    pieces.push(times(sign, id))?;
    for kid in kids {
        pieces.push(times(-sign, *kid))?;
    }
    form_row(alloc, fold, map, constant, pieces.as_slice())
}
