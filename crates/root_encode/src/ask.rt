//! What is asked of a truth, by its kind.
ghost use Rattle.std.specs.Prelude.{◌≡◌, ◌<◌, ◌++◌, ◌∷◌, [], ◌-ℤ◌, pos, negsuc, cond, not, flat_map, length, unsigned_abs, ◌≤◌, ◌+◌, All, OnOk};
ghost use Rattle.prov_fold.specs.Graphs.{HasTruth, HasNumber, node, size};
ghost use Rattle.prov_arena.specs.Formulas.{AndNode, OrNode, PosNode};
ghost use Rattle.bool_encode.specs.Forms.{form};
ghost use Rattle.bool_encode.specs.Stands.{IsMap};
ghost use Rattle.bool_encode.specs.Rows.{IsJoinedOn};
ghost use Rattle.bool_encode.specs.Tables.{times as times_of};
ghost use Rattle.root_encode.specs.Light.{IsLightNode};
ghost use Rattle.root_encode.specs.Roots.{AreJoinedOn, root_forms, sum_form, pos_form, pres_form};
ghost use Rattle.root_encode.specs.Told.{Adds};

use crate::rows::{never, sum_row, term_row};
use base_kit::{List, Memory};
use bool_encode::ColumnMap;
use ip_rows::IpRow;
use prov_fold::{Fold, Part};
use std::alloc::Global;

/// Appends the rows that ask that a truth holds, or that it does not.
#[cycle(ask)]
pub(crate) fn ask(
    alloc: Global,
    fold: &Fold<'_>,
    map: &ColumnMap,
    rows: &mut List<IpRow>,
    holds: bool,
    id: u32,
) -> Result<(), Memory>
    requires map { IsMap map.now.stands }
    requires truth { HasTruth fold.now id }
    requires named { AreJoinedOn fold.now map.now.stands (root_forms fold.now holds id) }
    ensures { OnOk result (Adds fold.now map.now.stands (root_forms fold.now holds id) rows.old rows.new) }
{
    let _range = fold.range(id);
    match fold.prov().node(id) {
        Part::Not(truth) => ask(alloc, fold, map, rows, !holds, truth),
        Part::And(kids) => {
            if holds {
                ask_each(alloc, fold, map, rows, holds, kids, id)
            } else {
                ask_lack(alloc, fold, map, rows, kids)
            }
        }
        Part::Or(kids) => {
            if holds {
                ask_one(alloc, fold, map, rows, kids)
            } else {
                ask_each(alloc, fold, map, rows, holds, kids, id)
            }
        }
        Part::Pos(number) => ask_pos(alloc, fold, map, rows, holds, number),
        Part::Pres(_) => ask_pres(alloc, fold, map, rows, holds, id),
        Part::False => ask_known(alloc, fold, map, rows, !holds),
        Part::True => ask_known(alloc, fold, map, rows, holds),
        _ => Ok(()),
    }
}

/// The same of truths in turn, which stand before a place.
#[cycle(ask)]
fn ask_each(
    alloc: Global,
    fold: &Fold<'_>,
    map: &ColumnMap,
    rows: &mut List<IpRow>,
    holds: bool,
    kids: &[u32],
    id: u32,
) -> Result<(), Memory>
    requires map { IsMap map.now.stands }
    requires below { All (λ kid. kid < id) kids.now }
    requires truths { All (λ kid. HasTruth fold.now kid) kids.now }
    requires named { AreJoinedOn fold.now map.now.stands (flat_map (root_forms fold.now holds) kids.now) }
    ensures { OnOk result (Adds fold.now map.now.stands (flat_map (root_forms fold.now holds) kids.now) rows.old rows.new) }
{
    for kid in kids {
        ask(alloc, fold, map, rows, holds, *kid)?;
    }
    Ok(())
}

/// Appends the row that asks that one of the truths holds.
fn ask_one(
    alloc: Global,
    fold: &Fold<'_>,
    map: &ColumnMap,
    rows: &mut List<IpRow>,
    kids: &[u32],
) -> Result<(), Memory>
    requires map { IsMap map.now.stands }
    requires kids { All (λ z. IsLightNode fold.now map.now.stands 2 z) kids.now }
    requires named { IsJoinedOn fold.now map.now.stands (sum_form (negsuc 0) (pos 1) kids.now).pieces }
    ensures { OnOk result (Adds fold.now map.now.stands (sum_form (negsuc 0) (pos 1) kids.now ∷ []) rows.old rows.new) }
{
    let row = sum_row(alloc, fold, map, -1, 1, kids)?;
    Ok(rows.push(row)?)
}

/// Appends the row that asks that one of the truths does not hold.
fn ask_lack(
    alloc: Global,
    fold: &Fold<'_>,
    map: &ColumnMap,
    rows: &mut List<IpRow>,
    kids: &[u32],
) -> Result<(), Memory>
    requires map { IsMap map.now.stands }
    requires kids { All (λ z. IsLightNode fold.now map.now.stands 2 z) kids.now }
    requires named { IsJoinedOn fold.now map.now.stands (sum_form (pos (length kids.now) -ℤ pos 1) (negsuc 0) kids.now).pieces }
    ensures { OnOk result (Adds fold.now map.now.stands (sum_form (pos (length kids.now) -ℤ pos 1) (negsuc 0) kids.now ∷ []) rows.old rows.new) }
{
    let row = sum_row(alloc, fold, map, all_but_one(kids), -1, kids)?;
    Ok(rows.push(row)?)
}

/// How many there are, less one.
fn all_but_one(kids: &[u32]) -> i64
    ensures value { result ≡ pos (length kids.now) -ℤ pos 1 }
    ensures small { unsigned_abs result ≤ length kids.now + 1 }
{
    kids.len() as i64 - 1
}

/// Appends the row that asks that a number is 0 or above, or that it is below.
fn ask_pos(
    alloc: Global,
    fold: &Fold<'_>,
    map: &ColumnMap,
    rows: &mut List<IpRow>,
    holds: bool,
    number: u32,
) -> Result<(), Memory>
    requires map { IsMap map.now.stands }
    requires number { IsLightNode fold.now map.now.stands 300000000000000000 number }
    requires named { IsJoinedOn fold.now map.now.stands (pos_form holds number).pieces }
    ensures { OnOk result (Adds fold.now map.now.stands (pos_form holds number ∷ []) rows.old rows.new) }
{
    let row = if holds {
        term_row(alloc, fold, map, 0, 1, number)?
    } else {
        term_row(alloc, fold, map, -1, -1, number)?
    };
    Ok(rows.push(row)?)
}

/// Appends the row that asks that a choice is 1, or that it is 0.
fn ask_pres(
    alloc: Global,
    fold: &Fold<'_>,
    map: &ColumnMap,
    rows: &mut List<IpRow>,
    holds: bool,
    id: u32,
) -> Result<(), Memory>
    requires map { IsMap map.now.stands }
    requires node { IsLightNode fold.now map.now.stands 2 id }
    requires named { IsJoinedOn fold.now map.now.stands (pres_form holds id).pieces }
    ensures { OnOk result (Adds fold.now map.now.stands (pres_form holds id ∷ []) rows.old rows.new) }
{
    let row = if holds {
        term_row(alloc, fold, map, -1, 1, id)?
    } else {
        term_row(alloc, fold, map, 0, -1, id)?
    };
    Ok(rows.push(row)?)
}

/// Appends the row that never holds, where what is asked is known not to be so.
fn ask_known(
    alloc: Global,
    fold: &Fold<'_>,
    map: &ColumnMap,
    rows: &mut List<IpRow>,
    so: bool,
) -> Result<(), Memory>
    requires map { IsMap map.now.stands }
    ensures { OnOk result (Adds fold.now map.now.stands (cond so [] (form (negsuc 0) [] ∷ [])) rows.old rows.new) }
{
    if so {
        return Ok(());
    }
    let row = never(alloc, fold, map)?;
    Ok(rows.push(row)?)
}
