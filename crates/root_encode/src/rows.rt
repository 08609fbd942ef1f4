//! Single rows, and all rows of a root.
ghost use Rattle.std.specs.Prelude.{◌≡◌, ◌+◌, ◌≤◌, pos, negsuc, unsigned_abs, true, [], ◌∷◌, map, length, All, IfOk};
ghost use Rattle.prov_fold.specs.Graphs.{HasTruth};
ghost use Rattle.bool_encode.specs.Forms.{form};
ghost use Rattle.bool_encode.specs.Stands.{IsMap};
ghost use Rattle.bool_encode.specs.Rows.{AreRows, IsJoinedOn, IsRowOf};
ghost use Rattle.bool_encode.specs.Tables.{times as times_of};
ghost use Rattle.root_encode.specs.Light.{IsLightNode};
ghost use Rattle.root_encode.specs.Roots.{AreJoinedOn, root_forms, sum_form};
ghost use Rattle.root_encode.specs.Told.{TellsRoot};

use crate::ask::ask;
use base_kit::{List, Memory};
use bool_encode::{ColumnMap, joined_row, times};
use ip_rows::IpRow;
use prov_fold::Fold;
use std::alloc::Global;

/// No memory holds so many kids.
const MOST_KIDS: usize = 1 << 40;

/// The rows that ask that a truth holds. At points at which each of its forms comes to what it is on a world, they hold exactly
/// where the truth does. What is left of each form once like columns are joined is on the map: of `Or(t, Not(t))` nothing is, so
/// that `t` needs no column. `Err` is want of memory (docs/ENCODING.md, "Roots").
pub fn root_rows(
    alloc: Global,
    fold: &Fold<'_>,
    map: &ColumnMap,
    root: u32,
) -> Result<List<IpRow>, Memory>
    requires map { IsMap map.now.stands }
    requires root { HasTruth fold.now root }
    requires named { AreJoinedOn fold.now map.now.stands (root_forms fold.now true root) }
    ensures rows { IfOk result (λ rows. AreRows fold.now map.now.stands (root_forms fold.now true root) rows) }
    ensures tells { IfOk result (λ rows. TellsRoot fold.now map.now.stands root rows) }
{
    let _range = fold.range(root);
    let mut rows = List::new(alloc);
    ask(alloc, fold, map, &mut rows, true, root)?;
    Ok(rows)
}

/// The row of a constant and one term.
pub(crate) fn term_row(
    alloc: Global,
    fold: &Fold<'_>,
    map: &ColumnMap,
    constant: i64,
    sign: i64,
    id: u32,
) -> Result<IpRow, Memory>
    requires map { IsMap map.now.stands }
    requires small { unsigned_abs constant ≤ 1000000000000000000 }
    requires sign { unsigned_abs sign ≤ 1 }
    requires node { IsLightNode fold.now map.now.stands 300000000000000000 id }
    requires named { IsJoinedOn fold.now map.now.stands (times_of sign id ∷ []) }
    ensures { IfOk result (λ row. IsRowOf fold.now map.now.stands (form constant (times_of sign id ∷ [])) row) }
{
    joined_row(alloc, fold, map, constant, &[times(sign, id)])
}

/// The row that never holds.
pub(crate) fn never(alloc: Global, fold: &Fold<'_>, map: &ColumnMap) -> Result<IpRow, Memory>
    requires map { IsMap map.now.stands }
    ensures { IfOk result (λ row. IsRowOf fold.now map.now.stands (form (negsuc 0) []) row) }
{
    joined_row(alloc, fold, map, -1, &[])
}

/// The row of a constant and the sum of truths, with a sign.
pub(crate) fn sum_row(
    alloc: Global,
    fold: &Fold<'_>,
    map: &ColumnMap,
    constant: i64,
    sign: i64,
    kids: &[u32],
) -> Result<IpRow, Memory>
    requires map { IsMap map.now.stands }
    requires kids { All (λ z. IsLightNode fold.now map.now.stands 2 z) kids.now }
    requires named { IsJoinedOn fold.now map.now.stands (sum_form constant sign kids.now).pieces }
    requires sign { unsigned_abs sign ≤ 1 }
    requires constant { unsigned_abs constant ≤ length kids.now + 1 }
    ensures { IfOk result (λ row. IsRowOf fold.now map.now.stands (sum_form constant sign kids.now) row) }
{
    if kids.len() > MOST_KIDS {
        return Err(Memory);
    }
    let mut pieces = Vec::new(alloc);
    for kid in kids {
        pieces.push(times(sign, *kid))?;
    }
    joined_row(alloc, fold, map, constant, pieces.as_slice())
}
