//! The rows of a Pos, a Guard, an Abs or a Tot.
ghost use Rattle.std.specs.Prelude.{◌≡◌, ◌<◌, ◌∷◌, All, IfOk, true};
ghost use Rattle.prov_fold.specs.Graphs.{node, size};
ghost use Rattle.bool_encode.specs.declared.form.Key.TheVariants as key;
ghost use Rattle.bool_encode.specs.Stands.{IsMap};
ghost use Rattle.bool_encode.specs.Columns.{IsOnMap};
ghost use Rattle.bool_encode.specs.Rows.{AreRows};
ghost use Rattle.bool_encode.specs.Tellings.{Tells};
ghost use Rattle.cmp_encode.specs.Tables.{forms_of, is_compared, named_by};

use crate::kinds::{abs_rows, guard_rows, pos_rows, tot_rows};
use base_kit::{List, Memory};
use bool_encode::ColumnMap;
use ip_rows::IpRow;
use prov_fold::{Fold, Part};
use std::alloc::Global;

/// The rows of a Pos, a Guard, an Abs or a Tot. With the places right that they name, the rows hold exactly where the node's
/// column is right too, at both ends of every range. The columns of these places and of the node are on the map. `Err` is
/// want of memory (docs/ENCODING.md).
pub fn number_rows(
    alloc: Global,
    fold: &Fold<'_>,
    map: &ColumnMap,
    id: u32,
) -> Result<List<IpRow>, Memory>
    requires map { IsMap map.now.stands }
    requires there { id < size fold.now }
    requires kind { is_compared (node fold.now id) ≡ true }
    requires named { All (λ z. IsOnMap fold.now map.now.stands (key.Node z)) (id ∷ named_by fold.now (node fold.now id)) }
    ensures rows { IfOk result (λ rows. AreRows fold.now map.now.stands (forms_of fold.now id (node fold.now id)) rows) }
    ensures tells { IfOk result (λ rows. Tells fold.now map.now.stands id (named_by fold.now (node fold.now id)) rows) }
{
    let _range = fold.range(id);
    match fold.prov().node(id) {
        Part::Pos(number) => pos_rows(alloc, fold, map, number, id),
        Part::Guard(truth, number) => guard_rows(alloc, fold, map, truth, number, id),
        Part::Abs(number) => abs_rows(alloc, fold, map, number, id),
        Part::Tot(number) => tot_rows(alloc, fold, map, number, id),
        _ => unreachable!(),
    }
}
