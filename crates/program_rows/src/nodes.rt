//! The rows of a node.
ghost use Rattle.std.specs.Prelude.{◌<◌, IfOk};
ghost use Rattle.prov_fold.specs.Graphs.{node, size};
ghost use Rattle.bool_encode.specs.Stands.{IsMap};
ghost use Rattle.bool_encode.specs.Rows.{AreRows};
ghost use Rattle.cmp_encode.specs.Tables.{forms_of};
ghost use Rattle.program_rows.specs.Gathering.{HasNames};

use base_kit::{List, Memory};
use bool_encode::{ColumnMap, bool_rows};
use cmp_encode::number_rows;
use ip_rows::IpRow;
use least_encode::least_rows;
use prov_fold::{Fold, Part};
use std::alloc::Global;
use used_columns::aid;

/// The rows of a node, of which a presence, a cell and what has no column of its own have none.
pub(crate) fn node_rows(
    alloc: Global,
    fold: &Fold<'_>,
    map: &ColumnMap,
    id: u32,
) -> Result<List<IpRow>, Memory>
    requires map { IsMap map.now.stands }
    requires there { id < size fold.now }
    requires names { HasNames fold.now map.now.stands id }
    ensures rows { IfOk result (λ rows. AreRows fold.now map.now.stands (forms_of fold.now id (node fold.now id)) rows) }
{
    match fold.prov().node(id) {
        Part::And(_) => bool_rows(alloc, fold, map, id),
        Part::Or(_) => bool_rows(alloc, fold, map, id),
        Part::Pos(_) => number_rows(alloc, fold, map, id),
        Part::Guard(..) => number_rows(alloc, fold, map, id),
        Part::Abs(_) => number_rows(alloc, fold, map, id),
        Part::Tot(_) => number_rows(alloc, fold, map, id),
        Part::Min(_) => {
            let some_pair = aid(alloc, fold, id)?;
            least_rows(alloc, fold, map, id, some_pair)
        }
        _ => Ok(List::new(alloc)),
    }
}
