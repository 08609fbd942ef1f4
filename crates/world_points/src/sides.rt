//! The box of a query's world columns.

ghost use Rattle.std.specs.Prelude.{◌≡◌, IfOk};
ghost use Rattle.world_points.specs.Points as spec;

use base_kit::{List, Memory};
use ip_rows::Bounds;
use std::alloc::Global;
use tiql_query::WorldColumn;

/// The sides of each column: its bounds, which hold 0 as well where its row may be left out (docs/ANSWERS.md).
pub fn sides_of(alloc: Global, columns: &[WorldColumn]) -> Result<List<Bounds>, Memory>
    ensures { IfOk result (λ sides. sides ≡ spec.root columns.now) }
{
    let mut sides = List::new(alloc);
    for column in columns {
        sides.push(side_of(column))?;
    }
    Ok(sides)
}

/// The sides of one column.
#[tactic(auto, unfolding(crate::specs::Points::side))]
fn side_of(column: &WorldColumn) -> Bounds
    ensures { result ≡ spec.side column.now }
{
    if column.droppable {
        Bounds {
            lo: column.lo.min(0),
            hi: column.hi.max(0),
        }
    } else {
        Bounds {
            lo: column.lo,
            hi: column.hi,
        }
    }
}
