//! The sides of a box: how a split parts one of them, and the box's least point.

ghost use Rattle.std.specs.Prelude.{◌≡◌, ◌<ℤ◌, IfOk};
ghost use Rattle.branch_tree.specs.Boxes as boxes;
ghost use Rattle.branch_tree.specs.Listing.{lows};

use base_kit::{List, Memory};
use ip_rows::Bounds;
use std::alloc::Global;

/// The numbers of a side up to `at`, as a split at `at` leaves them in its lower part (docs/ANSWERS.md).
pub fn low_side(side: Bounds, at: i64) -> Bounds
    ensures { result ≡ boxes.low_side side at }
{
    Bounds {
        lo: side.lo,
        hi: at,
    }
}

/// The numbers of a side above `at`, as a split at `at` leaves them in its upper part (docs/ANSWERS.md). `at` is less
/// than the side's greatest number.
pub fn high_side(side: Bounds, at: i64) -> Bounds
    requires { at <ℤ side.hi }
    ensures { result ≡ boxes.high_side side at }
{
    Bounds {
        lo: at + 1,
        hi: side.hi,
    }
}

/// The least point of a box: the least number of each column.
pub fn lowest_point(alloc: Global, sides: &[Bounds]) -> Result<List<i64>, Memory>
    ensures { IfOk result (λ point. point ≡ lows sides.now) }
{
    let mut point = List::new(alloc);
    for side in sides {
        point.push(side.lo)?;
    }
    Ok(point)
}
