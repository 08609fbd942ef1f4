//! The world column at which a box is split, and the two halves of its sides.

ghost use Rattle.std.specs.Prelude.{◌≡◌, ◌<◌, ◌≤◌, ◌≤ℤ◌, ◌<ℤ◌, length, take, slice_set, position, IfOk};
ghost use Rattle.branch_tree.specs.Boxes as boxes;
ghost use Rattle.branch_tree.specs.Listing.{has_two, lows, IsMiddle};

use base_kit::{List, Memory};
use branch_tree::{high_side, low_side, lowest_point};
use ip_rows::Bounds;
use std::alloc::Global;

/// The first column that has two values, of so many first ones.
pub(crate) fn first_open(sides: &[Bounds], count: usize) -> Option<usize>
    requires { count ≤ length sides.now }
    ensures { result ≡ position has_two (take count sides.now) }
{
    sides[..count].iter().position(|side| side.lo < side.hi)
}

/// The least numbers of so many first columns.
pub(crate) fn first_lows(alloc: Global, sides: &[Bounds], count: usize) -> Result<List<i64>, Memory>
    requires { count ≤ length sides.now }
    ensures { IfOk result (λ world. world ≡ lows (take count sides.now)) }
{
    lowest_point(alloc, &sides[..count])
}

/// The middle of the sides, rounded down.
pub(crate) fn middle(side: Bounds) -> i64
    requires { side.lo <ℤ side.hi }
    ensures low { side.lo ≤ℤ result }
    ensures high { result <ℤ side.hi }
    ensures middle { IsMiddle side result }
{
    // The width fits an unsigned number also where it passes the signed ones.
    let half = side.hi.abs_diff(side.lo) / 2;
    side.lo + half as i64
}

/// The halves of the sides: up to the number, and from the next one on.
pub(crate) fn halves(side: Bounds, at: i64) -> (Bounds, Bounds)
    requires from { side.lo ≤ℤ at }
    requires to { at <ℤ side.hi }
    ensures low { result.0 ≡ boxes.low_side side at }
    ensures high { result.1 ≡ boxes.high_side side at }
{
    (low_side(side, at), high_side(side, at))
}

/// Writes the sides of one column.
pub(crate) fn put(sides: &mut [Bounds], column: usize, side: Bounds)
    requires { column < length sides.old }
    ensures { sides.new ≡ slice_set sides.old column side }
{
    sides[column] = side;
}
