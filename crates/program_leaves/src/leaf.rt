//! The value of a leaf: that of the point of its world.
ghost use Rattle.std.specs.Prelude.{◌≡◌, ◌≤◌, length, count_by, IfOk};
ghost use Rattle.ip_rows.specs.Programs.{IsBetween, IsMeasured, IsWellFormed, sides_of};
ghost use Rattle.whole_points.specs.Matched.{IsMatched, is_world, world_count};
ghost use Rattle.std.specs.List.{list_any};
ghost use Rattle.prov_fold.specs.Folds.{IsFold};
ghost use Rattle.branch_tree.specs.Listing.{lows};
ghost use Rattle.branch_tree.specs.Listing as listing;
ghost use Rattle.program_leaves.specs.Leaves as spec;

use crate::part::{has_two, part_value};
use base_kit::{List, Memory};
use bool_encode::{ColumnMap, Stand};
use branch_tree::lowest_point;
use ip_rows::{Bounds, Program};
use prov_fold::Fold;
use std::alloc::Global;
use whole_points::world_point;

/// The value in the part of the point of the world at the lower sides of the box's world columns, or `None` where that point
/// lies outside the box or breaks a row.
///
/// The program, the list and the map are matched, and the box lies within the program's sides. `Err` is want of memory
/// (docs/ANSWERS.md).
pub fn leaf_value(
    alloc: Global,
    program: &Program,
    fold: &Fold<'_>,
    map: &ColumnMap,
    sides: &[Bounds],
) -> Result<Option<i128>, Memory>
    requires formed { IsWellFormed program.now }
    requires measured { IsMeasured program.now }
    requires matched { IsMatched program.now fold.now map.now.stands }
    requires inside { spec.IsInside (spec.root_of program.now) sides.now }
    ensures { IfOk result (λ value. value ≡ spec.leaf_value program.now fold.now map.now.stands sides.now) }
{
    let point = leaf_point(alloc, program, fold, map, sides)?;
    Ok(value_in(program, sides, point.as_slice()))
}

/// The point of the world at the lower sides of the box's world columns. It lies within the program's sides.
fn leaf_point(
    alloc: Global,
    program: &Program,
    fold: &Fold<'_>,
    map: &ColumnMap,
    sides: &[Bounds],
) -> Result<List<i64>, Memory>
    requires formed { IsWellFormed program.now }
    requires matched { IsMatched program.now fold.now map.now.stands }
    requires inside { spec.IsInside (spec.root_of program.now) sides.now }
    ensures point { IfOk result (λ point. point ≡ spec.leaf_point program.now fold.now map.now.stands sides.now) }
    ensures between { IfOk result (λ point. IsBetween (sides_of program.now.columns) point) }
{
    known(fold);
    let world = leaf_world(alloc, map, sides)?;
    world_point(alloc, program, fold, map, world.as_slice())
}

/// The world at the lower sides of a box's world columns.
fn leaf_world(alloc: Global, map: &ColumnMap, sides: &[Bounds]) -> Result<List<i64>, Memory>
    requires { world_count map.now.stands ≤ length sides.now }
    ensures { IfOk result (λ world. world ≡ lows (spec.worlds_in map.now.stands sides.now)) }
{
    let count = worlds(map.stands.as_slice());
    lowest_point(alloc, &sides[..count])
}

/// What holds of every list is known where its formulas and ranges are read.
fn known(fold: &Fold<'_>)
    ensures { IsFold fold.now }
{
    let _count = fold.prov().len();
    let _range = fold.range(0);
}

/// The value in the part of a point, or `None` where it lies outside the box or breaks a row. The point lies within the
/// program's sides (docs/ANSWERS.md).
#[tactic(auto, unfolding(crate::specs::Leaves::value_in))]
pub fn value_in(program: &Program, sides: &[Bounds], point: &[i64]) -> Option<i128>
    requires formed { IsWellFormed program.now }
    requires measured { IsMeasured program.now }
    requires count { length sides.now ≡ length program.now.columns }
    requires between { IsBetween (sides_of program.now.columns) point.now }
    ensures { result ≡ spec.value_in program.now sides.now point.now }
{
    if is_in(sides, point) && meets_rows(program, point) {
        Some(part_value(program, point))
    } else {
        None
    }
}

/// Whether a point within the program's sides meets every row (docs/REDUCTION.md).
pub fn meets_rows(program: &Program, point: &[i64]) -> bool
    requires formed { IsWellFormed program.now }
    requires measured { IsMeasured program.now }
    requires between { IsBetween (sides_of program.now.columns) point.now }
    ensures { result ≡ spec.meets_rows program.now point.now }
{
    program.meets(point).is_none()
}

/// Whether each world column of a box has one value (docs/ANSWERS.md).
pub fn has_one_world(map: &ColumnMap, sides: &[Bounds]) -> bool
    requires { world_count map.now.stands ≤ length sides.now }
    ensures { result ≡ spec.has_one_world map.now.stands sides.now }
{
    let count = worlds(map.stands.as_slice());
    !have_two(&sides[..count])
}

/// Whether some column has two values.
fn have_two(sides: &[Bounds]) -> bool
    ensures { result ≡ list_any (λ side. listing.has_two side) sides.now }
{
    sides.iter().any(has_two)
}

/// How many columns are the world's.
fn worlds(stands: &[Stand]) -> usize
    ensures { result ≡ count_by (λ s. is_world s) stands.now }
{
    let mut count = 0;
    for stand in stands {
        if matches!(stand, Stand::World(_)) {
            count += 1;
        }
    }
    count
}

/// Whether each number of a point lies within the side of its column.
fn is_in(sides: &[Bounds], point: &[i64]) -> bool
    requires { length sides.now ≡ length point.now }
    ensures { result ≡ spec.is_in sides.now point.now }
{
    for (column, side) in sides.iter().enumerate() {
        if !is_within(side, point[column]) {
            return false;
        }
    }
    true
}

/// Whether a number lies within a side.
fn is_within(side: &Bounds, number: i64) -> bool
    ensures { result ≡ spec.is_within side.now number }
{
    side.lo <= number && number <= side.hi
}
