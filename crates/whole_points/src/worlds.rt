//! The point of a world, as a point of a program that fits the list and the map.
ghost use Rattle.std.specs.Prelude.{◌≡◌, ◌*ℤ◌, pos, count_by, take, IfOk};
ghost use Rattle.ip_rows.specs.Programs.{IsWellFormed};
ghost use Rattle.prov_fold.specs.Folds.{IsFold};
ghost use Rattle.bool_encode.specs.Points.{point_of as point_in};
ghost use Rattle.whole_points.specs.Matched.{IsMatched, is_world, world_count};
ghost use Rattle.whole_points.specs.Points.{IsWholePoint, IsPointOver, IsWorldWithin, IsWorldOver, AgreeOver};

use base_kit::{List, Memory};
use bool_encode::{ColumnMap, Stand, point_of};
use ip_rows::Program;
use prov_fold::Fold;
use std::alloc::Global;

/// The point of a world whose numbers lie within the sides. Where some point over a denominator has the world's numbers and
/// meets the program, with whole truths and selectors, this is a whole point, and the two differ at selectors alone. Over 1
/// these are the whole points. The program, the list and the map are matched. `Err` is want of memory (docs/ENCODING.md).
pub fn world_point(
    alloc: Global,
    program: &Program,
    fold: &Fold<'_>,
    map: &ColumnMap,
    world: &[i64],
) -> Result<List<i64>, Memory>
    requires formed { IsWellFormed program.now }
    requires matched { IsMatched program.now fold.now map.now.stands }
    requires within { IsWorldWithin program.now map.now.stands world.now }
    ensures point { IfOk result (λ point. point ≡ point_in fold.now map.now.stands world.now) }
    ensures whole { IfOk result (λ point. (d : _) (other : _) → IsPointOver d program.now other → IsWorldOver d map.now.stands world.now other → IsWholePoint program.now point) }
    ensures agree { IfOk result (λ point. (d : _) (other : _) → IsPointOver d program.now other → IsWorldOver d map.now.stands world.now other → AgreeOver d map.now.stands other point) }
{
    known(fold);
    point_of(alloc, fold, map, world)
}

/// The point of the world of a whole point: a whole point too, with the same number at each column that is no selector. The
/// program, the list and the map are matched. `Err` is want of memory (docs/ENCODING.md).
pub fn same_choices(
    alloc: Global,
    program: &Program,
    fold: &Fold<'_>,
    map: &ColumnMap,
    point: &[i64],
) -> Result<List<i64>, Memory>
    requires formed { IsWellFormed program.now }
    requires matched { IsMatched program.now fold.now map.now.stands }
    requires whole { IsWholePoint program.now point.now }
    ensures point { IfOk result (λ other. other ≡ point_in fold.now map.now.stands (take (world_count map.now.stands) point.now)) }
    ensures whole { IfOk result (λ other. IsWholePoint program.now other) }
    ensures agree { IfOk result (λ other. AgreeOver 1 map.now.stands point.now other) }
{
    let worlds = worlds(map.stands.as_slice());
    world_point(alloc, program, fold, map, &point[..worlds])
}

/// How many columns are the world's.
fn worlds(stands: &[Stand]) -> usize
    ensures { result ≡ count_by (λ s. is_world s) stands.now }
{
    let mut count = 0;
    for stand in stands {
        if matches!(stand, Stand::World(_)) {
            count += 1;
        }
    }
    count
}

/// What holds of every list is known where its formulas and ranges are read.
fn known(fold: &Fold<'_>)
    ensures { IsFold fold.now }
{
    let _count = fold.prov().len();
    let _range = fold.range(0);
}
