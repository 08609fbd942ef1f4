//! What a listing of a program comes to: its best point, that it has none, or that the budget is spent.

ghost use Rattle.std.specs.Prelude.{◌≡◌, ◌<◌, ◌^◌, [], ◌∷◌, length, IfOk, IfErr};
ghost use Rattle.branch_tree.specs.Listing.{lows};
ghost use Rattle.prov_fold.specs.Folds.{IsFold};
ghost use Rattle.ip_rows.specs.Programs.{IsMeasured, IsWellFormed};
ghost use Rattle.whole_points.specs.Matched.{IsMatched, world_count};
ghost use Rattle.program_leaves.specs.Leaves as leaves;
ghost use Rattle.program_leaves.specs.Leaves.{HasNoFalseRow, IsTooLarge, root_of};
ghost use Rattle.point_listing.specs.Works.{Lists, best_value};
ghost use Rattle.point_listing.specs.Solving.{IsEnough, IsFinished, IsSolved, TellsTooLarge};

use crate::search::{Found, Listed, list_worlds};
use crate::solved::{SolveFault, Solved};
use answer_text::PartAnswer;
use base_kit::{List, Memory};
use bool_encode::{ColumnMap, Stand};
use branch_tree::{Branches, lowest_point};
use ip_rows::Program;
use program_leaves::{false_row, part_columns, root_sides, too_large};
use prov_fold::Fold;
use std::alloc::Global;
use whole_points::world_point;

/// Solves a program by listing its worlds, with a budget of worked nodes: the best whole point, a row or a part for which there
/// is none, or what was listed until the budget was spent (docs/ANSWERS.md).
///
/// The program, the list and the map are matched. A part that is too large is told before any of these. A budget of a node for
/// each that may be worked is never spent.
pub fn list_points(
    alloc: Global,
    program: &Program,
    fold: &Fold<'_>,
    map: &ColumnMap,
    budget: u32,
) -> Result<Solved, SolveFault>
    requires formed { IsWellFormed program.now }
    requires measured { IsMeasured program.now }
    requires matched { IsMatched program.now fold.now map.now.stands }
    requires budget { budget < 2 ^ 31 }
    ensures solved { IfOk result (IsSolved program.now fold.now map.now.stands budget) }
    ensures small { IfOk result (λ _. ¬ IsTooLarge program.now) }
    ensures fault { IfErr result (TellsTooLarge program.now) }
    ensures enough { IfOk result (λ solved. IsEnough program.now fold.now map.now.stands budget → IsFinished solved) }
{
    let columns = part_columns(alloc, program)?;
    refuse_large(program, columns.as_slice())?;
    Ok(solve(alloc, program, fold, map, columns, budget)?)
}

/// Refuses a part that is too large to be worked. `columns` are those with two values.
fn refuse_large(program: &Program, columns: &[u32]) -> Result<(), SolveFault>
    requires measured { IsMeasured program.now }
    requires shown { columns.now ≡ leaves.part_columns program.now }
    ensures small { IfOk result (λ _. ¬ IsTooLarge program.now) }
    ensures fault { IfErr result (TellsTooLarge program.now) }
{
    match too_large(program, columns) {
        Some(size) => Err(SolveFault::PartTooLarge {
            part: 1,
            columns: size.columns,
            rows: size.rows,
        }),
        None => Ok(()),
    }
}

/// Solves a program of which no part is too large. `columns` are those with two values.
fn solve(
    alloc: Global,
    program: &Program,
    fold: &Fold<'_>,
    map: &ColumnMap,
    columns: List<u32>,
    budget: u32,
) -> Result<Solved, Memory>
    requires formed { IsWellFormed program.now }
    requires measured { IsMeasured program.now }
    requires matched { IsMatched program.now fold.now map.now.stands }
    requires columns { columns ≡ leaves.part_columns program.now }
    requires budget { budget < 2 ^ 31 }
    ensures { IfOk result (IsSolved program.now fold.now map.now.stands budget) }
{
    if let Some(row) = false_row(program) {
        return Ok(Solved::FalseRow { row });
    }
    if columns.is_empty() {
        known(fold);
        let point = one_point(alloc, program)?;
        return Ok(Solved::Best {
            point,
            parts: List::new(alloc),
        });
    }
    list_part(alloc, program, fold, map, columns, budget)
}

/// The point at the lower sides of all columns.
fn one_point(alloc: Global, program: &Program) -> Result<List<i64>, Memory>
    ensures { IfOk result (λ point. point ≡ lows (root_of program.now)) }
{
    let root = root_sides(alloc, program)?;
    lowest_point(alloc, root.as_slice())
}

/// Lists the worlds, where a column has two values and no row is a false one.
fn list_part(
    alloc: Global,
    program: &Program,
    fold: &Fold<'_>,
    map: &ColumnMap,
    columns: List<u32>,
    budget: u32,
) -> Result<Solved, Memory>
    requires formed { IsWellFormed program.now }
    requires measured { IsMeasured program.now }
    requires matched { IsMatched program.now fold.now map.now.stands }
    requires sound { HasNoFalseRow program.now }
    requires columns { columns ≡ leaves.part_columns program.now }
    requires several { 0 < length (leaves.part_columns program.now) }
    requires budget { budget < 2 ^ 31 }
    ensures { IfOk result (IsSolved program.now fold.now map.now.stands budget) }
{
    let worlds = world_columns(map.stands.as_slice());
    let listed = list_worlds(alloc, program, fold, map, worlds, budget)?;
    told_of(alloc, program, fold, map, listed, columns, budget)
}

/// What a listing tells, with its one part.
fn told_of(
    alloc: Global,
    program: &Program,
    fold: &Fold<'_>,
    map: &ColumnMap,
    listed: Listed,
    columns: List<u32>,
    budget: u32,
) -> Result<Solved, Memory>
    requires formed { IsWellFormed program.now }
    requires measured { IsMeasured program.now }
    requires matched { IsMatched program.now fold.now map.now.stands }
    requires sound { HasNoFalseRow program.now }
    requires columns { columns ≡ leaves.part_columns program.now }
    requires several { 0 < length (leaves.part_columns program.now) }
    requires lists { Lists program.now fold.now map.now.stands budget listed }
    ensures { IfOk result (IsSolved program.now fold.now map.now.stands budget) }
{
    known(fold);
    let Listed { tree, best } = listed;
    let pending = tree.pending();
    let part = part_of(columns, value_of(&best), tree);
    if pending > 0 {
        let parts = one_of(alloc, part)?;
        return Ok(Solved::Spent { parts });
    }
    match best {
        Some(found) => {
            let point = world_point(alloc, program, fold, map, found.world.as_slice())?;
            let parts = one_of(alloc, part)?;
            Ok(Solved::Best { point, parts })
        }
        None => Ok(Solved::NoWorld { part }),
    }
}

/// What holds of every list is known where its formulas and ranges are read.
fn known(fold: &Fold<'_>)
    ensures { IsFold fold.now }
{
    let _count = fold.prov().len();
    let _range = fold.range(0);
}

/// How many columns are the world's.
fn world_columns(stands: &[Stand]) -> usize
    ensures { result ≡ world_count stands.now }
{
    let mut count = 0;
    for stand in stands {
        if matches!(stand, Stand::World(_)) {
            count += 1;
        }
    }
    count
}

/// The value of the best.
fn value_of(best: &Option<Found>) -> Option<i128>
    ensures { result ≡ best_value best.now }
{
    match best {
        Some(found) => Some(found.value),
        None => None,
    }
}

/// The list of one part.
fn one_of(alloc: Global, part: PartAnswer) -> Result<List<PartAnswer>, Memory>
    ensures { IfOk result (λ parts. parts ≡ part ∷ []) }
{
    let mut parts = List::new(alloc);
    parts.push(part)?;
    Ok(parts)
}

/// The one part, with these columns.
fn part_of(columns: List<u32>, best: Option<i128>, tree: Branches) -> PartAnswer
    ensures number { result.number ≡ 1 }
    ensures columns { result.columns ≡ columns }
    ensures best { result.best ≡ best }
    ensures tree { result.tree ≡ tree }
{
    PartAnswer {
        number: 1,
        columns,
        best,
        tree,
    }
}
