//! The costs of worlds, and of the points that are their numbers.

ghost use Rattle.std.specs.Prelude.{◌≡◌, ◌≤◌, ◌<◌, ◌^◌, length, unsigned_abs, IfOk};
ghost use Rattle.tiql_query.specs.WellFormed.{IsWellFormed};
ghost use Rattle.world_def.specs.Columns.{IsSmall};
ghost use Rattle.world_def.specs.Judging.{IsSmallWorld};
ghost use Rattle.world_def.specs.Views.{Gives};
ghost use Rattle.world_points.specs.Points as spec;

use base_kit::{List, Memory};
use std::alloc::Global;
use tiql_query::{Aim, Query, WorldColumn};
use world_def::{EvalFault, Tables, World, is_possible, numbers_of, score_met, world_at};

/// The cost of a world, and `None` where it does not meet what is required. Less is better: under MAXIMIZE the cost is the
/// score with the other sign (docs/MEANING.md, "Score").
#[tactic(auto, unfolding(crate::specs::Points::judged))]
pub fn judge_world(
    alloc: Global,
    query: &Query,
    tables: &Tables,
    world: &World,
) -> Result<Option<i128>, EvalFault>
    requires fit { IsWellFormed query.now }
    requires small { IsSmallWorld tables.now world.now }
    requires count { length query.now.requires_ < 4294967295 }
    ensures asked { Gives (spec.judged query.now tables.now world.now) result }
    ensures value { IfOk result (λ cost. cost ≡ spec.world_cost query.now tables.now world.now) }
{
    match score_met(alloc, query, tables, world)? {
        Some(score) => Ok(Some(cost(&query.aim, score))),
        None => Ok(None),
    }
}

/// A score as it is compared: less is better.
#[tactic(auto, unfolding(crate::specs::Points::cost))]
pub fn cost(aim: &Aim, score: i128) -> i128
    requires { unsigned_abs score ≤ 10 ^ 17 }
    ensures { result ≡ spec.cost aim.now score }
{
    match aim {
        Aim::Find => score,
        Aim::Sum { maximize, .. } => { if *maximize { -score } else { score } }
    }
}

/// The cost of a point's world, and `None` where the point's numbers are not those of a possible world, or that world does not
/// meet what is required.
///
/// The columns are those of `world_columns` for the same query and tables, and the point has a number for each.
#[tactic(auto, unfolding(crate::specs::Points::judged_at, crate::specs::Points::world_at))]
pub fn judge_point(
    alloc: Global,
    query: &Query,
    tables: &Tables,
    columns: &List<WorldColumn>,
    point: &[i64],
) -> Result<Option<i128>, EvalFault>
    requires fit { IsWellFormed query.now }
    requires small { IsSmall query.now tables.now }
    requires count { length query.now.requires_ < 4294967295 }
    requires long { length point.now ≡ length columns.now }
    ensures { Gives (spec.judged_at query.now tables.now columns.now point.now) result }
{
    let world = world_at(alloc, query, tables, columns, point)?;
    if !has_numbers(alloc, query, tables, columns, &world, point)? {
        return Ok(None);
    }
    judge_world(alloc, query, tables, &world)
}

/// Whether a world is possible and has these numbers.
fn has_numbers(
    alloc: Global,
    query: &Query,
    tables: &Tables,
    columns: &List<WorldColumn>,
    world: &World,
    point: &[i64],
) -> Result<bool, Memory>
    requires { IsSmall query.now tables.now }
    ensures { IfOk result (λ has. has ≡ spec.has_numbers query.now tables.now columns.now world.now point.now) }
{
    if is_possible(query, tables, columns, world).is_some() {
        return Ok(false);
    }
    let numbers = numbers_of(alloc, query, tables, columns, world)?;
    Ok(numbers.as_slice() == point)
}
