//! Whether a world meets what a query requires, and its score.

ghost use Rattle.std.specs.Prelude.{◌≡◌, ◌≤◌, ◌<◌, ◌^◌, ◌↔◌, ◌≢◌, length, All, map, Ok, Err, Result, IfOk, IsTrue, is_none, IfSome, unsigned_abs};
ghost use Rattle.tiql_query.specs.WellFormed.{IsWellFormed};
ghost use Rattle.world_def.specs.Judging as spec;
ghost use Rattle.world_def.specs.Made.{AreMade, Keeps};
ghost use Rattle.world_def.specs.Meaning as meaning;
ghost use Rattle.world_def.specs.Views.{Gives};

use crate::columns::Tables;
use crate::fault::EvalFault;
use crate::views::{Views, make, none_made, rows_at};
use crate::world::World;
use base_kit::Row;
use row_values::{Wide, number, truth, within};
use std::alloc::Global;
use tiql_query::{Aim, Cond, Expr, Query, Require, Source};

/// Where a world does not meet what is required.
#[derive(Clone, Copy, Debug, PartialEq, Eq)]
pub struct Broken {
    /// The first broken requirement, from 1.
    pub requirement: u32,
    /// The first row that breaks it, from 1, and 0 where no row meets what one row has to.
    pub row: u32,
}

/// The first requirement that a world breaks, and `None` where it meets the query (docs/MEANING.md, "Meets").
pub fn meets(
    alloc: Global,
    query: &Query,
    tables: &Tables,
    world: &World,
) -> Result<Option<Broken>, EvalFault>
    requires fit { IsWellFormed query.now }
    requires small { spec.IsSmallWorld tables.now world.now }
    requires count { length query.now.requires_ < 4294967295 }
    ensures told { Gives (spec.broken_from query.now tables.now world.now 1 query.now.requires_) result }
    ensures met { IfOk result (λ found. IsTrue (is_none found) ↔ meaning.Meets query.now tables.now world.now) }
{
    let mut views = none_made(alloc, query)?;
    first_of(alloc, query, tables, world, &mut views)
}

/// The score of a world that meets the query, and `None` where it does not; each view is made once (docs/MEANING.md, "Score").
pub fn score_met(
    alloc: Global,
    query: &Query,
    tables: &Tables,
    world: &World,
) -> Result<Option<i128>, EvalFault>
    requires fit { IsWellFormed query.now }
    requires small { spec.IsSmallWorld tables.now world.now }
    requires count { length query.now.requires_ < 4294967295 }
    ensures told { Gives (spec.judged query.now tables.now world.now) result }
    ensures value { IfOk result (λ score. score ≡ meaning.score_met query.now tables.now world.now) }
    ensures small { IfOk result (λ score. IfSome score (λ n. unsigned_abs n ≤ 10 ^ 17)) }
{
    let mut views = none_made(alloc, query)?;
    match first_of(alloc, query, tables, world, &mut views)? {
        Some(_) => Ok(None),
        None => {
            let score = score_for(alloc, query, tables, world, &mut views)?;
            Ok(Some(score))
        }
    }
}

/// The first of the requirements that a world breaks.
fn first_of(
    alloc: Global,
    query: &Query,
    tables: &Tables,
    world: &World,
    views: &mut Views,
) -> Result<Option<Broken>, EvalFault>
    requires fit { IsWellFormed query.now }
    requires small { spec.IsSmallWorld tables.now world.now }
    requires made { AreMade query.now tables.now world.now views.old.made.items }
    requires count { length query.now.requires_ < 4294967295 }
    ensures told { Gives (spec.broken_from query.now tables.now world.now 1 query.now.requires_) result }
    ensures made { Keeps query.now tables.now world.now views.new.made.items result }
{
    for (at, requirement) in query.requires_.as_slice().iter().enumerate() {
        let found = broken_at(
            alloc,
            query,
            tables,
            world,
            views,
            at as u32 + 1,
            requirement,
        )?;
        if found.is_some() {
            return Ok(found);
        }
    }
    Ok(None)
}

/// A requirement, where a world breaks it.
#[tactic(auto, unfolding(crate::specs::Judging::broken_at))]
fn broken_at(
    alloc: Global,
    query: &Query,
    tables: &Tables,
    world: &World,
    views: &mut Views,
    number: u32,
    requirement: &Require,
) -> Result<Option<Broken>, EvalFault>
    requires fit { IsWellFormed query.now }
    requires small { spec.IsSmallWorld tables.now world.now }
    requires made { AreMade query.now tables.now world.now views.old.made.items }
    ensures told { Gives (spec.broken_at query.now tables.now world.now number requirement.now) result }
    ensures made { Keeps query.now tables.now world.now views.new.made.items result }
{
    let source = source_of(requirement);
    make(alloc, query, tables, world, views, source)?;
    match broken_row(requirement, rows_at(tables, world, views, source)) {
        Ok(Some(row)) => Ok(Some(Broken {
            requirement: number,
            row,
        })),
        Ok(None) => Ok(None),
        Err(wide) => Err(EvalFault::Wide {
            source,
            number: wide.number,
        }),
    }
}

fn source_of(requirement: &Require) -> Source
    ensures { result ≡ spec.source_of requirement.now }
{
    match requirement {
        Require::All(source, _) => *source,
        Require::Some(source, _) => *source,
        Require::None(source) => *source,
    }
}

/// The row at which a requirement is broken.
#[tactic(auto, unfolding(crate::specs::Judging::broken_row))]
fn broken_row(requirement: &Require, rows: &[Row]) -> Result<Option<u32>, Wide>
    requires { length rows.now ≤ 200000 }
    ensures { result ≡ spec.broken_row requirement.now rows.now }
{
    match requirement {
        Require::All(_, test) => first_broken(test, rows),
        Require::Some(_, test) => {
            if one_meets(test, rows)? {
                Ok(None)
            } else {
                Ok(Some(0))
            }
        }
        Require::None(_) => Ok(none_of(rows)),
    }
}

/// The first row, from 1, that does not meet a condition.
fn first_broken(test: &Cond, rows: &[Row]) -> Result<Option<u32>, Wide>
    requires { length rows.now ≤ 200000 }
    ensures { result ≡ spec.first_broken test.now 1 rows.now }
{
    for (at, row) in rows.iter().enumerate() {
        if !truth(test, &[row])? {
            return Ok(Some(at as u32 + 1));
        }
    }
    Ok(None)
}

/// Whether a row meets a condition.
fn one_meets(test: &Cond, rows: &[Row]) -> Result<bool, Wide>
    ensures { result ≡ spec.one_meets test.now rows.now }
{
    for row in rows {
        if truth(test, &[row])? {
            return Ok(true);
        }
    }
    Ok(false)
}

/// The first row, where there is one.
fn none_of(rows: &[Row]) -> Option<u32>
    ensures { result ≡ spec.none_of rows.now }
{
    match rows {
        [] => None,
        [_, ..] => Some(1),
    }
}

/// The score of a world: the sum of the goal's expression over the rows of its relation, and 0 for FIND
/// (docs/MEANING.md, "Score").
pub fn score(
    alloc: Global,
    query: &Query,
    tables: &Tables,
    world: &World,
) -> Result<i128, EvalFault>
    requires fit { IsWellFormed query.now }
    requires small { spec.IsSmallWorld tables.now world.now }
    ensures told { Gives (spec.score_asked query.now tables.now world.now query.now.aim) result }
    ensures small { IfOk result (λ n. unsigned_abs n ≤ 10 ^ 17) }
    ensures score { IfOk result (λ n. n ≡ meaning.score query.now tables.now world.now) }
{
    let mut views = none_made(alloc, query)?;
    score_for(alloc, query, tables, world, &mut views)
}

#[tactic(auto, unfolding(crate::specs::Judging::score_asked))]
fn score_for(
    alloc: Global,
    query: &Query,
    tables: &Tables,
    world: &World,
    views: &mut Views,
) -> Result<i128, EvalFault>
    requires fit { IsWellFormed query.now }
    requires small { spec.IsSmallWorld tables.now world.now }
    requires made { AreMade query.now tables.now world.now views.old.made.items }
    ensures value { Gives (spec.score_asked query.now tables.now world.now query.now.aim) result }
    ensures small { IfOk result (λ n. unsigned_abs n ≤ 10 ^ 17) }
{
    match &query.aim {
        Aim::Find => Ok(0),
        Aim::Sum {
            maximize: _,
            source,
            part,
        } => {
            make(alloc, query, tables, world, views, *source)?;
            match sum_over(part, rows_at(tables, world, views, *source)) {
                Ok(sum) => Ok(i128::from(sum)),
                Err(wide) => Err(EvalFault::Wide {
                    source: *source,
                    number: wide.number,
                }),
            }
        }
    }
}

/// The sum of an expression over rows.
fn sum_over(part: &Expr, rows: &[Row]) -> Result<i64, Wide>
    requires { length rows.now ≤ 200000 }
    ensures value { result ≡ spec.sum_over part.now rows.now }
    ensures small { IfOk result (λ n. unsigned_abs n ≤ 10 ^ 17) }
{
    let mut total: i128 = 0;
    for row in rows {
        total += i128::from(number(part, &[row])?);
    }
    within(total)
}
