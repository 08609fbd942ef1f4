//! The answer to a query: the worlds are listed, and what was found is told with its tree.

ghost use Rattle.std.specs.Prelude.{◌≡◌, ◌≤◌, ◌<◌, ◌^◌, ℕ, [], ◌∷◌, length, unsigned_abs, Ok, IfOk, IfErr, IsSome, position};
ghost use Rattle.branch_tree.specs.Listing.{has_two, open_columns};
ghost use Rattle.tiql_query.specs.Rows.{AreTables};
ghost use Rattle.tiql_query.specs.WellFormed.{IsWellFormed};
ghost use Rattle.world_def.specs.Columns.{IsSmall, columns_of};
ghost use Rattle.world_points.specs.Points as points;
ghost use Rattle.world_points.specs.Subject.{IsSubject};
ghost use Rattle.world_listing.specs.Judge.{judged_by};
ghost use Rattle.world_listing.specs.Works.{best_value};
ghost use Rattle.world_listing.specs.Parts as told;

use crate::halves::first_open;
use crate::search::{Found, Judge, Listed, judged, list_points};
use crate::sections::sections_of;
use answer_text::{Answer, PartAnswer, Verdict};
use base_kit::{List, Memory};
use branch_tree::{Branches, lowest_point};
use ip_rows::Bounds;
use std::alloc::Global;
use tiql_query::{Aim, Query, WorldColumn};
use world_def::{EvalFault, Tables, world_at};
use world_points::sides_of;

/// The answer to a query over its tables, with a budget of worked nodes: the worlds are listed (docs/ANSWERS.md).
///
/// The query is checked, and the columns are those of `world_columns` for the same query and tables. The fault is that of the
/// first listed world that has one: its first value that is too large, or its first relation with too many rows.
pub fn answer_listed(
    alloc: Global,
    query: &Query,
    tables: &Tables,
    columns: &List<WorldColumn>,
    budget: u32,
) -> Result<Answer, EvalFault>
    requires columns { columns_of query.now tables.now ≡ Ok columns.now }
    requires small { IsSmall query.now tables.now }
    requires count { length query.now.requires_ < 4294967295 }
    requires tables { AreTables query.now tables.now }
    requires fit { IsWellFormed query.now }
    requires budget { budget < 2 ^ 31 }
    ensures answer { IfOk result (told.Answers query.now tables.now columns.now budget) }
    ensures fault { IfErr result (told.TellsFault query.now tables.now columns.now budget) }
{
    let root = sides_of(alloc, columns.as_slice())?;
    let judge = Judge {
        query,
        tables,
        columns,
    };
    Ok(answer_of(verdict_of(alloc, &judge, root.as_slice(), budget)?))
}

/// The answer with a verdict, as long as no program is made.
fn answer_of(verdict: Verdict) -> Answer
    ensures columns { result.columns ≡ 0 }
    ensures rows { result.rows ≡ 0 }
    ensures formulas { result.formulas ≡ 0 }
    ensures verdict { result.verdict ≡ verdict }
{
    Answer {
        columns: 0,
        rows: 0,
        formulas: 0,
        verdict,
    }
}

/// Lists the worlds where a column has two values, and else judges the one that there is.
fn verdict_of(
    alloc: Global,
    judge: &Judge,
    root: &[Bounds],
    budget: u32,
) -> Result<Verdict, EvalFault>
    requires asked { IsSubject judge.now.query.now judge.now.tables.now judge.now.columns.now }
    requires root { root.now ≡ points.root judge.now.columns.now }
    requires budget { budget < 2 ^ 31 }
    ensures answer { IfOk result (told.IsVerdictFor judge.now.query.now judge.now.tables.now judge.now.columns.now budget) }
    ensures fault { IfErr result (told.TellsFault judge.now.query.now judge.now.tables.now judge.now.columns.now budget) }
{
    match first_open(root) {
        Some(_) => list_worlds(alloc, judge, root, budget),
        None => judge_world(alloc, judge, root),
    }
}

/// Lists the worlds, where a column has two values.
fn list_worlds(
    alloc: Global,
    judge: &Judge,
    root: &[Bounds],
    budget: u32,
) -> Result<Verdict, EvalFault>
    requires asked { IsSubject judge.now.query.now judge.now.tables.now judge.now.columns.now }
    requires root { root.now ≡ points.root judge.now.columns.now }
    requires budget { budget < 2 ^ 31 }
    requires several { IsSome (position has_two root.now) }
    ensures answer { IfOk result (told.IsVerdictFor judge.now.query.now judge.now.tables.now judge.now.columns.now budget) }
    ensures fault { IfErr result (told.TellsFault judge.now.query.now judge.now.tables.now judge.now.columns.now budget) }
{
    let listed = list_points(alloc, judge, root, budget)?;
    let columns = unfixed(alloc, root)?;
    Ok(told_of(alloc, judge, listed, columns, budget)?)
}

/// What a listing tells, with its one part.
fn told_of(
    alloc: Global,
    judge: &Judge,
    listed: Listed,
    columns: List<u32>,
    budget: u32,
) -> Result<Verdict, Memory>
    requires asked { IsSubject judge.now.query.now judge.now.tables.now judge.now.columns.now }
    requires several { IsSome (position has_two (points.root judge.now.columns.now)) }
    requires columns { columns ≡ open_columns (points.root judge.now.columns.now) }
    requires lists { told.ListsFor judge.now.query.now judge.now.tables.now judge.now.columns.now budget listed }
    ensures { IfOk result (told.IsVerdictFor judge.now.query.now judge.now.tables.now judge.now.columns.now budget) }
{
    let Listed { tree, best } = listed;
    let pending = tree.pending();
    let part = part_of(columns, cost_of(&best), tree);
    if pending > 0 {
        return Ok(Verdict::Unfinished {
            nodes: budget,
            parts: one_of(alloc, part)?,
        });
    }
    match best {
        Some(found) => Ok(optimal(alloc, judge, found, one_of(alloc, part)?)?),
        None => Ok(Verdict::NoWorld { part }),
    }
}

/// Judges the one possible world, where no column has two values.
fn judge_world(alloc: Global, judge: &Judge, root: &[Bounds]) -> Result<Verdict, EvalFault>
    requires asked { IsSubject judge.now.query.now judge.now.tables.now judge.now.columns.now }
    requires root { root.now ≡ points.root judge.now.columns.now }
    requires none { position has_two root.now ≡ None }
    ensures answer { IfOk result (λ verdict. (budget : ℕ) → told.IsVerdictFor judge.now.query.now judge.now.tables.now judge.now.columns.now budget verdict) }
    ensures fault { IfErr result (λ fault. (budget : ℕ) → told.TellsFault judge.now.query.now judge.now.tables.now judge.now.columns.now budget fault) }
{
    let point = lowest_point(alloc, root)?;
    match judged(alloc, judge, &point)? {
        Some(cost) => {
            let found = Found { cost, point };
            Ok(optimal(alloc, judge, found, List::new(alloc))?)
        }
        None => Ok(Verdict::FalseRow { row: 0 }),
    }
}

/// The optimal answer with the world of a point that has a value.
fn optimal(
    alloc: Global,
    judge: &Judge,
    found: Found,
    parts: List<PartAnswer>,
) -> Result<Verdict, Memory>
    requires asked { IsSubject judge.now.query.now judge.now.tables.now judge.now.columns.now }
    requires long { length found.point ≡ length judge.now.columns.now }
    requires value { judged_by judge.now found.point ≡ Ok (Some found.cost) }
    ensures { IfOk result (told.IsOf judge.now.query.now judge.now.tables.now judge.now.columns.now found parts) }
{
    let query = judge.query;
    let world = world_at(
        alloc,
        query,
        judge.tables,
        judge.columns,
        found.point.as_slice(),
    )?;
    let worlds = sections_of(alloc, query.hypos.as_slice(), world.tables.as_slice())?;
    Ok(Verdict::Optimal {
        objective: score_of(&query.aim, found.cost),
        worlds,
        parts,
    })
}

/// The score of worlds of this cost.
#[tactic(auto, unfolding(world_points::specs::Points::cost))]
fn score_of(aim: &Aim, cost: i128) -> i64
    requires { unsigned_abs cost ≤ 10 ^ 17 }
    ensures { result ≡ points.cost aim.now cost }
{
    match aim {
        Aim::Find => cost as i64,
        Aim::Sum { maximize, .. } => {
            if *maximize {
                -(cost as i64)
            } else {
                cost as i64
            }
        }
    }
}

/// The cost of the best.
fn cost_of(best: &Option<Found>) -> Option<i128>
    ensures { result ≡ best_value best.now }
{
    match best {
        Some(found) => Some(found.cost),
        None => None,
    }
}

/// The list of one part.
fn one_of(alloc: Global, part: PartAnswer) -> Result<List<PartAnswer>, Memory>
    ensures { IfOk result (λ parts. parts ≡ part ∷ []) }
{
    let mut parts = List::new(alloc);
    parts.push(part)?;
    Ok(parts)
}

/// The numbers of the columns with two values, rising.
#[tactic(auto, unfolding(branch_tree::specs::Listing::open_from))]
fn unfixed(alloc: Global, sides: &[Bounds]) -> Result<List<u32>, Memory>
    requires { length sides.now < 2 ^ 32 }
    ensures { IfOk result (λ columns. columns ≡ open_columns sides.now) }
{
    let mut columns = List::new(alloc);
    for (column, side) in sides.iter().enumerate() {
        if side.lo < side.hi {
            columns.push(column as u32)?;
        }
    }
    Ok(columns)
}

/// The one part, with these columns.
fn part_of(columns: List<u32>, best: Option<i128>, tree: Branches) -> PartAnswer
    ensures number { result.number ≡ 1 }
    ensures columns { result.columns ≡ columns }
    ensures best { result.best ≡ best }
    ensures tree { result.tree ≡ tree }
{
    PartAnswer {
        number: 1,
        columns,
        best,
        tree,
    }
}
