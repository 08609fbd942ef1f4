//! The truths and the number to which a query comes.

ghost use Rattle.std.specs.Prelude.{◌≡◌, ◌<◌, Ok, length, All};
ghost use Rattle.prov_fold.specs.Graphs.{HasNumber, HasTruth};
ghost use Rattle.tiql_query.specs.WellFormed.{IsWellFormed};
ghost use Rattle.tiql_query.specs.Rows.{AreTables};
ghost use Rattle.world_def.specs.Columns.{IsSmall, columns_of};
ghost use Rattle.sym_query.specs.Meant.{AreGoals, AreGoalsOf, IsAim};
ghost use Rattle.sym_query.specs.Relations.{AreKnown, AreGoalsOver, AreRootsOfAll, AreRootsOfNeed, IsAimOfQuery, IsSumOver};
ghost use Rattle.sym_query.specs.Walks as spec;
ghost use Rattle.sym_query.specs.Walks.{Makes};

use crate::fault::{QueryFault, told_of};
use crate::known::known_rows;
use crate::relation::{columns_at, rows_at, source_of};
use base_kit::List;
use prov_fold::Fold;
use std::alloc::Global;
use sym_goals::{aim_of, roots_of};
use sym_rows::Known;
use tiql_query::{Aim, Expr, Query, Require, Source, WorldColumn};
use world_def::Tables;

/// What a query comes to (docs/FORMULAS.md, "The walk").
#[derive(Debug, Drop)]
pub struct Goals {
    /// The places in the list of formulas, from 0, of the roots: the truths that the requirements ask to hold, one requirement after the
    /// other.
    pub roots: List<u32>,
    /// The place of the number of the objective, from 0, and `None` of FIND.
    pub aim: Option<u32>,
}

/// The walk of a whole query (docs/FORMULAS.md, "The walk"): the possible rows of its relations, of tables, of hypothetical tables and of
/// views, each in declared order; then the truths of its requirements, one after the other; then the number of its objective. On every
/// possible world, for every later list, all the truths hold exactly where the world meets the query, and the number is its score, 0 of
/// FIND, where each item of a grouped select that is no aggregate is a column of GROUP BY. The query is well formed, the tables are its
/// tables, and the columns are its world columns over them.
///
/// The errors are those of the first call that is refused: `Wide` with the relation whose rows were made, or of which a requirement or
/// the objective speaks, `TooManyRows` with the view, `Full`, and `Memory`. What was appended before stays.
pub fn walk_query(
    alloc: Global,
    fold: &mut Fold<'_>,
    query: &Query,
    tables: &Tables,
    columns: &List<WorldColumn>,
) -> Result<Goals, QueryFault>
    requires fit { IsWellFormed query.now }
    requires tables { AreTables query.now tables.now }
    requires small { IsSmall query.now tables.now }
    requires views { length query.now.views < 4294967296 }
    requires columns { columns_of query.now tables.now ≡ Ok columns.now }
    ensures { Makes (spec.query_walk query.now tables.now columns.now fold.old) AreGoals (AreGoalsOf query.now tables.now columns.now) fold.old result fold.new }
{
    let known = known_rows(alloc, fold, query, tables, columns)?;
    goals_of(alloc, fold, query, &known)
}

/// The truths and the number over the possible rows of all relations.
fn goals_of(
    alloc: Global,
    fold: &mut Fold<'_>,
    query: &Query,
    known: &Known,
) -> Result<Goals, QueryFault>
    requires fit { IsWellFormed query.now }
    requires known { AreKnown query.now fold.old known.now }
    ensures { Makes (spec.goals_walk query.now known.now fold.old) AreGoals (AreGoalsOver query.now known.now) fold.old result fold.new }
{
    let roots = roots_of_all(alloc, fold, query, known)?;
    let aim = aim_of_query(alloc, fold, query, known)?;
    Ok(Goals { roots, aim })
}

/// The truths of all requirements.
fn roots_of_all(
    alloc: Global,
    fold: &mut Fold<'_>,
    query: &Query,
    known: &Known,
) -> Result<List<u32>, QueryFault>
    requires fit { IsWellFormed query.now }
    requires known { AreKnown query.now fold.old known.now }
    ensures { Makes (spec.roots_walk query.now known.now fold.old) (λ g roots. All (HasTruth g) roots) (AreRootsOfAll query.now known.now) fold.old result fold.new }
{
    let mut all = List::new(alloc);
    for need in query.requires_.as_slice() {
        all.append(roots_of_one(alloc, fold, query, known, need)?)?;
    }
    Ok(all)
}

/// The truths of a requirement.
fn roots_of_one(
    alloc: Global,
    fold: &mut Fold<'_>,
    query: &Query,
    known: &Known,
    need: &Require,
) -> Result<List<u32>, QueryFault>
    requires { AreKnown query.now fold.old known.now }
    ensures { Makes (spec.need_walk query.now known.now need.now fold.old) (λ g roots. All (HasTruth g) roots) (AreRootsOfNeed query.now known.now need.now) fold.old result fold.new }
{
    let source = source_of(need);
    let columns = columns_at(query, source);
    let rows = rows_at(known, source);
    told_of(source, roots_of(alloc, fold, columns, rows, need))
}

/// The number of the objective, where there is one.
fn aim_of_query(
    alloc: Global,
    fold: &mut Fold<'_>,
    query: &Query,
    known: &Known,
) -> Result<Option<u32>, QueryFault>
    requires fit { IsWellFormed query.now }
    requires known { AreKnown query.now fold.old known.now }
    ensures { Makes (spec.aim_walk query.now known.now query.now.aim fold.old) IsAim (IsAimOfQuery query.now known.now query.now.aim) fold.old result fold.new }
{
    match &query.aim {
        Aim::Find => Ok(None),
        Aim::Sum { source, part, .. } => {
            let id = sum_of(alloc, fold, query, known, *source, part)?;
            Ok(Some(id))
        }
    }
}

/// The number of a sum over a relation.
fn sum_of(
    alloc: Global,
    fold: &mut Fold<'_>,
    query: &Query,
    known: &Known,
    source: Source,
    part: &Expr,
) -> Result<u32, QueryFault>
    requires { AreKnown query.now fold.old known.now }
    ensures { Makes (spec.sum_walk query.now known.now source part.now fold.old) HasNumber (IsSumOver query.now known.now source part.now) fold.old result fold.new }
{
    let columns = columns_at(query, source);
    let rows = rows_at(known, source);
    told_of(source, aim_of(alloc, fold, columns, rows, part))
}
