//! The walk of a query, and the columns and rows for what it came to.

ghost use Rattle.std.specs.Prelude.{◌≡◌, ◌<◌, Ok, length, IfOk, IfErr};
ghost use Rattle.ip_rows.specs.Programs.{IsMeasured, IsWellFormed as IsFormed};
ghost use Rattle.tiql_query.specs.Rows.{AreTables};
ghost use Rattle.tiql_query.specs.WellFormed.{IsWellFormed};
ghost use Rattle.whole_points.specs.Matched.{IsMatched};
ghost use Rattle.world_def.specs.Columns.{IsSmall, columns_of};
ghost use Rattle.sym_query.specs.Meant.{AreGroupedBy};
ghost use Rattle.agg_encode.specs.Built.{IsBuilt, TellsFault, goal_of as the_goal};
ghost use Rattle.agg_encode.specs.Encoding.{BeginsWithChoices, Encodes, HasSmallValues};

use crate::BuildFault;
use crate::fault::{of_program, of_walk};
use base_kit::List;
use bool_encode::ColumnMap;
use bumpalo::Bump;
use ip_rows::Program;
use program_rows::{Encoded, Goal, program_of};
use prov_fold::Fold;
use std::alloc::Global;
use sym_query::walk_query;
use tiql_query::{Aim, Query, WorldColumn};
use world_def::Tables;

/// The program of a query over its tables, with the formulas of which it was made, and what its columns stand for
/// (docs/ENCODING.md).
#[derive(Drop)]
pub struct Built<'a> {
    pub fold: Fold<'a>,
    pub program: Program,
    pub map: ColumnMap,
}

/// The program of a query over its tables (docs/ENCODING.md). Its whole points are the worlds that meet: the point of each possible world
/// that meets is one, at each the first numbers are those of one possible world, which meets, and its value is that world's score,
/// negated under MAXIMIZE and 0 of FIND.
///
/// The query is well formed, the tables are its tables, and the columns are its world columns over them. The errors are the first refusal of the walk, then
/// `TooManyColumns`, then `TooLargeProgram`; `Memory` may come at any time.
pub fn build<'a>(
    alloc: Global,
    arena: &'a Bump,
    query: &Query,
    tables: &Tables,
    columns: &List<WorldColumn>,
) -> Result<Built<'a>, BuildFault>
    requires fit { IsWellFormed query.now }
    requires tables { AreTables query.now tables.now }
    requires small { IsSmall query.now tables.now }
    requires views { length query.now.views < 4294967296 }
    requires columns { columns_of query.now tables.now ≡ Ok columns.now }

    // The list is that of the whole walk, and the program is the one for its roots and its objective; or the first refusal.
    ensures built { IfOk result (IsBuilt query.now tables.now columns.now) }
    ensures fault { IfErr result (TellsFault query.now tables.now columns.now) }

    // What code over programs asks of one.
    ensures formed { IfOk result (λ built. IsFormed built.program) }
    ensures measured { IfOk result (λ built. IsMeasured built.program) }
    ensures matched { IfOk result (λ built. IsMatched built.program built.fold built.map.stands) }
    ensures begins { IfOk result (λ built. BeginsWithChoices columns.now built.program built.map.stands) }
    ensures small { IfOk result (λ built. HasSmallValues built.program) }

    // Its whole points are the worlds that meet, with their scores.
    ensures encodes { IfOk result (λ built. AreGroupedBy query.now → Encodes query.now tables.now columns.now built.program built.fold built.map.stands) }
{
    let mut fold = match Fold::start(alloc, arena) {
        Ok(fold) => fold,
        Err(_) => return Err(BuildFault::Memory),
    };
    let goals = match walk_query(alloc, &mut fold, query, tables, columns) {
        Ok(goals) => goals,
        Err(fault) => return Err(of_walk(fault)),
    };
    let aim = goal_of(&query.aim, goals.aim);
    match program_of(
        alloc,
        &fold,
        columns.as_slice(),
        goals.roots.as_slice(),
        aim,
    ) {
        Ok(Encoded { program, map }) => Ok(Built { fold, program, map }),
        Err(fault) => Err(of_program(fault)),
    }
}

/// What is minimized: the number of the objective, with the other sign under MAXIMIZE.
fn goal_of(aim: &Aim, number: Option<u32>) -> Option<Goal>
    ensures { result ≡ the_goal aim.now number }
{
    let number = number?;
    match aim {
        Aim::Find => None,
        Aim::Sum { maximize, .. } => Some(Goal {
            number,
            maximize: *maximize,
        }),
    }
}
