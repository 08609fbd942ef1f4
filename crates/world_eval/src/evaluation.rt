//! What an answer comes to over its query and tables.

ghost use Rattle.std.specs.Prelude.{◌≡◌, ◌<◌, ◌↔◌, Ok, IfOk, IsTrue, length};
ghost use Rattle.tiql_query.specs.Rows.{AreTables};
ghost use Rattle.tiql_query.specs.WellFormed.{IsWellFormed};
ghost use Rattle.world_def.specs.Columns.{IsSmall, columns_of};
ghost use Rattle.world_def.specs.Judging.{IsSmallWorld};
ghost use Rattle.world_def.specs.Views.{Gives};
ghost use Rattle.world_eval.specs.Evaluating as spec;

use crate::lines::{possible_line, put_judged};
use crate::standing::{Standing, standing_of};
use crate::tables::views_text;
use answer_text::{Answer, Verdict, WorldText};
use base_kit::List;
use std::alloc::Global;
use tiql_query::{Query, WorldColumn};
use world_def::{EvalFault, Tables, World, meets, score};

/// What an answer comes to (docs/ANSWERS.md, "Evaluating").
#[derive(Debug, Drop)]
pub enum Evaluation {
    /// The verdict is not optimal, so that there is no world.
    NoWorld,
    /// What is told of the answer's world.
    Told {
        /// The lines, and the tables of the views among them.
        text: List<u8>,
        /// Whether the world is possible and meets what is required.
        met: bool,
    },
}

/// The evaluation of an answer over its query and tables (docs/ANSWERS.md, "Evaluating").
///
/// The query is checked, the tables are those that it may have, and the columns are those of `world_columns` for both. A fault is
/// that of `view_rows`, `meets` or `score` on the answer's world, where this is possible, in the order of the text; or `Memory`.
pub fn evaluate(
    alloc: Global,
    query: &Query,
    tables: &Tables,
    columns: &List<WorldColumn>,
    answer: &Answer,
) -> Result<Evaluation, EvalFault>
    requires fit { IsWellFormed query.now }
    requires tables { AreTables query.now tables.now }
    requires small { IsSmall query.now tables.now }
    requires columns { columns_of query.now tables.now ≡ Ok columns.now }
    requires views { length query.now.views < 4294967295 }
    requires count { length query.now.requires_ < 4294967295 }
    ensures told { spec.Evaluates query.now tables.now answer.now.verdict result }
    ensures each { spec.EvaluatesEach query.now tables.now answer.now.verdict result }
    ensures meant { IfOk result (spec.IsMeant query.now tables.now answer.now.verdict) }
    ensures met { IfOk result (spec.IsMetExactly query.now tables.now answer.now.verdict) }
{
    match &answer.verdict {
        Verdict::Optimal { worlds, .. } => {
            evaluate_sections(alloc, query, tables, columns, worlds)
        }
        Verdict::FalseRow { .. } => Ok(Evaluation::NoWorld),
        Verdict::NoWorld { .. } => Ok(Evaluation::NoWorld),
        Verdict::Unfinished { .. } => Ok(Evaluation::NoWorld),
    }
}

/// The evaluation of an optimal answer with these sections.
fn evaluate_sections(
    alloc: Global,
    query: &Query,
    tables: &Tables,
    columns: &List<WorldColumn>,
    sections: &List<WorldText>,
) -> Result<Evaluation, EvalFault>
    requires fit { IsWellFormed query.now }
    requires tables { AreTables query.now tables.now }
    requires small { IsSmall query.now tables.now }
    requires columns { columns_of query.now tables.now ≡ Ok columns.now }
    requires views { length query.now.views < 4294967295 }
    requires count { length query.now.requires_ < 4294967295 }
    ensures told { spec.Tells query.now tables.now sections.now result }
    ensures each { spec.TellsEach query.now tables.now sections.now result }
    ensures meant { IfOk result (spec.MeansEach query.now tables.now sections.now) }
    ensures met { IfOk result (λ told. IsTrue (spec.is_met told) ↔ spec.HaveWorld query.now tables.now sections.now) }
{
    let standing = standing_of(alloc, query, tables, columns, sections)?;
    evaluation_of(alloc, query, tables, &standing)
}

/// What is told of how the world of an answer stands.
#[tactic(auto, unfolding(crate::specs::Evaluating::evaluation))]
fn evaluation_of(
    alloc: Global,
    query: &Query,
    tables: &Tables,
    standing: &Standing,
) -> Result<Evaluation, EvalFault>
    requires fit { IsWellFormed query.now }
    requires small { spec.IsSmallStanding tables.now standing.now }
    requires views { length query.now.views < 4294967295 }
    requires count { length query.now.requires_ < 4294967295 }
    ensures { Gives (spec.evaluation query.now tables.now standing.now) result }
{
    match standing {
        Standing::NotPossible { name } => Ok(Evaluation::Told {
            text: possible_line(alloc, name.as_slice())?,
            met: false,
        }),
        Standing::Possible { world } => evaluation_in(alloc, query, tables, world),
    }
}

/// What is told of a world: its views, then whether it meets, then its score.
#[tactic(auto, unfolding(crate::specs::Evaluating::world_told))]
fn evaluation_in(
    alloc: Global,
    query: &Query,
    tables: &Tables,
    world: &World,
) -> Result<Evaluation, EvalFault>
    requires fit { IsWellFormed query.now }
    requires small { IsSmallWorld tables.now world.now }
    requires views { length query.now.views < 4294967295 }
    requires count { length query.now.requires_ < 4294967295 }
    ensures { Gives (spec.world_told query.now tables.now world.now) result }
{
    let mut text = views_text(alloc, query, tables, world)?;
    let broken = meets(alloc, query, tables, world)?;
    let score = score(alloc, query, tables, world)?;
    put_judged(alloc, broken, score, &mut text)?;
    Ok(Evaluation::Told {
        text: List::from_vec(text),
        met: broken.is_none(),
    })
}
