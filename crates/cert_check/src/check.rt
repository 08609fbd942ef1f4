//! The check of an answer: whether it is valid, or its first reason.

ghost use Rattle.std.specs.Prelude.{◌≡◌, ◌≤◌, ◌<◌, ◌^◌, unsigned_abs, Ok, Some, List, IfOk, MatchResult, ⊤, length};
ghost use Rattle.std.specs.List.{AllZip};
ghost use Rattle.answer_text.specs.Answers.{IsAnswer};
ghost use Rattle.branch_tree.specs.Tree.{Tree, preorder};
ghost use Rattle.tiql_query.specs.Rows.{AreTables};
ghost use Rattle.tiql_query.specs.WellFormed.{IsWellFormed};
ghost use Rattle.world_def.specs.Columns.{IsSmall, columns_of};
ghost use Rattle.world_def.specs.Judging.{IsSmallWorld};
ghost use Rattle.world_points.specs.Points as points;
ghost use Rattle.world_points.specs.Subject.{IsSubject};
ghost use Rattle.cert_check.specs.Checks as told;
ghost use Rattle.cert_check.specs.Reasons as spec;
ghost use Rattle.cert_check.specs.Valid.{IsRight, IsValid, NoFaults};

use crate::audit::Audit;
use crate::fault::{CheckFault, Reject};
use crate::part::{are_all_parts, have_two, is_the_part};
use crate::subject::Subject;
use answer_text::{Answer, PartAnswer, Verdict, WorldText};
use base_kit::List;
use ip_rows::Bounds;
use std::alloc::Global;
use tiql_query::{Query, WorldColumn};
use world_def::{Tables, World, score_met};
use world_points::{cost, sides_of};

/// Checks an answer to a query over its tables: nothing where it is valid, else its first reason, or the first fault of a
/// world that is judged before a reason comes, a value that is too large or a view with too many rows (docs/ANSWERS.md).
///
/// The query is well formed, the tables are its own, the columns are those of `world_columns` for them, and
/// the answer is one that was read.
pub fn check_listed(
    alloc: Global,
    query: &Query,
    tables: &Tables,
    columns: &List<WorldColumn>,
    answer: &Answer,
) -> Result<(), CheckFault>
    requires made { columns_of query.now tables.now ≡ Ok columns.now }
    requires small { IsSmall query.now tables.now }
    requires count { length query.now.requires_ < 4294967295 }
    requires tables { AreTables query.now tables.now }
    requires fit { IsWellFormed query.now }
    requires answer { IsAnswer answer.now }

    // The first reason is told, with its part and node, and so is the fault of a world.
    ensures reason { spec.TellsFirst query.now tables.now columns.now answer.now result }

    // An answer that is accepted is valid, and a valid one is accepted where no judged world is at fault, unless memory
    // runs out.
    ensures valid { IfOk result (λ _. IsValid query.now tables.now columns.now answer.now) }
    ensures accepted { IsValid query.now tables.now columns.now answer.now → NoFaults query.now tables.now columns.now answer.now.verdict
        → MatchResult result (λ _. ⊤) (λ fault. fault ≡ CheckFault.Memory) }

    // What an accepted answer says is right, whoever wrote it.
    ensures right { IfOk result (λ _. IsRight query.now tables.now answer.now.verdict) }
{
    let subject = Subject {
        query,
        tables,
        columns,
    };
    check_answer(alloc, &subject, answer)
}

/// Checks an answer.
fn check_answer(alloc: Global, subject: &Subject, answer: &Answer) -> Result<(), CheckFault>
    requires subject { IsSubject subject.now.query.now subject.now.tables.now subject.now.columns.now }
    requires answer { IsAnswer answer.now }
    ensures { spec.TellsFirst subject.now.query.now subject.now.tables.now subject.now.columns.now answer.now result }
{
    match &answer.verdict {
        Verdict::Optimal {
            objective,
            worlds,
            parts,
        } => {
            check_program(answer)?;
            check_optimal(alloc, subject, *objective, worlds, parts.as_slice())
        }
        Verdict::FalseRow { row } => {
            check_program(answer)?;
            check_row(alloc, subject, *row)
        }
        Verdict::NoWorld { part } => {
            check_program(answer)?;
            check_no_world(alloc, subject, part)
        }
        Verdict::Unfinished { .. } => need(false, Reject::Unfinished),
    }
}

/// The reason comes unless the test holds.
fn need(holds: bool, reason: Reject) -> Result<(), CheckFault>
    ensures { result ≡ spec.unless holds reason 0 0 }
{
    if holds {
        Ok(())
    } else {
        Err(CheckFault::Rejected {
            reason,
            part: 0,
            node: 0,
        })
    }
}

/// Checks the three numbers of the program: none is made yet.
fn check_program(answer: &Answer) -> Result<(), CheckFault>
    ensures { result ≡ spec.unless (spec.has_no_program answer.now) Reject.WrongProgram 0 0 }
{
    need(
        answer.columns == 0 && answer.rows == 0 && answer.formulas == 0,
        Reject::WrongProgram,
    )
}

/// Checks an optimal answer.
fn check_optimal(
    alloc: Global,
    subject: &Subject,
    objective: i64,
    worlds: &List<WorldText>,
    parts: &[PartAnswer],
) -> Result<(), CheckFault>
    requires { IsSubject subject.now.query.now subject.now.tables.now subject.now.columns.now }
    ensures { told.TellsOptimal subject.now.query.now subject.now.tables.now subject.now.columns.now objective worlds.now parts.now result }
{
    let Some(world) = subject.given(alloc, worlds)? else {
        return need(false, Reject::WrongWorld);
    };
    let best = check_world(alloc, subject, objective, &world)?;
    check_parts(alloc, subject, Some(best), parts)
}

/// Checks that a world meets and has the objective as its score. It gives the world's cost.
#[tactic(auto, unfolding(crate::specs::Reasons::cost_of))]
fn check_world(
    alloc: Global,
    subject: &Subject,
    objective: i64,
    world: &World,
) -> Result<i128, CheckFault>
    requires subject { IsSubject subject.now.query.now subject.now.tables.now subject.now.columns.now }
    requires small { IsSmallWorld subject.now.tables.now world.now }
    ensures { told.TellsCost (spec.cost_of subject.now.query.now subject.now.tables.now objective world.now) result }
{
    match score_met(alloc, subject.query, subject.tables, world)? {
        Some(score) => cost_for(subject.query, objective, score),
        None => Err(CheckFault::Rejected {
            reason: Reject::WorldBreaks,
            part: 0,
            node: 0,
        }),
    }
}

/// Checks that the objective is a world's score. It gives the world's cost.
fn cost_for(query: &Query, objective: i64, score: i128) -> Result<i128, CheckFault>
    requires { unsigned_abs score ≤ 10 ^ 17 }
    ensures { result ≡ spec.cost_for query.now objective (Some score) }
{
    need(i128::from(objective) == score, Reject::WrongObjective)?;
    Ok(cost(&query.aim, score))
}

/// Checks an impossible answer with a row.
fn check_row(alloc: Global, subject: &Subject, row: u32) -> Result<(), CheckFault>
    requires { IsSubject subject.now.query.now subject.now.tables.now subject.now.columns.now }
    ensures { told.TellsOutcome (spec.of_row subject.now.query.now subject.now.tables.now subject.now.columns.now row) result }
{
    let root = sides_of(alloc, subject.columns.as_slice())?;
    need(row == 0 && !have_two(root.as_slice()), Reject::RowHolds)?;
    let value = subject.judge(alloc, root.as_slice())?;
    need(value.is_none(), Reject::RowHolds)
}

/// Checks an impossible answer with a part.
fn check_no_world(alloc: Global, subject: &Subject, part: &PartAnswer) -> Result<(), CheckFault>
    requires { IsSubject subject.now.query.now subject.now.tables.now subject.now.columns.now }
    ensures { (tree : Tree) → part.now.tree ≡ preorder tree → told.TellsOutcome (told.of_part subject.now.query.now subject.now.tables.now subject.now.columns.now part.now tree) result }
{
    let root = sides_of(alloc, subject.columns.as_slice())?;
    need(
        have_two(root.as_slice()) && is_the_part(root.as_slice(), part),
        Reject::WrongParts,
    )?;
    check_part(alloc, subject, root, None, part)
}

/// Checks the parts against a best value.
fn check_parts(
    alloc: Global,
    subject: &Subject,
    best: Option<i128>,
    parts: &[PartAnswer],
) -> Result<(), CheckFault>
    requires { IsSubject subject.now.query.now subject.now.tables.now subject.now.columns.now }
    ensures { (trees : List Tree) → AllZip (λ part tree. part.tree ≡ preorder tree) parts.now trees → told.TellsOutcome (spec.of_parts subject.now.query.now subject.now.tables.now subject.now.columns.now best parts.now trees) result }
{
    let root = sides_of(alloc, subject.columns.as_slice())?;
    need(are_all_parts(root.as_slice(), parts), Reject::WrongParts)?;
    match parts {
        [part] => check_part(alloc, subject, root, best, part),
        _ => Ok(()),
    }
}

/// Checks a part with this box against a best value.
fn check_part(
    alloc: Global,
    subject: &Subject,
    root: List<Bounds>,
    best: Option<i128>,
    part: &PartAnswer,
) -> Result<(), CheckFault>
    requires subject { IsSubject subject.now.query.now subject.now.tables.now subject.now.columns.now }
    requires root { root ≡ points.root subject.now.columns.now }
    ensures { (tree : Tree) → part.now.tree ≡ preorder tree → told.TellsOutcome (spec.in_part subject.now.query.now subject.now.tables.now subject.now.columns.now best part.now tree) result }
{
    if part.best != best {
        return Err(CheckFault::Rejected {
            reason: Reject::BestDiffers,
            part: part.number,
            node: 0,
        });
    }
    let audit = Audit {
        subject: *subject,
        best,
        part: part.number,
    };
    audit.check_tree(alloc, root, &part.tree)
}
