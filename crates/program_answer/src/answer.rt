//! The answer to a query: the worlds of its program are listed, and what was found is told with its tree.

ghost use Rattle.std.specs.Prelude.{◌≡◌, ◌≤◌, ◌<◌, ◌^◌, length, unsigned_abs, IfOk, IfErr};
ghost use Rattle.ip_rows.specs.Programs.{IsMeasured, IsWellFormed};
ghost use Rattle.world_points.specs.Points as points;
ghost use Rattle.world_points.specs.Subject.{IsSubject};
ghost use Rattle.whole_points.specs.Matched.{IsMatched};
ghost use Rattle.whole_points.specs.Points.{IsWholePoint};
ghost use Rattle.agg_encode.specs.Encoding.{BeginsWithChoices, Encodes, HasSmallValues};
ghost use Rattle.program_leaves.specs.Leaves.{IsTooLarge};
ghost use Rattle.point_listing.specs.Solving.{IsSolved, TellsTooLarge};
ghost use Rattle.program_answer.specs.Answers as spec;

use crate::sections::sections_of;
use agg_encode::Built;
use answer_text::{Answer, PartAnswer, Verdict};
use base_kit::{List, Memory};
use point_listing::{SolveFault, Solved, list_points};
use std::alloc::Global;
use tiql_query::{Aim, Query, WorldColumn};
use world_def::{Tables, world_at};

/// The answer to a query over its tables, of which this program was built, with a budget of worked nodes (docs/ANSWERS.md).
///
/// The query is checked, the columns are those of `world_columns` for the same query and tables, and the program is that of `build` for all
/// three. The fault is that a part of the program is too large, or want of memory.
pub fn answer_built(
    alloc: Global,
    query: &Query,
    tables: &Tables,
    columns: &List<WorldColumn>,
    built: &Built<'_>,
    budget: u32,
) -> Result<Answer, SolveFault>
    requires subject { IsSubject query.now tables.now columns.now }
    requires formed { IsWellFormed built.now.program }
    requires measured { IsMeasured built.now.program }
    requires matched { IsMatched built.now.program built.now.fold built.now.map.stands }
    requires begins { BeginsWithChoices columns.now built.now.program built.now.map.stands }
    requires encodes { Encodes query.now tables.now columns.now built.now.program built.now.fold built.now.map.stands }
    requires small { HasSmallValues built.now.program }
    requires budget { budget < 2 ^ 31 }

    // What is answered is right by the program's points and by the worlds; or the program's part is too large.
    ensures answer { IfOk result (spec.Answers query.now tables.now columns.now built.now.program built.now.fold built.now.map.stands budget) }
    ensures fault { IfErr result (TellsTooLarge built.now.program) }
{
    let solved = list_points(alloc, &built.program, &built.fold, &built.map, budget)?;
    let subject = Subject {
        query,
        tables,
        columns,
    };
    let verdict = verdict_of(alloc, &subject, built, budget, solved)?;
    Ok(answer_of(built, verdict))
}

/// What is answered: a query over its tables, with the columns that tell its worlds apart.
#[derive(Clone, Copy, Debug)]
pub(crate) struct Subject<'a> {
    pub query: &'a Query,
    pub tables: &'a Tables,
    pub columns: &'a List<WorldColumn>,
}

/// The answer with a verdict, and the three numbers of what was built.
fn answer_of(built: &Built<'_>, verdict: Verdict) -> Answer
    requires { IsMeasured built.now.program }
    ensures columns { result.columns ≡ length built.now.program.columns }
    ensures rows { result.rows ≡ length built.now.program.rows }
    ensures formulas { result.formulas ≡ length built.now.fold.parts }
    ensures verdict { result.verdict ≡ verdict }
{
    Answer {
        columns: built.program.columns.len() as u32,
        rows: built.program.rows.len() as u32,
        formulas: built.fold.prov().len(),
        verdict,
    }
}

/// The verdict that tells how the work ended.
fn verdict_of(
    alloc: Global,
    subject: &Subject<'_>,
    built: &Built<'_>,
    budget: u32,
    solved: Solved,
) -> Result<Verdict, Memory>
    requires subject { IsSubject subject.now.query.now subject.now.tables.now subject.now.columns.now }
    requires formed { IsWellFormed built.now.program }
    requires measured { IsMeasured built.now.program }
    requires begins { BeginsWithChoices subject.now.columns.now built.now.program built.now.map.stands }
    requires encodes { Encodes subject.now.query.now subject.now.tables.now subject.now.columns.now built.now.program built.now.fold built.now.map.stands }
    requires small { HasSmallValues built.now.program }
    requires solved { IsSolved built.now.program built.now.fold built.now.map.stands budget solved }
    ensures { IfOk result (spec.IsVerdictFor subject.now.query.now subject.now.tables.now subject.now.columns.now built.now.program built.now.fold built.now.map.stands budget) }
{
    match solved {
        Solved::Best { point, parts } => optimal(alloc, subject, built, point, parts),
        Solved::FalseRow { row } => Ok(Verdict::FalseRow { row }),
        Solved::NoWorld { part } => Ok(Verdict::NoWorld { part }),
        Solved::Spent { parts } => Ok(Verdict::Unfinished {
            nodes: budget,
            parts,
        }),
    }
}

/// The optimal answer with the world of a whole point.
fn optimal(
    alloc: Global,
    subject: &Subject<'_>,
    built: &Built<'_>,
    point: List<i64>,
    parts: List<PartAnswer>,
) -> Result<Verdict, Memory>
    requires subject { IsSubject subject.now.query.now subject.now.tables.now subject.now.columns.now }
    requires formed { IsWellFormed built.now.program }
    requires measured { IsMeasured built.now.program }
    requires begins { BeginsWithChoices subject.now.columns.now built.now.program built.now.map.stands }
    requires encodes { Encodes subject.now.query.now subject.now.tables.now subject.now.columns.now built.now.program built.now.fold built.now.map.stands }
    requires small { HasSmallValues built.now.program }
    requires whole { IsWholePoint built.now.program point }
    ensures { IfOk result (spec.IsOf subject.now.query.now subject.now.tables.now subject.now.columns.now built.now.program point parts) }
{
    let numbers = &point.as_slice()[..subject.columns.len()];
    let world = world_at(
        alloc,
        subject.query,
        subject.tables,
        subject.columns,
        numbers,
    )?;
    let worlds = sections_of(
        alloc,
        subject.query.hypos.as_slice(),
        world.tables.as_slice(),
    )?;
    let value = built.program.value(point.as_slice());
    Ok(Verdict::Optimal {
        objective: score_of(&subject.query.aim, value),
        worlds,
        parts,
    })
}

/// The score of a world whose point has this value.
#[tactic(auto, unfolding(world_points::specs::Points::cost))]
fn score_of(aim: &Aim, value: i128) -> i64
    requires { unsigned_abs value ≤ 10 ^ 17 }
    ensures { result ≡ points.cost aim.now value }
{
    match aim {
        Aim::Find => value as i64,
        Aim::Sum { maximize, .. } => {
            if *maximize {
                -(value as i64)
            } else {
                value as i64
            }
        }
    }
}
