//! A job: a query, its tables and their world columns, and what is to be done with them.

ghost use Rattle.std.specs.Prelude.{◌≡◌, map, string_bytes, IfOk};
ghost use Rattle.job_intake.specs.Asking.{IsAsked};
ghost use Rattle.job_intake.specs.Forms as forms;
ghost use Rattle.job_intake.specs.Jobs as spec;
ghost use Rattle.job_intake.specs.Ready.{IsReady};
ghost use Rattle.job_intake.specs.Steps.{Follows, FailsAs};
ghost use Rattle.job_intake.specs.Visits.{visit};

use crate::ask::ask;
use crate::bound::bounds;
use crate::fetch::{MOST_FILE_BYTES, fetch_file};
use crate::limit::limit;
use crate::load::load_tables;
use crate::refusal::{Refusal, Stop};
use crate::task::task_of;
use crate::words::{Command, Form, form_of};
use answer_text::Answer;
use base_kit::List;
use outside_io::Shelf;
use std::alloc::Global;
use tiql_query::{Query, WorldColumn};
use world_def::Tables;

/// What is to be done.
#[derive(Debug, Drop)]
pub enum Task {
    /// To solve, within so many nodes: 1 to 100,000.
    Solve { nodes: u32 },
    /// To check this answer.
    Check { answer: Answer },
    /// To evaluate this answer.
    Evaluate { answer: Answer },
}

/// What a command works on.
#[derive(Debug, Drop)]
pub struct Job {
    /// The query: it is sound.
    pub query: Query,
    /// The rows of its tables.
    pub tables: Tables,
    /// Its world columns: the choices that tell its worlds apart.
    pub columns: List<WorldColumn>,
    /// What is to be done.
    pub task: Task,
}

/// The job of a command: `solve QUERY DIR`, `solve QUERY DIR NODES`, `check QUERY DIR ANSWER` or `eval QUERY DIR ANSWER`. Each file is fetched once,
/// in the order of docs/ANSWERS.md, "Refusals": the query, its tables as they are declared, and the answer.
///
/// `Refused` is the first refusal in that order; `Memory` may come at any step.
pub fn take_job<S: Shelf>(alloc: Global, words: &[String], shelf: &mut S) -> Result<Job, Stop>
    ensures held { S.held shelf.new ≡ S.held shelf.old }
    ensures failed { FailsAs (S.faults shelf.old) (S.faults shelf.new) result }
    ensures comes { Follows (spec.Comes (map (λ word. string_bytes word) words.now) (visit S.held S.fails S.misses S.faults shelf.old shelf.new)) result }
    ensures ready { IfOk result IsReady }
{
    match form_of(words) {
        Some(form) => open(alloc, shelf, form),
        None => Err(Stop::Refused(Refusal::Words)),
    }
}

/// The job, from the query's file on.
fn open<S: Shelf>(alloc: Global, shelf: &mut S, form: Form<'_>) -> Result<Job, Stop>
    ensures held { S.held shelf.new ≡ S.held shelf.old }
    ensures failed { FailsAs (S.faults shelf.old) (S.faults shelf.new) result }
    ensures comes { Follows (spec.Opened (visit S.held S.fails S.misses S.faults shelf.old shelf.new) (forms.form form.entry)) result }
{
    let Form {
        query: name,
        folder,
        command,
    } = form;
    let text = fetch_file(alloc, shelf, name, MOST_FILE_BYTES)?;
    let query = ask(alloc, text.as_slice())?;
    load(alloc, shelf, folder, command, query)
}

/// The job, from the tables' files on.
fn load<S: Shelf>(
    alloc: Global,
    shelf: &mut S,
    folder: &str,
    command: Command<'_>,
    query: Query,
) -> Result<Job, Stop>
    requires { IsAsked query }
    ensures held { S.held shelf.new ≡ S.held shelf.old }
    ensures failed { FailsAs (S.faults shelf.old) (S.faults shelf.new) result }
    ensures comes { Follows (spec.Loaded (visit S.held S.fails S.misses S.faults shelf.old shelf.new) folder.now (forms.command command.entry) query) result }
{
    let tables = load_tables(alloc, shelf, folder, query.tables.as_slice())?;
    let columns = bounds(alloc, &query, &tables)?;
    finish(alloc, shelf, command, query, tables, columns)
}

/// The job, from its task on.
fn finish<S: Shelf>(
    alloc: Global,
    shelf: &mut S,
    command: Command<'_>,
    query: Query,
    tables: Tables,
    columns: List<WorldColumn>,
) -> Result<Job, Stop>
    ensures held { S.held shelf.new ≡ S.held shelf.old }
    ensures failed { FailsAs (S.faults shelf.old) (S.faults shelf.new) result }
    ensures comes { Follows (spec.Finished (visit S.held S.fails S.misses S.faults shelf.old shelf.new) (forms.command command.entry) query tables columns) result }
{
    let task = task_of(alloc, shelf, command)?;
    limit(&task, columns.as_slice())?;
    Ok(Job {
        query,
        tables,
        columns,
        task,
    })
}
