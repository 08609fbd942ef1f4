//! The run: takes the job that the words ask for, does it, and writes the reply.

ghost use Rattle.std.specs.Prelude.{◌≡◌, ◌≤◌, IfOk, map, string_bytes};
ghost use Rattle.answer_text.specs.Answers.{IsAnswer};
ghost use Rattle.job_intake.specs.Ready.{IsReady};
ghost use Rattle.job_intake.specs.Visits.{visit};
ghost use Rattle.tiresias_core.specs.Causes.{IsChecked, IsDone, IsEvaluated, IsReply, IsSolved, KeepsFaults};
ghost use Rattle.tiresias_core.specs.Exact.{TellsAccepted, TellsAnswer, TellsEvaluation, TellsFinished, TellsNone, TellsOutcome, TellsReadFailed, TellsRefusal, TellsTooLarge, TellsWords, TellsWrite};
ghost use Rattle.tiresias_core.specs.Results.{Says};
ghost use Rattle.tiresias_core.specs.Runs.{Leaves, Tells};
ghost use Rattle.tiresias_core.specs.Sights.{saw};

use crate::excess::excess_of;
use crate::reply::{Reply, objective_of, status_of, text_of};
use crate::write::write_text;
use answer_text::Answer;
use base_kit::{Memory, Status};
use cert_check::{CheckFault, check_listed};
use job_intake::{Job, Stop, Task, take_job};
use outside_io::{Shelf, Sink, SinkFault};
use std::alloc::Global;
use world_def::EvalFault;
use world_eval::evaluate;
use world_listing::answer_listed;

/// Runs one command: reads the words after the program's name, fetches files from the shelf, and writes the reply to the
/// sink (docs/ANSWERS.md).
pub fn run<S: Shelf, K: Sink>(alloc: Global, words: &[String], shelf: &mut S, out: &mut K) -> Status
    // What each status says.
    ensures says { Says (saw words.now S.held S.fails S.misses S.faults shelf.old shelf.new K.written K.faults out.old out.new) result }

    // What is told exactly, whatever the shelf tells: other words, a fetch that failed, and that no write failed.
    ensures only_words { TellsWords (saw words.now S.held S.fails S.misses S.faults shelf.old shelf.new K.written K.faults out.old out.new) result }
    ensures reads { TellsReadFailed (saw words.now S.held S.fails S.misses S.faults shelf.old shelf.new K.written K.faults out.old out.new) result }
    ensures writes { TellsWrite (saw words.now S.held S.fails S.misses S.faults shelf.old shelf.new K.written K.faults out.old out.new) result }

    // Where the shelf tells which files there are and which fetches fail: the refusal, what is solved, and what is checked.
    ensures refused { TellsRefusal (saw words.now S.held S.fails S.misses S.faults shelf.old shelf.new K.written K.faults out.old out.new) result }
    ensures passes { TellsTooLarge (saw words.now S.held S.fails S.misses S.faults shelf.old shelf.new K.written K.faults out.old out.new) result }
    ensures answered { TellsAnswer (saw words.now S.held S.fails S.misses S.faults shelf.old shelf.new K.written K.faults out.old out.new) result }
    ensures none { TellsNone (saw words.now S.held S.fails S.misses S.faults shelf.old shelf.new K.written K.faults out.old out.new) result }
    ensures enough { TellsFinished (saw words.now S.held S.fails S.misses S.faults shelf.old shelf.new K.written K.faults out.old out.new) result }
    ensures checked { TellsOutcome (saw words.now S.held S.fails S.misses S.faults shelf.old shelf.new K.written K.faults out.old out.new) result }
    ensures evaluated { TellsEvaluation (saw words.now S.held S.fails S.misses S.faults shelf.old shelf.new K.written K.faults out.old out.new) result }
    ensures accepts { TellsAccepted (saw words.now S.held S.fails S.misses S.faults shelf.old shelf.new K.written K.faults out.old out.new) result }

    // All of it: which reply, with which cause, was written whole, cut, or in whole pieces.
    ensures leaves { Leaves (saw words.now S.held S.fails S.misses S.faults shelf.old shelf.new K.written K.faults out.old out.new) result }
{
    respond(alloc, words, shelf, out)
}

/// Decides on the reply, and writes it.
fn respond<S: Shelf, K: Sink>(alloc: Global, words: &[String], shelf: &mut S, out: &mut K) -> Status
    ensures reads { TellsReadFailed (saw words.now S.held S.fails S.misses S.faults shelf.old shelf.new K.written K.faults out.old out.new) result }
    ensures leaves { Leaves (saw words.now S.held S.fails S.misses S.faults shelf.old shelf.new K.written K.faults out.old out.new) result }
{
    match decide(alloc, words, shelf) {
        Ok(reply) => tell(alloc, &reply, out),
        Err(_) => Status::Memory,
    }
}

/// Writes the text of a reply, and gives the status.
fn tell<K: Sink>(alloc: Global, reply: &Reply, out: &mut K) -> Status
    ensures { Tells reply.now (K.written out.old) (K.written out.new) (K.faults out.old) (K.faults out.new) result }
{
    let text = match text_of(alloc, reply) {
        Ok(text) => text,
        Err(_) => return Status::Memory,
    };
    match write_text(alloc, out, text.as_slice()) {
        Ok(()) => status_of(reply),
        Err(SinkFault::Failed) => Status::Write,
        Err(SinkFault::Memory) => Status::Memory,
    }
}

/// The reply to a command: reads its job, and does it.
fn decide<S: Shelf>(alloc: Global, words: &[String], shelf: &mut S) -> Result<Reply, Memory>
    ensures kept { IfOk result (λ reply. KeepsFaults reply (S.faults shelf.old) (S.faults shelf.new)) }
    ensures cause { IfOk result (IsReply (map (λ word. string_bytes word) words.now) (visit S.held S.fails S.misses S.faults shelf.old shelf.new)) }
{
    match take_job(alloc, words, shelf) {
        Ok(job) => work(alloc, &job),
        Err(Stop::Refused(why)) => Ok(Reply::Refused(why)),
        Err(Stop::Memory) => Err(Memory),
    }
}

/// Does a job.
fn work(alloc: Global, job: &Job) -> Result<Reply, Memory>
    requires { IsReady job.now }
    ensures { IfOk result (IsDone job.now) }
{
    match &job.task {
        Task::Solve { nodes } => solve(alloc, job, *nodes),
        Task::Check { answer } => audit(alloc, job, answer),
        Task::Evaluate { answer } => tell_of(alloc, job, answer),
    }
}

/// Solves a job.
fn solve(alloc: Global, job: &Job, nodes: u32) -> Result<Reply, Memory>
    requires ready { IsReady job.now }
    requires budget { nodes ≤ 100000 }
    ensures { IfOk result (IsSolved job.now nodes) }
{
    match answer_listed(alloc, &job.query, &job.tables, &job.columns, nodes) {
        Ok(answer) => Ok(Reply::Answered(answer)),
        Err(fault) => Ok(Reply::TooLarge(excess_of(alloc, &job.query, fault)?)),
    }
}

/// Checks an answer to a job.
fn audit(alloc: Global, job: &Job, answer: &Answer) -> Result<Reply, Memory>
    requires ready { IsReady job.now }
    requires answer { IsAnswer answer.now }
    ensures { IfOk result (IsChecked job.now answer.now) }
{
    match check_listed(alloc, &job.query, &job.tables, &job.columns, answer) {
        Ok(()) => Ok(Reply::Accepted(objective_of(&answer.verdict))),
        Err(CheckFault::Rejected { reason, part, node }) => Ok(Reply::Rejected(reason, part, node)),
        Err(CheckFault::Wide { source, number }) => {
            let fault = EvalFault::Wide { source, number };
            Ok(Reply::TooLarge(excess_of(alloc, &job.query, fault)?))
        }
        Err(CheckFault::TooManyRows { view, limit }) => {
            let fault = EvalFault::TooManyRows { view, limit };
            Ok(Reply::TooLarge(excess_of(alloc, &job.query, fault)?))
        }
        Err(CheckFault::Memory) => Err(Memory),
    }
}

/// Evaluates an answer to a job.
fn tell_of(alloc: Global, job: &Job, answer: &Answer) -> Result<Reply, Memory>
    requires ready { IsReady job.now }
    ensures { IfOk result (IsEvaluated job.now answer.now) }
{
    match evaluate(alloc, &job.query, &job.tables, &job.columns, answer) {
        Ok(told) => Ok(Reply::Evaluated(told)),
        Err(fault) => Ok(Reply::TooLarge(excess_of(alloc, &job.query, fault)?)),
    }
}
