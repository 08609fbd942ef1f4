//! What is to be done with a query and its tables.

ghost use Rattle.std.specs.Prelude.{◌≡◌, ◌+◌, ◌^◌, ◌<◌, length, OnOk};
ghost use Rattle.job_intake.specs.Forms as forms;
ghost use Rattle.job_intake.specs.Steps.{Follows, FailsAs, KeepsCounts};
ghost use Rattle.job_intake.specs.Tasks as spec;
ghost use Rattle.job_intake.specs.Visits.{visit};

use crate::fetch::{MOST_ANSWER_BYTES, fetch_file};
use crate::job::Task;
use crate::refusal::{Refusal, Stop};
use crate::words::Command;
use answer_text::{Answer, AnswerFault, read_answer};
use outside_io::Shelf;
use std::alloc::Global;

/// The task of a command: to solve, or to check or evaluate the answer, which is fetched and read.
pub fn task_of<S: Shelf>(alloc: Global, shelf: &mut S, command: Command<'_>) -> Result<Task, Stop>
    ensures held { S.held shelf.new ≡ S.held shelf.old }
    ensures counts { OnOk result (KeepsCounts (visit S.held S.fails S.misses S.faults shelf.old shelf.new)) }
    ensures failed { FailsAs (S.faults shelf.old) (S.faults shelf.new) result }
    ensures comes { Follows (spec.TaskComes (visit S.held S.fails S.misses S.faults shelf.old shelf.new) (forms.command command.entry)) result }
{
    match command {
        Command::Solve { nodes } => Ok(Task::Solve { nodes }),
        Command::Check { answer } => Ok(Task::Check {
            answer: answer_of(alloc, shelf, answer)?,
        }),
        Command::Evaluate { answer } => Ok(Task::Evaluate {
            answer: answer_of(alloc, shelf, answer)?,
        }),
    }
}

/// The answer in the file of this name.
fn answer_of<S: Shelf>(alloc: Global, shelf: &mut S, name: &str) -> Result<Answer, Stop>
    ensures held { S.held shelf.new ≡ S.held shelf.old }
    ensures counts { OnOk result (KeepsCounts (visit S.held S.fails S.misses S.faults shelf.old shelf.new)) }
    ensures failed { FailsAs (S.faults shelf.old) (S.faults shelf.new) result }
    ensures comes { Follows (spec.AnswerComes (visit S.held S.fails S.misses S.faults shelf.old shelf.new) name.now) result }
{
    let bytes = fetch_file(alloc, shelf, name, MOST_ANSWER_BYTES)?;
    read(alloc, bytes.as_slice())
}

/// The answer whose text the bytes are.
fn read(alloc: Global, bytes: &[u8]) -> Result<Answer, Stop>
    requires { length bytes.now + 1 < 2 ^ 32 }
    ensures { Follows (spec.TextComes bytes.now) result }
{
    match read_answer(alloc, bytes) {
        Ok(answer) => Ok(answer),
        Err(AnswerFault::BadAnswer { line }) => Err(Stop::Refused(Refusal::Unreadable { line })),
        Err(AnswerFault::Memory) => Err(Stop::Memory),
    }
}
