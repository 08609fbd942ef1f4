//! Replies to a command, with the status and the text of each.

ghost use Rattle.std.specs.Prelude.{◌≡◌, IfOk};
ghost use Rattle.tiresias_core.specs.Replies as spec;
ghost use Rattle.tiresias_core.specs.Verdicts as verdicts;

use crate::excess::{Excess, excess_line};
use crate::line::line_of;
use crate::refusal::{refusal_line, refusal_status};
use answer_text::{Answer, Verdict, write_answer};
use base_kit::{Duplicate, List, Memory, Status};
use cert_check::Reject;
use job_intake::Refusal;
use std::alloc::Global;
use world_eval::Evaluation;

/// The reply to a command.
#[derive(Debug, Drop)]
pub(crate) enum Reply {
    /// The command is refused.
    Refused(Refusal),
    /// The query is answered.
    Answered(Answer),
    /// This passes in a world that was looked at.
    TooLarge(Excess),
    /// The checked answer is valid; the objective where it is optimal.
    Accepted(Option<i64>),
    /// The checked answer is not valid: the first reason, with its part and node.
    Rejected(Reject, u32, u32),
    /// The answer is evaluated.
    Evaluated(Evaluation),
}

/// The status of a reply.
pub(crate) fn status_of(reply: &Reply) -> Status
    ensures { result ≡ spec.status_of reply.now }
{
    match reply {
        Reply::Refused(why) => refusal_status(why),
        Reply::Answered(answer) => verdict_status(&answer.verdict),
        Reply::TooLarge(_) => Status::Size,
        Reply::Accepted(_) => Status::Done,
        Reply::Rejected(_, _, _) => Status::Rejected,
        Reply::Evaluated(told) => evaluation_status(told),
    }
}

/// The status of an evaluation: the world is possible and meets, or not.
fn evaluation_status(told: &Evaluation) -> Status
    ensures { result ≡ spec.evaluation_status told.now }
{
    match told {
        Evaluation::NoWorld => Status::Rejected,
        Evaluation::Told { met, .. } => { if *met { Status::Done } else { Status::Rejected } }
    }
}

/// The status of an answer, by its verdict.
fn verdict_status(verdict: &Verdict) -> Status
    ensures { result ≡ spec.verdict_status verdict.now }
{
    match verdict {
        Verdict::Optimal { .. } => Status::Done,
        Verdict::FalseRow { .. } => Status::Impossible,
        Verdict::NoWorld { .. } => Status::Impossible,
        Verdict::Unfinished { .. } => Status::Unfinished,
    }
}

/// The whole text of a reply.
pub(crate) fn text_of(alloc: Global, reply: &Reply) -> Result<List<u8>, Memory>
    ensures { IfOk result (λ text. text ≡ spec.text_of reply.now) }
{
    match reply {
        Reply::Refused(why) => refusal_line(alloc, why),
        Reply::Answered(answer) => write_answer(alloc, answer),
        Reply::TooLarge(told) => excess_line(alloc, told),
        Reply::Accepted(objective) => accepted_line(alloc, *objective),
        Reply::Rejected(reason, part, node) => rejected_line(alloc, *reason, *part, *node),
        Reply::Evaluated(told) => evaluation_text(alloc, told),
    }
}

/// The text of an evaluation.
fn evaluation_text(alloc: Global, told: &Evaluation) -> Result<List<u8>, Memory>
    ensures { IfOk result (λ text. text ≡ spec.evaluation_text told.now) }
{
    match told {
        Evaluation::NoWorld => line_of(alloc, "rejected: no world 0 0"),
        Evaluation::Told { text, .. } => text.copy(alloc),
    }
}

/// The line of an answer that is accepted.
fn accepted_line(alloc: Global, objective: Option<i64>) -> Result<List<u8>, Memory>
    ensures { IfOk result (λ line. line ≡ spec.accepted_line objective) }
{
    match objective {
        Some(objective) => {
            let text = format!(in alloc; "accepted optimal {objective}")?;
            line_of(alloc, text.as_str())
        }
        None => line_of(alloc, "accepted impossible"),
    }
}

/// The line of an answer that is not valid.
fn rejected_line(alloc: Global, reason: Reject, part: u32, node: u32) -> Result<List<u8>, Memory>
    ensures { IfOk result (λ line. line ≡ spec.rejected_line reason part node) }
{
    let words = reason_words(reason);
    let text = format!(in alloc; "rejected: {words} {part} {node}")?;
    line_of(alloc, text.as_str())
}

/// The words of a reason.
fn reason_words(reason: Reject) -> &'static str
    ensures { result.now ≡ spec.reason_words reason }
{
    match reason {
        Reject::Unfinished => "unfinished",
        Reject::WrongProgram => "wrong program",
        Reject::WrongWorld => "wrong world",
        Reject::WorldBreaks => "world breaks",
        Reject::WrongObjective => "wrong objective",
        Reject::RowHolds => "row holds",
        Reject::WrongParts => "wrong parts",
        Reject::BestDiffers => "best differs",
        Reject::WrongSplit => "wrong split",
        Reject::OpenNode => "open node",
        Reject::NotFixed => "not fixed",
        Reject::FixedBeats => "fixed beats",
    }
}

/// The objective of an optimal answer.
pub(crate) fn objective_of(verdict: &Verdict) -> Option<i64>
    ensures { result ≡ verdicts.objective_of verdict.now }
{
    match verdict {
        Verdict::Optimal { objective, .. } => Some(*objective),
        Verdict::FalseRow { .. } => None,
        Verdict::NoWorld { .. } => None,
        Verdict::Unfinished { .. } => None,
    }
}
