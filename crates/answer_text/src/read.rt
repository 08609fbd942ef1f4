//! The answer of which bytes are the text.

ghost use Rattle.std.specs.Prelude.{◌≡◌, ◌+◌, ◌<◌, ◌^◌, ◌==◌, ℕ, IfOk, MatchResult, length};
ghost use Rattle.std.specs.List.{count_by};
ghost use Rattle.answer_text.specs.declared.answer.Answer.{Answer};
ghost use Rattle.answer_text.specs.Answers.{AnswerText, IsStop, line_of};

use crate::Answer;
use crate::blocks::{Stop, whole};
use std::alloc::Global;
use thiserror::Error;

/// Why bytes were not read as an answer.
#[derive(Clone, Copy, Debug, PartialEq, Eq, Error)]
pub enum AnswerFault {
    /// No answer has these bytes as its text. The line, counted from 1, is that of the first byte with which the bytes
    /// begin no answer, or the one in which they end where they begin an answer to their end (docs/ANSWERS.md).
    #[error("no answer from line {line} on")]
    BadAnswer { line: u32 },
    /// Memory ran out.
    #[error("out of memory")]
    Memory,
}

/// The one answer whose text the bytes are.
///
/// The bytes are fewer than 2^32 - 1 (docs/ANSWERS.md).
pub fn read_answer(alloc: Global, bytes: &[u8]) -> Result<Answer, AnswerFault>
    requires { length bytes.now + 1 < 2 ^ 32 }

    // What is read has these bytes as its text.
    ensures text { IfOk result (λ answer. AnswerText answer bytes.now) }

    // An answer with these bytes is the one that is read, unless memory runs out.
    ensures only { (answer : Answer) → AnswerText answer bytes.now
        → MatchResult result (λ found. found ≡ answer) (λ fault. fault ≡ AnswerFault.Memory) }

    // The line is that of the first byte with which the bytes begin no answer.
    ensures stop { (line count : ℕ) → result ≡ Err (AnswerFault.BadAnswer line) → IsStop bytes.now count
        → line ≡ line_of bytes.now count }
{
    match whole(alloc, bytes) {
        Ok(answer) => Ok(answer),
        Err(Stop::Memory) => Err(AnswerFault::Memory),
        Err(Stop::Bad { left }) => Err(AnswerFault::BadAnswer {
            line: line_behind(&bytes[..bytes.len() - left]),
        }),
    }
}

/// The line in which the byte behind these stands.
fn line_behind(bytes: &[u8]) -> u32
    requires { length bytes.now + 1 < 2 ^ 32 }
    ensures { result ≡ 1 + count_by (λ byte. byte == 10) bytes.now }
{
    1 + bytes.iter().filter(|byte| **byte == b'\n').count() as u32
}
