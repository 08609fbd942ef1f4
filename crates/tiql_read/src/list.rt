//! Reads parts with commas between them.
ghost use Rattle.std.specs.Prelude.{codes};
ghost use Rattle.tiql_read.specs.Outcomes.{ReadsAs, parts_behind};
ghost use Rattle.tiql_read.specs.Steps.{many_at, next_at, list_at, is_sign};

use crate::leaf::after_sign;
use crate::word::{Reading, Seen};
use base_kit::List;
use std::alloc::Global;

/// What is read by a rule of the grammar.
pub trait Part: Drop {
    ghost use Rattle.tiql_read.specs.Outcomes.{ReadsAs};
    ghost use Rattle.tiql_read.specs.Steps.{Words, Reading};

    /// How it is read.
    ghost reading: { Words → Reading Self };

    /// Reads it.
    fn read(alloc: Global, words: &[Seen]) -> Reading<'_, Self>
        ensures { ReadsAs result (reading words.now) };
}

/// One part or more, with commas between them.
#[tactic(auto, unfolding(crate::specs::Steps::list_at))]
pub fn list<P: Part>(alloc: Global, words: &[Seen]) -> Reading<'_, List<P>>
    ensures { ReadsAs result (list_at P.reading words.now) }
{
    let (first, rest) = P::read(alloc, words)?;
    let mut parts = List::new(alloc);
    parts.push(first)?;
    more_parts(alloc, parts, rest)
}

// The parts so far, and all parts behind a comma that follow.
fn more_parts<P: Part>(alloc: Global, parts: List<P>, words: &[Seen]) -> Reading<'_, List<P>>
    ensures { ReadsAs result (parts_behind parts (is_sign (codes ",")) P.reading words.now) }
{
    let mut parts = parts;
    let mut rest = words;
    // A part has a word, so there are no more parts than words.
    for _ in 0..words.len() {
        let Some(behind) = after_sign(rest, b",") else {
            return Ok((parts, rest));
        };
        let (part, behind) = P::read(alloc, behind)?;
        parts.push(part)?;
        rest = behind;
    }
    Ok((parts, rest))
}
