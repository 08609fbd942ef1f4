//! Reads conditions.
ghost use Rattle.std.specs.Prelude.{◌≡◌, codes};
ghost use Rattle.tiql_read.specs.Outcomes.{ReadsAs, parts_behind};
ghost use Rattle.tiql_read.specs.Steps.{begins, take_as, many_at, next_at, is_key};
ghost use Rattle.tiql_read.specs.Expressions.{expression_at};
ghost use Rattle.tiql_read.specs.Conditions as spec;

use crate::expression::{MOST_NESTED, expression};
use crate::leaf::{after_key, begins_key, is_key, is_sign, key, sign, told};
use crate::word::{Reading, Seen, Stop};
use base_kit::{Boxed, List};
use std::alloc::Global;
use tiql_tree::{TreeCmp, TreeCond};

/// A condition that nothing encloses.
pub fn whole_condition(alloc: Global, words: &[Seen]) -> Reading<'_, TreeCond>
    ensures { ReadsAs result (spec.condition_at 64 words.now) }
{
    condition(alloc, MOST_NESTED, words)
}

// A condition, in which so many more signs and words may open something.
#[tactic(auto, unfolding(crate::specs::Conditions::condition_at))]
fn condition(alloc: Global, room: u32, words: &[Seen]) -> Reading<'_, TreeCond>
    ensures { ReadsAs result (spec.condition_at room words.now) }
{
    alternatives(alloc, room, words)
}

// Whether NOT or a sign stands here that groups.
#[tactic(auto, unfolding(crate::specs::Conditions::opens_cond))]
fn begins_opening(words: &[Seen]) -> bool
    ensures { result ≡ begins spec.opens_cond words.now }
{
    match words {
        [first, ..] => is_key(first, b"NOT") || is_sign(first, b"["),
        [] => false,
    }
}

// The comparison that the word is.
#[tactic(auto, unfolding(crate::specs::Conditions::cmp_of))]
fn cmp_of(seen: &Seen) -> Option<TreeCmp>
    ensures { result ≡ spec.cmp_of seen.now }
{
    if is_sign(seen, b"=") {
        Some(TreeCmp::Eq)
    } else if is_sign(seen, b"<>") {
        Some(TreeCmp::Ne)
    } else if is_sign(seen, b"<") {
        Some(TreeCmp::Lt)
    } else if is_sign(seen, b"<=") {
        Some(TreeCmp::Le)
    } else if is_sign(seen, b">") {
        Some(TreeCmp::Gt)
    } else if is_sign(seen, b">=") {
        Some(TreeCmp::Ge)
    } else {
        None
    }
}

// The sign of a comparison.
#[tactic(auto, unfolding(crate::specs::Steps::take_as))]
fn cmp(words: &[Seen]) -> Reading<'_, TreeCmp>
    ensures { ReadsAs result (take_as spec.cmp_of words.now) }
{
    let [first, rest @ ..] = words else {
        return Err(Stop::Wrong(0));
    };
    told(words, cmp_of(first), rest)
}

// Two expressions, compared.
#[tactic(auto, unfolding(crate::specs::Conditions::compare_by))]
fn compared(alloc: Global, room: u32, words: &[Seen]) -> Reading<'_, TreeCond>
    ensures { ReadsAs result (spec.compare_by (expression_at room) words.now) }
{
    let (one, rest) = expression(alloc, room, words)?;
    let (cmp, rest) = cmp(rest)?;
    let (other, rest) = expression(alloc, room, rest)?;
    Ok((TreeCond::Compare(cmp, one, other), rest))
}

// Parts with OR between them.
#[cycle(hold)]
#[tactic(auto, unfolding(crate::specs::Conditions::or_by))]
fn alternatives(alloc: Global, room: u32, words: &[Seen]) -> Reading<'_, TreeCond>
    ensures { ReadsAs result (spec.cond_by (spec.unit_at room) words.now) }
{
    let (first, rest) = together(alloc, room, words)?;
    if !begins_key(rest, b"OR") {
        return Ok((first, rest));
    }
    let mut parts = List::new(alloc);
    parts.push(first)?;
    let (parts, rest) = more_alternatives(alloc, room, parts, rest)?;
    Ok((TreeCond::Or(parts), rest))
}

// The parts so far, and all parts behind OR that follow.
#[cycle(hold)]
fn more_alternatives(
    alloc: Global,
    room: u32,
    parts: List<TreeCond>,
    words: &[Seen],
) -> Reading<'_, List<TreeCond>>
    ensures { ReadsAs result (parts_behind parts (is_key (codes "OR")) (spec.and_by (spec.unit_at room)) words.now) }
{
    let mut parts = parts;
    let mut rest = words;
    // A part has a word, so there are no more parts than words.
    for _ in 0..words.len() {
        let Some(behind) = after_key(rest, b"OR") else {
            return Ok((parts, rest));
        };
        let (part, behind) = together(alloc, room, behind)?;
        parts.push(part)?;
        rest = behind;
    }
    Ok((parts, rest))
}

// Parts with AND between them.
#[cycle(hold)]
#[tactic(auto, unfolding(crate::specs::Conditions::and_by))]
fn together(alloc: Global, room: u32, words: &[Seen]) -> Reading<'_, TreeCond>
    ensures { ReadsAs result (spec.and_by (spec.unit_at room) words.now) }
{
    let (first, rest) = unit(alloc, room, words)?;
    if !begins_key(rest, b"AND") {
        return Ok((first, rest));
    }
    let mut parts = List::new(alloc);
    parts.push(first)?;
    let (parts, rest) = more_together(alloc, room, parts, rest)?;
    Ok((TreeCond::And(parts), rest))
}

// The parts so far, and all parts behind AND that follow.
#[cycle(hold)]
fn more_together(
    alloc: Global,
    room: u32,
    parts: List<TreeCond>,
    words: &[Seen],
) -> Reading<'_, List<TreeCond>>
    ensures { ReadsAs result (parts_behind parts (is_key (codes "AND")) (spec.unit_at room) words.now) }
{
    let mut parts = parts;
    let mut rest = words;
    // A part has a word, so there are no more parts than words.
    for _ in 0..words.len() {
        let Some(behind) = after_key(rest, b"AND") else {
            return Ok((parts, rest));
        };
        let (part, behind) = unit(alloc, room, behind)?;
        parts.push(part)?;
        rest = behind;
    }
    Ok((parts, rest))
}

// A part of a condition.
#[cycle(hold)]
fn unit(alloc: Global, room: u32, words: &[Seen]) -> Reading<'_, TreeCond>
    ensures { ReadsAs result (spec.unit_at room words.now) }
{
    if !begins_opening(words) {
        return compared(alloc, room, words);
    }
    if room == 0 {
        return Err(Stop::Wrong(words.len()));
    }
    opened(alloc, room - 1, words)
}

// A part that begins with a word which opens something, and in which so many more may.
#[cycle(hold)]
#[tactic(auto, unfolding(crate::specs::Conditions::enclosed_by))]
fn opened(alloc: Global, room: u32, words: &[Seen]) -> Reading<'_, TreeCond>
    ensures { ReadsAs result (spec.enclosed_by (spec.unit_at room) words.now) }
{
    if begins_key(words, b"NOT") {
        let rest = key(words, b"NOT")?;
        let (part, rest) = unit(alloc, room, rest)?;
        return Ok((TreeCond::Not(Boxed::new(alloc, part)?), rest));
    }
    let rest = sign(words, b"[")?;
    let (part, rest) = alternatives(alloc, room, rest)?;
    let rest = sign(rest, b"]")?;
    Ok((part, rest))
}
