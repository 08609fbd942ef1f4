//! Reads expressions.
ghost use Rattle.std.specs.Prelude.{◌≡◌, codes};
ghost use Rattle.tiql_read.specs.Outcomes.{ReadsAs, with_front, parts_behind};
ghost use Rattle.tiql_read.specs.Steps.{begins, take_as, many_at, next_at, is_sign};
ghost use Rattle.tiql_read.specs.Expressions as spec;

use crate::column::simple;
use crate::leaf::{after_sign, begins_sign, is_key, is_sign, mark_key, mark_sign, sign, told};
use crate::word::{Reading, Seen, Stop};
use base_kit::{Boxed, List};
use std::alloc::Global;
use tiql_tree::{TreeExpr, TreeForm, TreeSigned};

/// The deepest nesting: within at most so many signs and words that open something a token may lie (docs/LANGUAGE.md,
/// "Grammar").
pub const MOST_NESTED: u32 = 64;

/// An expression that nothing encloses.
pub fn whole_expression(alloc: Global, words: &[Seen]) -> Reading<'_, TreeExpr>
    ensures { ReadsAs result (spec.expression_at 64 words.now) }
{
    expression(alloc, MOST_NESTED, words)
}

/// An expression inside one sign or word that opens something.
pub fn inner_expression(alloc: Global, words: &[Seen]) -> Reading<'_, TreeExpr>
    ensures { ReadsAs result (spec.expression_at 63 words.now) }
{
    expression(alloc, MOST_NESTED - 1, words)
}

/// An expression, in which so many more signs and words may open something.
#[tactic(auto, unfolding(crate::specs::Expressions::expression_at))]
pub fn expression(alloc: Global, room: u32, words: &[Seen]) -> Reading<'_, TreeExpr>
    ensures { ReadsAs result (spec.expression_at room words.now) }
{
    sum(alloc, room, words)
}

// Whether a plus or minus sign stands here.
#[tactic(auto, unfolding(crate::specs::Expressions::adds))]
fn begins_adding(words: &[Seen]) -> bool
    ensures { result ≡ begins spec.adds words.now }
{
    match words {
        [first, ..] => is_sign(first, b"+") || is_sign(first, b"-"),
        [] => false,
    }
}

// Whether a word stands here that opens something.
#[tactic(auto, unfolding(crate::specs::Expressions::opens))]
fn begins_opening(words: &[Seen]) -> bool
    ensures { result ≡ begins spec.opens words.now }
{
    match words {
        [first, ..] => { is_sign(first, b"-") || is_sign(first, b"(") || is_key(first, b"ABS") }
        [] => false,
    }
}

// Whether the word is a minus sign, and not a plus sign.
#[tactic(auto, unfolding(crate::specs::Expressions::minus_of))]
fn minus_of(seen: &Seen) -> Option<bool>
    ensures { result ≡ spec.minus_of seen.now }
{
    if is_sign(seen, b"-") {
        Some(true)
    } else if is_sign(seen, b"+") {
        Some(false)
    } else {
        None
    }
}

// A plus or minus sign.
#[tactic(auto, unfolding(crate::specs::Steps::take_as))]
fn minus(words: &[Seen]) -> Reading<'_, bool>
    ensures { ReadsAs result (take_as spec.minus_of words.now) }
{
    let [first, rest @ ..] = words else {
        return Err(Stop::Wrong(0));
    };
    told(words, minus_of(first), rest)
}

// Terms, with signs between them.
#[cycle(read)]
#[tactic(auto, unfolding(crate::specs::Expressions::sum_by))]
fn sum(alloc: Global, room: u32, words: &[Seen]) -> Reading<'_, TreeExpr>
    ensures { ReadsAs result (spec.expr_by (spec.factor_at room) words.now) }
{
    let (first, rest) = term(alloc, room, words)?;
    if !begins_adding(rest) {
        return Ok((first, rest));
    }
    let place = first.place;
    let mut parts = List::new(alloc);
    parts.push(TreeSigned {
        minus: false,
        part: first,
    })?;
    let (parts, rest) = more_terms(alloc, room, parts, rest)?;
    let form = TreeForm::Sum(parts);
    Ok((TreeExpr { place, form }, rest))
}

// The parts so far, and all terms with a sign before them that follow.
#[cycle(read)]
fn more_terms(
    alloc: Global,
    room: u32,
    parts: List<TreeSigned>,
    words: &[Seen],
) -> Reading<'_, List<TreeSigned>>
    ensures { ReadsAs result
        (with_front parts (many_at spec.adds (spec.signed_by (spec.term_by (spec.factor_at room))) words.now)) }
{
    let mut parts = parts;
    let mut rest = words;
    // A part has a word, so there are no more parts than words.
    for _ in 0..words.len() {
        if !begins_adding(rest) {
            return Ok((parts, rest));
        }
        let (part, behind) = signed_term(alloc, room, rest)?;
        parts.push(part)?;
        rest = behind;
    }
    Ok((parts, rest))
}

// A term with the sign before it.
#[cycle(read)]
#[tactic(auto, unfolding(crate::specs::Expressions::signed_by))]
fn signed_term(alloc: Global, room: u32, words: &[Seen]) -> Reading<'_, TreeSigned>
    ensures { ReadsAs result (spec.signed_by (spec.term_by (spec.factor_at room)) words.now) }
{
    let (minus, rest) = minus(words)?;
    let (part, rest) = term(alloc, room, rest)?;
    Ok((TreeSigned { minus, part }, rest))
}

// Factors, with `*` between them.
#[cycle(read)]
#[tactic(auto, unfolding(crate::specs::Expressions::term_by))]
fn term(alloc: Global, room: u32, words: &[Seen]) -> Reading<'_, TreeExpr>
    ensures { ReadsAs result (spec.term_by (spec.factor_at room) words.now) }
{
    let (first, rest) = factor(alloc, room, words)?;
    if !begins_sign(rest, b"*") {
        return Ok((first, rest));
    }
    let place = first.place;
    let mut parts = List::new(alloc);
    parts.push(first)?;
    let (parts, rest) = more_factors(alloc, room, parts, rest)?;
    let form = TreeForm::Product(parts);
    Ok((TreeExpr { place, form }, rest))
}

// The parts so far, and all factors behind a `*` that follow.
#[cycle(read)]
fn more_factors(
    alloc: Global,
    room: u32,
    parts: List<TreeExpr>,
    words: &[Seen],
) -> Reading<'_, List<TreeExpr>>
    ensures { ReadsAs result (parts_behind parts (is_sign (codes "*")) (spec.factor_at room) words.now) }
{
    let mut parts = parts;
    let mut rest = words;
    // A part has a word, so there are no more parts than words.
    for _ in 0..words.len() {
        let Some(behind) = after_sign(rest, b"*") else {
            return Ok((parts, rest));
        };
        let (part, behind) = factor(alloc, room, behind)?;
        parts.push(part)?;
        rest = behind;
    }
    Ok((parts, rest))
}

// A factor.
#[cycle(read)]
fn factor(alloc: Global, room: u32, words: &[Seen]) -> Reading<'_, TreeExpr>
    ensures { ReadsAs result (spec.factor_at room words.now) }
{
    if !begins_opening(words) {
        return simple(alloc, words);
    }
    if room == 0 {
        return Err(Stop::Wrong(words.len()));
    }
    opened(alloc, room - 1, words)
}

// A factor that begins with a word which opens something, and in which so many more may.
#[cycle(read)]
#[tactic(auto, unfolding(crate::specs::Expressions::opened_by))]
fn opened(alloc: Global, room: u32, words: &[Seen]) -> Reading<'_, TreeExpr>
    ensures { ReadsAs result (spec.opened_by (spec.factor_at room) words.now) }
{
    if begins_sign(words, b"-") {
        let (place, rest) = mark_sign(words, b"-")?;
        let (part, rest) = factor(alloc, room, rest)?;
        let form = TreeForm::Neg(Boxed::new(alloc, part)?);
        return Ok((TreeExpr { place, form }, rest));
    }
    if begins_sign(words, b"(") {
        let (place, rest) = mark_sign(words, b"(")?;
        let (part, rest) = sum(alloc, room, rest)?;
        let rest = sign(rest, b")")?;
        let form = part.form;
        return Ok((TreeExpr { place, form }, rest));
    }
    let (place, rest) = mark_key(words, b"ABS")?;
    let rest = sign(rest, b"(")?;
    let (part, rest) = sum(alloc, room, rest)?;
    let rest = sign(rest, b")")?;
    let form = TreeForm::Abs(Boxed::new(alloc, part)?);
    Ok((TreeExpr { place, form }, rest))
}
