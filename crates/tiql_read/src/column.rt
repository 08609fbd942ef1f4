//! Reads columns as expressions name them, and what numbers and texts say.
ghost use Rattle.std.specs.Prelude.{◌≡◌, IfOk};
ghost use Rattle.tiql_read.specs.Outcomes.{ReadsAs};
ghost use Rattle.tiql_read.specs.Steps.{begins, take_as, is_named, word_of};
ghost use Rattle.tiql_read.specs.Expressions as spec;

use crate::leaf::{begins_sign, is_kind, name, sign, told};
use crate::word::{Reading, Seen, Stop};
use base_kit::{Memory, Txt, TxtFault, is_name};
use std::alloc::Global;
use tiql_lex::{TokenKind, number_value, text_value};
use tiql_tree::{Spot, TreeExpr, TreeForm, TreeRef};

// A name behind a point, where one stands here.
#[tactic(auto, unfolding(crate::specs::Expressions::point_at))]
fn behind_point(alloc: Global, words: &[Seen]) -> Reading<'_, Option<Spot>>
    ensures { ReadsAs result (spec.point_at words.now) }
{
    if !begins_sign(words, b".") {
        return Ok((None, words));
    }
    let rest = sign(words, b".")?;
    let (column, rest) = name(alloc, rest)?;
    Ok((Some(column), rest))
}

fn ref_of(first: Spot, more: Option<Spot>) -> TreeRef
    ensures { result ≡ spec.ref_of first more }
{
    match more {
        None => TreeRef {
            place: first.place,
            relation: None,
            column: first.name,
        },
        Some(column) => TreeRef {
            place: first.place,
            relation: Some(first.name),
            column: column.name,
        },
    }
}

/// A column, by its name alone or behind a relation's.
#[tactic(auto, unfolding(crate::specs::Expressions::ref_at))]
pub fn column(alloc: Global, words: &[Seen]) -> Reading<'_, TreeRef>
    ensures { ReadsAs result (spec.ref_at words.now) }
{
    let (first, rest) = name(alloc, words)?;
    let (more, rest) = behind_point(alloc, rest)?;
    Ok((ref_of(first, more), rest))
}

/// The last name of a column.
#[tactic(auto, unfolding(crate::specs::Expressions::ref_name_at))]
pub fn column_name(alloc: Global, words: &[Seen]) -> Reading<'_, Spot>
    ensures { ReadsAs result (spec.ref_name_at words.now) }
{
    let (first, rest) = name(alloc, words)?;
    let (more, rest) = behind_point(alloc, rest)?;
    Ok((more.unwrap_or(first), rest))
}

// A text of these bytes, where they are UTF-8 and not too many.
fn short_text(alloc: Global, value: &[u8]) -> Result<Option<Txt>, Memory>
    ensures { IfOk result (λ made. made ≡ spec.short_text (Some value.now)) }
{
    let Ok(value) = str::from_utf8(value) else {
        return Ok(None);
    };
    match Txt::new(alloc, value) {
        Ok(value) => Ok(Some(value)),
        Err(TxtFault::TooLong) => Ok(None),
        Err(TxtFault::Memory) => Err(Memory),
    }
}

// What a text in quotes says.
fn value_of(alloc: Global, text: &[u8]) -> Result<Option<Txt>, Memory>
    ensures { IfOk result (λ value. value ≡ spec.value_of_text text.now) }
{
    match text_value(alloc, text)? {
        Some(value) => short_text(alloc, value.as_slice()),
        None => Ok(None),
    }
}

// The number that the word is.
fn number_of(seen: &Seen) -> Option<TreeExpr>
    ensures { result ≡ spec.number_of seen.now }
{
    let value = number_value(seen.text.as_slice())?;
    Some(TreeExpr {
        place: seen.place,
        form: TreeForm::Number(value),
    })
}

// The number or text that the word is.
#[tactic(auto, unfolding(crate::specs::Expressions::literal_of))]
fn literal_of(alloc: Global, seen: &Seen) -> Result<Option<TreeExpr>, Memory>
    ensures { IfOk result (λ literal. literal ≡ spec.literal_of seen.now) }
{
    if is_kind(TokenKind::Number, seen.kind) {
        return Ok(number_of(seen));
    }
    if !is_kind(TokenKind::Text, seen.kind) {
        return Ok(None);
    }
    let Some(value) = value_of(alloc, seen.text.as_slice())? else {
        return Ok(None);
    };
    Ok(Some(TreeExpr {
        place: seen.place,
        form: TreeForm::Text(value),
    }))
}

// A number or a text.
#[tactic(auto, unfolding(crate::specs::Steps::take_as))]
fn literal(alloc: Global, words: &[Seen]) -> Reading<'_, TreeExpr>
    ensures { ReadsAs result (take_as spec.literal_of words.now) }
{
    let [first, rest @ ..] = words else {
        return Err(Stop::Wrong(0));
    };
    told(words, literal_of(alloc, first)?, rest)
}

// Whether a name stands here.
#[tactic(auto, unfolding(crate::specs::Steps::is_named))]
fn begins_name(words: &[Seen]) -> bool
    ensures { result ≡ begins is_named words.now }
{
    match words {
        [first, ..] => is_kind(TokenKind::Name, first.kind) && is_name(first.text.as_slice()),
        [] => false,
    }
}

/// A factor that opens nothing: a column, a number or a text.
#[tactic(auto, unfolding(crate::specs::Expressions::simple_at))]
pub fn simple(alloc: Global, words: &[Seen]) -> Reading<'_, TreeExpr>
    ensures { ReadsAs result (spec.simple_at words.now) }
{
    if !begins_name(words) {
        return literal(alloc, words);
    }
    let (column, rest) = column(alloc, words)?;
    let place = column.place;
    let form = TreeForm::Ref(column);
    Ok((TreeExpr { place, form }, rest))
}
