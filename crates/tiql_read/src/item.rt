//! Reads the items of a select.
ghost use Rattle.std.specs.Prelude.{◌≡◌};
ghost use Rattle.tiql_read.specs.Outcomes.{ReadsAs};
ghost use Rattle.tiql_read.specs.Steps.{begins, take_as};
ghost use Rattle.tiql_read.specs.Selects as spec;

use crate::column::column_name;
use crate::expression::{inner_expression, whole_expression};
use crate::leaf::{begins_key, is_key, key, mark_key, name, sign, told};
use crate::list::Part;
use crate::word::{Aggregate, Reading, Seen, Stop};
use base_kit::Place;
use std::alloc::Global;
use tiql_tree::{Spot, TreeExpr, TreeItem, TreeValue};

/// A name behind AS.
#[tactic(auto, unfolding(crate::specs::Selects::alias_at))]
pub fn alias(alloc: Global, words: &[Seen]) -> Reading<'_, Spot>
    ensures { ReadsAs result (spec.alias_at words.now) }
{
    let rest = key(words, b"AS")?;
    name(alloc, rest)
}

/// An expression in parentheses, of which the opening one counts among what opens something.
#[tactic(auto, unfolding(crate::specs::Selects::grouped_at))]
pub fn grouped(alloc: Global, words: &[Seen]) -> Reading<'_, TreeExpr>
    ensures { ReadsAs result (spec.grouped_at words.now) }
{
    let rest = sign(words, b"(")?;
    let (part, rest) = inner_expression(alloc, rest)?;
    let rest = sign(rest, b")")?;
    Ok((part, rest))
}

// The aggregate of an expression that the word is, with its place.
#[tactic(auto, unfolding(crate::specs::Selects::aggregate_of))]
fn aggregate_of(seen: &Seen) -> Option<(Aggregate, Place)>
    ensures { result ≡ spec.aggregate_of seen.now }
{
    if is_key(seen, b"SUM") {
        Some((Aggregate::Sum, seen.place))
    } else if is_key(seen, b"MIN") {
        Some((Aggregate::Min, seen.place))
    } else if is_key(seen, b"MAX") {
        Some((Aggregate::Max, seen.place))
    } else {
        None
    }
}

// The word of an aggregate of an expression.
#[tactic(auto, unfolding(crate::specs::Steps::take_as))]
fn aggregate_word(words: &[Seen]) -> Reading<'_, (Aggregate, Place)>
    ensures { ReadsAs result (take_as spec.aggregate_of words.now) }
{
    let [first, rest @ ..] = words else {
        return Err(Stop::Wrong(0));
    };
    told(words, aggregate_of(first), rest)
}

// Whether an aggregate of an expression stands here.
#[tactic(auto, unfolding(crate::specs::Selects::is_aggregate))]
fn begins_aggregate(words: &[Seen]) -> bool
    ensures { result ≡ begins spec.is_aggregate words.now }
{
    match words {
        [first, ..] => is_key(first, b"SUM") || is_key(first, b"MIN") || is_key(first, b"MAX"),
        [] => false,
    }
}

fn value_by(aggregate: Aggregate, part: TreeExpr) -> TreeValue
    ensures { result ≡ spec.value_by aggregate part }
{
    match aggregate {
        Aggregate::Sum => TreeValue::Sum(part),
        Aggregate::Min => TreeValue::Min(part),
        Aggregate::Max => TreeValue::Max(part),
    }
}

// SUM, MIN or MAX of an expression.
#[tactic(auto, unfolding(crate::specs::Selects::aggregate_at))]
fn aggregate(alloc: Global, words: &[Seen]) -> Reading<'_, TreeItem>
    ensures { ReadsAs result (spec.aggregate_at words.now) }
{
    let ((aggregate, place), rest) = aggregate_word(words)?;
    let (part, rest) = grouped(alloc, rest)?;
    let (name, rest) = alias(alloc, rest)?;
    let value = value_by(aggregate, part);
    Ok((TreeItem { place, value, name }, rest))
}

// COUNT(*)
#[tactic(auto, unfolding(crate::specs::Selects::count_at))]
fn count(alloc: Global, words: &[Seen]) -> Reading<'_, TreeItem>
    ensures { ReadsAs result (spec.count_at words.now) }
{
    let (place, rest) = mark_key(words, b"COUNT")?;
    let rest = sign(rest, b"(")?;
    let rest = sign(rest, b"*")?;
    let rest = sign(rest, b")")?;
    let (name, rest) = alias(alloc, rest)?;
    let value = TreeValue::Count;
    Ok((TreeItem { place, value, name }, rest))
}

// The last name of the column that all of the words up to the rest are.
#[tactic(auto, unfolding(crate::specs::Selects::lone_name))]
fn lone_name<'a>(alloc: Global, words: &'a [Seen], rest: &'a [Seen]) -> Reading<'a, Spot>
    ensures { ReadsAs result (spec.lone_name words.now rest.now) }
{
    match column_name(alloc, words) {
        Ok((name, behind)) => {
            if behind.len() == rest.len() {
                Ok((name, behind))
            } else {
                Err(Stop::Wrong(rest.len()))
            }
        }
        Err(Stop::Wrong(_)) => Err(Stop::Wrong(rest.len())),
        Err(Stop::Memory) => Err(Stop::Memory),
    }
}

// The name behind AS, or that of a column which stands alone.
#[tactic(auto, unfolding(crate::specs::Selects::name_at))]
fn item_name<'a>(alloc: Global, words: &'a [Seen], rest: &'a [Seen]) -> Reading<'a, Spot>
    ensures { ReadsAs result (spec.name_at words.now rest.now) }
{
    if begins_key(rest, b"AS") {
        alias(alloc, rest)
    } else {
        lone_name(alloc, words, rest)
    }
}

// A column, or an expression with a name.
#[tactic(auto, unfolding(crate::specs::Selects::plain_at))]
fn plain(alloc: Global, words: &[Seen]) -> Reading<'_, TreeItem>
    ensures { ReadsAs result (spec.plain_at words.now) }
{
    let (part, rest) = whole_expression(alloc, words)?;
    let (name, rest) = item_name(alloc, words, rest)?;
    let place = part.place;
    let value = TreeValue::Plain(part);
    Ok((TreeItem { place, value, name }, rest))
}

impl Part for TreeItem {
    ghost use Rattle.tiql_read.specs.Selects.{item_at};

    ghost reading = { item_at };

    #[tactic(auto, unfolding(crate::specs::Selects::item_at))]
    fn read(alloc: Global, words: &[Seen]) -> Reading<'_, TreeItem> {
        if begins_aggregate(words) {
            aggregate(alloc, words)
        } else if begins_key(words, b"COUNT") {
            count(alloc, words)
        } else {
            plain(alloc, words)
        }
    }
}
