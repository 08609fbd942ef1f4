//! Reads the selects of a view.
ghost use Rattle.std.specs.Prelude.{◌≡◌, IfOk};
ghost use Rattle.tiql_read.specs.Outcomes.{ReadsAs};
ghost use Rattle.tiql_read.specs.Selects as spec;

use crate::column::column;
use crate::condition::whole_condition;
use crate::item::alias;
use crate::leaf::{begins_key, key, mark_key, name};
use crate::list::{Part, list};
use crate::word::{Reading, Seen};
use base_kit::{Duplicate, List, Memory};
use std::alloc::Global;
use tiql_tree::{Spot, TreeCond, TreeRef, TreeSelect, TreeSource};

// A name behind AS, where AS stands here.
#[tactic(auto, unfolding(crate::specs::Selects::alias_if))]
fn alias_if(alloc: Global, words: &[Seen]) -> Reading<'_, Option<Spot>>
    ensures { ReadsAs result (spec.alias_if words.now) }
{
    if !begins_key(words, b"AS") {
        return Ok((None, words));
    }
    let (name, rest) = alias(alloc, words)?;
    Ok((Some(name), rest))
}

impl Part for TreeSource {
    ghost use Rattle.tiql_read.specs.Selects.{source_at};

    ghost reading = { source_at };

    #[tactic(auto, unfolding(crate::specs::Selects::source_at))]
    fn read(alloc: Global, words: &[Seen]) -> Reading<'_, TreeSource> {
        let (relation, rest) = name(alloc, words)?;
        let (alias, rest) = alias_if(alloc, rest)?;
        Ok((source_of(alloc, relation, alias)?, rest))
    }
}

// A source, whose alias is the relation's own name where none is given.
fn source_of(alloc: Global, relation: Spot, alias: Option<Spot>) -> Result<TreeSource, Memory>
    ensures { IfOk result (λ source. source ≡ spec.source_of relation alias) }
{
    let alias = match alias {
        Some(alias) => alias,
        None => Spot {
            name: relation.name.copy(alloc)?,
            place: relation.place,
        },
    };
    Ok(TreeSource { relation, alias })
}

impl Part for TreeRef {
    ghost use Rattle.tiql_read.specs.Expressions.{ref_at};

    ghost reading = { ref_at };

    fn read(alloc: Global, words: &[Seen]) -> Reading<'_, TreeRef> {
        column(alloc, words)
    }
}

/// A condition behind WHERE, where WHERE stands here.
#[tactic(auto, unfolding(crate::specs::Selects::filter_at))]
pub fn filter(alloc: Global, words: &[Seen]) -> Reading<'_, Option<TreeCond>>
    ensures { ReadsAs result (spec.filter_at words.now) }
{
    if !begins_key(words, b"WHERE") {
        return Ok((None, words));
    }
    let rest = key(words, b"WHERE")?;
    let (filter, rest) = whole_condition(alloc, rest)?;
    Ok((Some(filter), rest))
}

// The columns behind GROUP BY, where it stands here.
#[tactic(auto, unfolding(crate::specs::Selects::group_at))]
fn group(alloc: Global, words: &[Seen]) -> Reading<'_, List<TreeRef>>
    ensures { ReadsAs result (spec.group_at words.now) }
{
    if !begins_key(words, b"GROUP") {
        return Ok((List::new(alloc), words));
    }
    let rest = key(words, b"GROUP")?;
    let rest = key(rest, b"BY")?;
    list(alloc, rest)
}

// Whether DISTINCT stands here.
#[tactic(auto, unfolding(crate::specs::Selects::distinct_at))]
fn distinct(words: &[Seen]) -> Reading<'_, bool>
    ensures { ReadsAs result (spec.distinct_at words.now) }
{
    if !begins_key(words, b"DISTINCT") {
        return Ok((false, words));
    }
    let rest = key(words, b"DISTINCT")?;
    Ok((true, rest))
}

/// A select.
#[tactic(auto, unfolding(crate::specs::Selects::select_at))]
pub fn select(alloc: Global, words: &[Seen]) -> Reading<'_, TreeSelect>
    ensures { ReadsAs result (spec.select_at words.now) }
{
    let (place, rest) = mark_key(words, b"SELECT")?;
    let (distinct, rest) = distinct(rest)?;
    let (items, rest) = list(alloc, rest)?;
    let rest = key(rest, b"FROM")?;
    let (sources, rest) = list(alloc, rest)?;
    let (filter, rest) = filter(alloc, rest)?;
    let (group, rest) = group(alloc, rest)?;
    let select = TreeSelect {
        place,
        distinct,
        items,
        sources,
        filter,
        group,
    };
    Ok((select, rest))
}
