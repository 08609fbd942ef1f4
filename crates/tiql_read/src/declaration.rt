//! Reads declarations.
ghost use Rattle.std.specs.Prelude.{◌≡◌, codes};
ghost use Rattle.tiql_read.specs.Outcomes.{ReadsAs, with_front};
ghost use Rattle.tiql_read.specs.Steps.{take_as, many_at, is_key};
ghost use Rattle.tiql_read.specs.Queries as spec;

use crate::condition::whole_condition;
use crate::expression::whole_expression;
use crate::leaf::{begins_key, is_key, key, mark_key, name, sign, told};
use crate::list::{Part, list};
use crate::select::{filter, select};
use crate::word::{Reading, Seen, Stop};
use base_kit::{List, Place};
use std::alloc::Global;
use tiql_tree::{
    Decl, Spot, TreeBound, TreeColumn, TreeCond, TreeHypo, TreeRequire, TreeSelect, TreeTable,
    TreeView,
};

// Whether the word is TEXT, and not INT.
#[tactic(auto, unfolding(crate::specs::Queries::type_of))]
fn type_of(seen: &Seen) -> Option<bool>
    ensures { result ≡ spec.type_of seen.now }
{
    if is_key(seen, b"TEXT") {
        Some(true)
    } else if is_key(seen, b"INT") {
        Some(false)
    } else {
        None
    }
}

// The type of a column.
#[tactic(auto, unfolding(crate::specs::Steps::take_as))]
fn column_type(words: &[Seen]) -> Reading<'_, bool>
    ensures { ReadsAs result (take_as spec.type_of words.now) }
{
    let [first, rest @ ..] = words else {
        return Err(Stop::Wrong(0));
    };
    told(words, type_of(first), rest)
}

impl Part for TreeColumn {
    ghost use Rattle.tiql_read.specs.Queries.{column_at};

    ghost reading = { column_at };

    #[tactic(auto, unfolding(crate::specs::Queries::column_at))]
    fn read(alloc: Global, words: &[Seen]) -> Reading<'_, TreeColumn> {
        let (name, rest) = name(alloc, words)?;
        let (text, rest) = column_type(rest)?;
        Ok((TreeColumn { name, text }, rest))
    }
}

impl Part for Spot {
    ghost use Rattle.tiql_read.specs.Steps.{spot_at};

    ghost reading = { spot_at };

    fn read(alloc: Global, words: &[Seen]) -> Reading<'_, Spot> {
        name(alloc, words)
    }
}

// The names of a KEY, where KEY stands here.
#[tactic(auto, unfolding(crate::specs::Queries::key_at))]
fn key_names(alloc: Global, words: &[Seen]) -> Reading<'_, List<Spot>>
    ensures { ReadsAs result (spec.key_at words.now) }
{
    if !begins_key(words, b"KEY") {
        return Ok((List::new(alloc), words));
    }
    let rest = key(words, b"KEY")?;
    let rest = sign(rest, b"(")?;
    let (names, rest) = list(alloc, rest)?;
    let rest = sign(rest, b")")?;
    Ok((names, rest))
}

// A table.
#[tactic(auto, unfolding(crate::specs::Queries::table_at))]
fn table(alloc: Global, words: &[Seen]) -> Reading<'_, TreeTable>
    ensures { ReadsAs result (spec.table_at words.now) }
{
    let rest = key(words, b"TABLE")?;
    let (name, rest) = name(alloc, rest)?;
    let rest = sign(rest, b"(")?;
    let (columns, rest) = list(alloc, rest)?;
    let rest = sign(rest, b")")?;
    let (key, rest) = key_names(alloc, rest)?;
    let rest = sign(rest, b";")?;
    Ok((TreeTable { name, columns, key }, rest))
}

impl Part for TreeBound {
    ghost use Rattle.tiql_read.specs.Queries.{bound_at};

    ghost reading = { bound_at };

    #[tactic(auto, unfolding(crate::specs::Queries::bound_at))]
    fn read(alloc: Global, words: &[Seen]) -> Reading<'_, TreeBound> {
        let (name, rest) = name(alloc, words)?;
        let rest = key(rest, b"IN")?;
        let (lo, rest) = whole_expression(alloc, rest)?;
        let rest = sign(rest, b"..")?;
        let (hi, rest) = whole_expression(alloc, rest)?;
        Ok((TreeBound { name, lo, hi }, rest))
    }
}

// The bounds behind SET, where SET stands here.
#[tactic(auto, unfolding(crate::specs::Queries::bounds_at))]
fn bounds(alloc: Global, words: &[Seen]) -> Reading<'_, List<TreeBound>>
    ensures { ReadsAs result (spec.bounds_at words.now) }
{
    if !begins_key(words, b"SET") {
        return Ok((List::new(alloc), words));
    }
    let rest = key(words, b"SET")?;
    list(alloc, rest)
}

// The place of DROP, where DROP stands here.
#[tactic(auto, unfolding(crate::specs::Queries::drop_at))]
fn dropped(words: &[Seen]) -> Reading<'_, Option<Place>>
    ensures { ReadsAs result (spec.drop_at words.now) }
{
    if !begins_key(words, b"DROP") {
        return Ok((None, words));
    }
    let (place, rest) = mark_key(words, b"DROP")?;
    Ok((Some(place), rest))
}

// A hypothetical table.
#[tactic(auto, unfolding(crate::specs::Queries::hypo_at))]
fn hypo(alloc: Global, words: &[Seen]) -> Reading<'_, TreeHypo>
    ensures { ReadsAs result (spec.hypo_at words.now) }
{
    let rest = key(words, b"HYPO")?;
    let (own, rest) = name(alloc, rest)?;
    let rest = key(rest, b"FROM")?;
    let (table, rest) = name(alloc, rest)?;
    let (set, rest) = bounds(alloc, rest)?;
    let (filter, rest) = filter(alloc, rest)?;
    let (dropped, rest) = dropped(rest)?;
    let rest = sign(rest, b";")?;
    let hypo = TreeHypo {
        name: own,
        table,
        set,
        filter,
        dropped,
    };
    Ok((hypo, rest))
}

// A select behind UNION ALL.
#[tactic(auto, unfolding(crate::specs::Queries::arm_at))]
fn arm(alloc: Global, words: &[Seen]) -> Reading<'_, TreeSelect>
    ensures { ReadsAs result (spec.arm_at words.now) }
{
    let rest = key(words, b"UNION")?;
    let rest = key(rest, b"ALL")?;
    select(alloc, rest)
}

// The arms so far, and all that follow behind UNION ALL.
fn more_arms(alloc: Global, arms: List<TreeSelect>, words: &[Seen]) -> Reading<'_, List<TreeSelect>>
    ensures { ReadsAs result (with_front arms (many_at (is_key (codes "UNION")) spec.arm_at words.now)) }
{
    let mut arms = arms;
    let mut rest = words;
    // An arm has a word, so there are no more arms than words.
    for _ in 0..words.len() {
        if !begins_key(rest, b"UNION") {
            return Ok((arms, rest));
        }
        let (select, behind) = arm(alloc, rest)?;
        arms.push(select)?;
        rest = behind;
    }
    Ok((arms, rest))
}

// A view.
#[tactic(auto, unfolding(crate::specs::Queries::view_at))]
fn view(alloc: Global, words: &[Seen]) -> Reading<'_, TreeView>
    ensures { ReadsAs result (spec.view_at words.now) }
{
    let rest = key(words, b"VIEW")?;
    let (name, rest) = name(alloc, rest)?;
    let rest = key(rest, b"AS")?;
    let (first, rest) = select(alloc, rest)?;
    let mut arms = List::new(alloc);
    arms.push(first)?;
    let (arms, rest) = more_arms(alloc, arms, rest)?;
    let rest = sign(rest, b";")?;
    Ok((TreeView { name, arms }, rest))
}

// Whether the word is ALL, and not SOME.
#[tactic(auto, unfolding(crate::specs::Queries::for_all))]
fn for_all(seen: &Seen) -> Option<bool>
    ensures { result ≡ spec.for_all seen.now }
{
    if is_key(seen, b"ALL") {
        Some(true)
    } else if is_key(seen, b"SOME") {
        Some(false)
    } else {
        None
    }
}

// ALL or SOME.
#[tactic(auto, unfolding(crate::specs::Steps::take_as))]
fn all_or_some(words: &[Seen]) -> Reading<'_, bool>
    ensures { ReadsAs result (take_as spec.for_all words.now) }
{
    let [first, rest @ ..] = words else {
        return Err(Stop::Wrong(0));
    };
    told(words, for_all(first), rest)
}

fn require_of(all: bool, name: Spot, cond: TreeCond) -> TreeRequire
    ensures { result ≡ spec.require_of all name cond }
{
    if all {
        TreeRequire::All(name, cond)
    } else {
        TreeRequire::Some(name, cond)
    }
}

// What must hold of all rows or of some row.
#[tactic(auto, unfolding(crate::specs::Queries::have_at))]
fn have(alloc: Global, words: &[Seen]) -> Reading<'_, TreeRequire>
    ensures { ReadsAs result (spec.have_at words.now) }
{
    let (all, rest) = all_or_some(words)?;
    let (name, rest) = name(alloc, rest)?;
    let rest = key(rest, b"HAVE")?;
    let (cond, rest) = whole_condition(alloc, rest)?;
    let rest = sign(rest, b";")?;
    Ok((require_of(all, name, cond), rest))
}

// That there is no row.
#[tactic(auto, unfolding(crate::specs::Queries::none_at))]
fn no_row(alloc: Global, words: &[Seen]) -> Reading<'_, TreeRequire>
    ensures { ReadsAs result (spec.none_at words.now) }
{
    let rest = key(words, b"NONE")?;
    let (name, rest) = name(alloc, rest)?;
    let rest = sign(rest, b";")?;
    Ok((TreeRequire::None(name), rest))
}

// A requirement.
#[tactic(auto, unfolding(crate::specs::Queries::require_at))]
fn require(alloc: Global, words: &[Seen]) -> Reading<'_, TreeRequire>
    ensures { ReadsAs result (spec.require_at words.now) }
{
    let rest = key(words, b"REQUIRE")?;
    if begins_key(rest, b"NONE") {
        no_row(alloc, rest)
    } else {
        have(alloc, rest)
    }
}

/// A declaration.
#[tactic(auto, unfolding(crate::specs::Queries::decl_at))]
pub fn declaration(alloc: Global, words: &[Seen]) -> Reading<'_, Decl>
    ensures { ReadsAs result (spec.decl_at words.now) }
{
    if begins_key(words, b"TABLE") {
        let (table, rest) = table(alloc, words)?;
        return Ok((Decl::Table(table), rest));
    }
    if begins_key(words, b"HYPO") {
        let (hypo, rest) = hypo(alloc, words)?;
        return Ok((Decl::Hypo(hypo), rest));
    }
    if begins_key(words, b"VIEW") {
        let (view, rest) = view(alloc, words)?;
        return Ok((Decl::View(view), rest));
    }
    let (require, rest) = require(alloc, words)?;
    Ok((Decl::Require(require), rest))
}
