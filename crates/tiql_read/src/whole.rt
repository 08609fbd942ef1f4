//! Reads whole queries.
ghost use Rattle.std.specs.Prelude.{◌≡◌};
ghost use Rattle.tiql_read.specs.Outcomes.{ReadsAs, ReadsAllAs};
ghost use Rattle.tiql_read.specs.Steps.{begins, take_as, many_at};
ghost use Rattle.tiql_read.specs.Queries as spec;

use crate::declaration::declaration;
use crate::item::grouped;
use crate::leaf::{begins_key, is_key, key, name, sign, told};
use crate::word::{Reading, Seen, Stop};
use base_kit::List;
use std::alloc::Global;
use tiql_tree::{Decl, Tree, TreeGoal};

// Whether a word stands here that begins a declaration.
#[tactic(auto, unfolding(crate::specs::Queries::declares))]
fn begins_declaration(words: &[Seen]) -> bool
    ensures { result ≡ begins spec.declares words.now }
{
    match words {
        [first, ..] => {
            is_key(first, b"TABLE")
                || is_key(first, b"HYPO")
                || is_key(first, b"VIEW")
                || is_key(first, b"REQUIRE")
        }
        [] => false,
    }
}

// All declarations that follow.
fn declarations(alloc: Global, words: &[Seen]) -> Reading<'_, List<Decl>>
    ensures { ReadsAs result (many_at spec.declares spec.decl_at words.now) }
{
    let mut decls = List::new(alloc);
    let mut rest = words;
    // A declaration has a word, so there are no more declarations than words.
    for _ in 0..words.len() {
        if !begins_declaration(rest) {
            return Ok((decls, rest));
        }
        let (decl, behind) = declaration(alloc, rest)?;
        decls.push(decl)?;
        rest = behind;
    }
    Ok((decls, rest))
}

// Whether the word is MAXIMIZE, and not MINIMIZE.
#[tactic(auto, unfolding(crate::specs::Queries::aim_of))]
fn aim_of(seen: &Seen) -> Option<bool>
    ensures { result ≡ spec.aim_of seen.now }
{
    if is_key(seen, b"MAXIMIZE") {
        Some(true)
    } else if is_key(seen, b"MINIMIZE") {
        Some(false)
    } else {
        None
    }
}

// MAXIMIZE or MINIMIZE.
#[tactic(auto, unfolding(crate::specs::Steps::take_as))]
fn aim(words: &[Seen]) -> Reading<'_, bool>
    ensures { ReadsAs result (take_as spec.aim_of words.now) }
{
    let [first, rest @ ..] = words else {
        return Err(Stop::Wrong(0));
    };
    told(words, aim_of(first), rest)
}

// That any world will do.
#[tactic(auto, unfolding(crate::specs::Queries::find_at))]
fn find(words: &[Seen]) -> Reading<'_, TreeGoal>
    ensures { ReadsAs result (spec.find_at words.now) }
{
    let rest = key(words, b"FIND")?;
    let rest = sign(rest, b";")?;
    Ok((TreeGoal::Find, rest))
}

// The greatest or least sum.
#[tactic(auto, unfolding(crate::specs::Queries::sum_goal_at))]
fn sum_goal(alloc: Global, words: &[Seen]) -> Reading<'_, TreeGoal>
    ensures { ReadsAs result (spec.sum_goal_at words.now) }
{
    let (maximize, rest) = aim(words)?;
    let rest = key(rest, b"SUM")?;
    let (part, rest) = grouped(alloc, rest)?;
    let rest = key(rest, b"FROM")?;
    let (relation, rest) = name(alloc, rest)?;
    let rest = sign(rest, b";")?;
    let goal = TreeGoal::Sum {
        maximize,
        part,
        relation,
    };
    Ok((goal, rest))
}

// The goal.
#[tactic(auto, unfolding(crate::specs::Queries::goal_at))]
fn goal(alloc: Global, words: &[Seen]) -> Reading<'_, TreeGoal>
    ensures { ReadsAs result (spec.goal_at words.now) }
{
    if begins_key(words, b"FIND") {
        find(words)
    } else {
        sum_goal(alloc, words)
    }
}

/// The tree of a query's words.
#[tactic(auto, unfolding(crate::specs::Queries::query_at))]
pub fn query(alloc: Global, words: &[Seen]) -> Result<Tree, Stop>
    ensures { ReadsAllAs result (spec.query_at words.now) }
{
    let (decls, rest) = declarations(alloc, words)?;
    let (goal, rest) = goal(alloc, rest)?;
    if rest.is_empty() {
        Ok(Tree { decls, goal })
    } else {
        Err(Stop::Wrong(rest.len()))
    }
}
