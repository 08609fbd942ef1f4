//! The check of a whole query.
ghost use Rattle.std.specs.Prelude.{◌≢◌, IfOk, IfErr};
ghost use Rattle.tiql_query.specs.WellFormed.{IsWellFormed};
ghost use Rattle.tiql_tree.specs.Unplaced.{HasText};
ghost use Rattle.tiql_check.specs.Sound as spec;
ghost use Rattle.tiql_check.specs.Sound.{Sound, FirstBroken};
ghost use Rattle.tiql_check.specs.Grouped.{AreGrouped};
ghost use Rattle.tiql_check.specs.Known.{nothing};
ghost use Rattle.tiql_check.specs.Turns.{ChecksTo, ChecksInto, in_turn};

use crate::SoundFault;
use crate::condition::check_condition;
use crate::expression::check_number;
use crate::hypo::check_hypo;
use crate::known::{
    Known, add_hypo, add_require, add_table, add_view, columns_in, declared, nothing,
};
use crate::scope::InScope;
use crate::table::check_table;
use crate::view::check_view;
use std::alloc::Global;
use tiql_query::{Aim, Cond, Expr, Query, Require, Source};
use tiql_tree::{Decl, Spot, Tree, TreeCond, TreeExpr, TreeGoal, TreeRequire};

// A relation with a condition over its columns.
#[tactic(auto, unfolding(crate::specs::Scopes::scope_of))]
fn check_have(
    alloc: Global,
    known: &Known,
    spot: &Spot,
    test: &TreeCond,
) -> Result<(Source, Cond), SoundFault>
    ensures { ChecksTo (spec.have known.now spot.now test.now) result }
{
    let source = declared(known, spot)?;
    let scope = [InScope {
        alias: Some(&spot.name),
        columns: columns_in(known, source),
    }];
    let test = check_condition(alloc, &scope, test)?;
    Ok((source, test))
}

#[tactic(auto, unfolding(crate::specs::Sound::checked_require))]
fn check_require(alloc: Global, known: &Known, tree: &TreeRequire) -> Result<Require, SoundFault>
    ensures { ChecksTo (spec.checked_require known.now tree.now) result }
{
    match tree {
        TreeRequire::All(spot, test) => {
            let (source, test) = check_have(alloc, known, spot, test)?;
            Ok(Require::All(source, test))
        }
        TreeRequire::Some(spot, test) => {
            let (source, test) = check_have(alloc, known, spot, test)?;
            Ok(Require::Some(source, test))
        }
        TreeRequire::None(spot) => Ok(Require::None(declared(known, spot)?)),
    }
}

#[tactic(auto, unfolding(crate::specs::Sound::with_decl))]
fn add_decl(alloc: Global, known: &mut Known, decl: &Decl) -> Result<(), SoundFault>
    ensures { ChecksInto (spec.with_decl known.old decl.now) known.new result }
{
    match decl {
        Decl::Table(tree) => {
            let table = check_table(alloc, known, tree)?;
            add_table(alloc, known, table)?;
        }
        Decl::Hypo(tree) => {
            let hypo = check_hypo(alloc, known, tree)?;
            add_hypo(alloc, known, hypo)?;
        }
        Decl::View(tree) => {
            let view = check_view(alloc, known, tree)?;
            add_view(alloc, known, view)?;
        }
        Decl::Require(tree) => {
            let require = check_require(alloc, known, tree)?;
            add_require(known, require)?;
        }
    }
    Ok(())
}

fn check_declarations(alloc: Global, decls: &[Decl]) -> Result<Known, SoundFault>
    ensures { ChecksTo (in_turn spec.with_decl nothing decls.now) result }
{
    let mut known = nothing(alloc);
    for decl in decls {
        add_decl(alloc, &mut known, decl)?;
    }
    Ok(known)
}

// The relation of a goal is checked before its expression.
#[tactic(auto, unfolding(crate::specs::Scopes::scope_of))]
fn check_summed(
    alloc: Global,
    known: &Known,
    part: &TreeExpr,
    relation: &Spot,
) -> Result<(Source, Expr), SoundFault>
    ensures { ChecksTo (spec.summed known.now part.now relation.now) result }
{
    let source = declared(known, relation)?;
    let scope = [InScope {
        alias: Some(&relation.name),
        columns: columns_in(known, source),
    }];
    let part = check_number(alloc, &scope, part)?;
    Ok((source, part.expr))
}

#[tactic(auto, unfolding(crate::specs::Sound::checked_goal))]
fn check_goal(alloc: Global, known: &Known, tree: &TreeGoal) -> Result<Aim, SoundFault>
    ensures { ChecksTo (spec.checked_goal known.now tree.now) result }
{
    match tree {
        TreeGoal::Find => Ok(Aim::Find),
        TreeGoal::Sum {
            maximize,
            part,
            relation,
        } => {
            let (source, part) = check_summed(alloc, known, part, relation)?;
            Ok(Aim::Sum {
                maximize: *maximize,
                source,
                part,
            })
        }
    }
}

#[tactic(auto, unfolding(crate::specs::Sound::checked))]
fn check_tree(alloc: Global, tree: &Tree) -> Result<Query, SoundFault>
    ensures { ChecksTo (spec.checked tree.now) result }
{
    let known = check_declarations(alloc, tree.decls.as_slice())?;
    let aim = check_goal(alloc, &known, &tree.goal)?;
    let Known {
        relations: _,
        mut query,
    } = known;
    query.aim = aim;
    Ok(query)
}

/// The query that a tree says, or the first rule of the language that it breaks (docs/LANGUAGE.md, "Soundness"). The
/// declarations are checked in their order, and then the goal; a part is checked before the whole, and at one place the rules
/// are tried in the order of `SoundFault`. Any tree is checked, also one that no text spells.
#[tactic(auto, unfolding(crate::specs::Sound::Sound, crate::specs::Sound::FirstBroken))]
pub fn check(alloc: Global, tree: &Tree) -> Result<Query, SoundFault>
    ensures sound { IfOk result (λ query. Sound tree.now query) }
    ensures broken { IfErr result (λ fault. fault ≢ SoundFault.Memory → FirstBroken tree.now fault) }
    ensures well_formed { HasText tree.now → IfOk result (λ query. IsWellFormed query) }
    ensures grouped { IfOk result (λ query. AreGrouped query) }
{
    check_tree(alloc, tree)
}
