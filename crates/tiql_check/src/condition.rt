//! Conditions.
ghost use Rattle.std.specs.Prelude.{◌≡◌, map, []};
ghost use Rattle.tiql_check.specs.Conditions as spec;
ghost use Rattle.tiql_check.specs.Scopes.{scope_of};
ghost use Rattle.tiql_check.specs.Turns.{ChecksTo, in_turn};

use crate::SoundFault;
use crate::expression::check_expression;
use crate::scope::InScope;
use base_kit::{Boxed, List};
use std::alloc::Global;
use tiql_query::{Cmp, Cond};
use tiql_tree::{TreeCmp, TreeCond, TreeExpr};

fn cmp_of(cmp: TreeCmp) -> Cmp
    ensures { result ≡ spec.cmp_of cmp }
{
    match cmp {
        TreeCmp::Eq => Cmp::Eq,
        TreeCmp::Ne => Cmp::Ne,
        TreeCmp::Lt => Cmp::Lt,
        TreeCmp::Le => Cmp::Le,
        TreeCmp::Gt => Cmp::Gt,
        TreeCmp::Ge => Cmp::Ge,
    }
}

/// Whether one is a text and the other a whole number.
pub fn differ(one: bool, other: bool) -> bool
    ensures { result ≡ spec.differ one other }
{
    if one { !other } else { other }
}

// A comparison, of which both sides have one type.
#[tactic(auto, unfolding(crate::specs::Conditions::compared))]
fn check_comparison(
    alloc: Global,
    scope: &[InScope<'_>],
    cmp: TreeCmp,
    one: &TreeExpr,
    other: &TreeExpr,
) -> Result<Cond, SoundFault>
    ensures { ChecksTo (spec.compared (scope_of scope.now) cmp one.now other.now) result }
{
    let left = check_expression(alloc, scope, one)?;
    let right = check_expression(alloc, scope, other)?;
    if differ(left.kind.text, right.kind.text) {
        return Err(SoundFault::WrongType(other.place));
    }
    Ok(Cond::Compare(cmp_of(cmp), left.expr, right.expr))
}

/// The condition over these relations.
#[cycle(condition)]
pub fn check_condition(
    alloc: Global,
    scope: &[InScope<'_>],
    cond: &TreeCond,
) -> Result<Cond, SoundFault>
    ensures { ChecksTo (spec.cond_in (scope_of scope.now) cond.now) result }
{
    match cond {
        TreeCond::Compare(cmp, one, other) => check_comparison(alloc, scope, *cmp, one, other),
        TreeCond::Not(part) => {
            let part = check_condition(alloc, scope, part.get())?;
            Ok(Cond::Not(Boxed::new(alloc, part)?))
        }
        TreeCond::And(parts) => Ok(Cond::And(check_conditions(alloc, scope, parts.as_slice())?)),
        TreeCond::Or(parts) => Ok(Cond::Or(check_conditions(alloc, scope, parts.as_slice())?)),
    }
}

#[cycle(condition)]
fn check_conditions(
    alloc: Global,
    scope: &[InScope<'_>],
    parts: &[TreeCond],
) -> Result<List<Cond>, SoundFault>
    ensures { ChecksTo (in_turn spec.with_part [] (map (spec.cond_in (scope_of scope.now)) parts.now)) result }
{
    let mut before = List::new(alloc);
    for part in parts {
        before.push(check_condition(alloc, scope, part)?)?;
    }
    Ok(before)
}

/// The condition behind WHERE, where it is written.
pub fn check_filter(
    alloc: Global,
    scope: &[InScope<'_>],
    cond: &Option<TreeCond>,
) -> Result<Option<Cond>, SoundFault>
    ensures { ChecksTo (spec.filter_in (scope_of scope.now) cond.now) result }
{
    match cond {
        None => Ok(None),
        Some(cond) => Ok(Some(check_condition(alloc, scope, cond)?)),
    }
}
