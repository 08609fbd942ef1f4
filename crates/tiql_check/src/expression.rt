//! Expressions, with their types and marks.
ghost use Rattle.std.specs.Prelude.{◌≡◌, map};
ghost use Rattle.tiql_check.specs.Expressions as spec;
ghost use Rattle.tiql_check.specs.Scopes.{scope_of};
ghost use Rattle.tiql_check.specs.Turns.{ChecksTo, ChecksInto, in_turn};

use crate::SoundFault;
use crate::scope::{InScope, Kind, resolve};
use base_kit::{Boxed, Duplicate, List, Place};
use std::alloc::Global;
use tiql_query::{Expr, Signed};
use tiql_tree::{TreeExpr, TreeForm, TreeRef, TreeSigned};

/// A checked expression, with what it makes.
#[derive(Debug, Drop)]
pub struct Typed {
    /// The expression.
    pub expr: Expr,
    /// What it makes.
    pub kind: Kind,
}

/// The first parts of a sum.
#[derive(Debug, Drop)]
pub struct Terms {
    /// These parts.
    pub parts: List<Signed>,
    /// Whether one of them is unknown.
    pub unknown: bool,
}

/// The first factors of a product.
#[derive(Debug, Drop)]
pub struct Factors {
    /// These factors.
    pub parts: List<Expr>,
    /// Whether one of them is unknown.
    pub unknown: bool,
}

/// The expression over these relations, with its type and mark.
#[cycle(expression)]
pub fn check_expression(
    alloc: Global,
    scope: &[InScope<'_>],
    expr: &TreeExpr,
) -> Result<Typed, SoundFault>
    ensures { ChecksTo (spec.typed_in (scope_of scope.now) expr.now) result }
{
    match &expr.form {
        TreeForm::Number(number) => Ok(Typed {
            expr: Expr::Int(*number),
            kind: Kind::number(false),
        }),
        TreeForm::Text(text) => Ok(Typed {
            expr: Expr::Text(text.copy(alloc)?),
            kind: Kind {
                text: true,
                unknown: false,
            },
        }),
        TreeForm::Ref(column) => check_name(scope, column),
        TreeForm::Sum(parts) => {
            let all = check_terms(alloc, scope, parts.as_slice())?;
            Ok(Typed {
                expr: Expr::Sum(all.parts),
                kind: Kind::number(all.unknown),
            })
        }
        TreeForm::Product(parts) => {
            let all = check_factors(alloc, scope, parts.as_slice())?;
            Ok(Typed {
                expr: Expr::Product(all.parts),
                kind: Kind::number(all.unknown),
            })
        }
        TreeForm::Neg(part) => {
            let part = part.get();
            let one = as_number(check_expression(alloc, scope, part)?, part.place)?;
            negated(alloc, one)
        }
        TreeForm::Abs(part) => {
            let part = part.get();
            let one = as_number(check_expression(alloc, scope, part)?, part.place)?;
            absolute(alloc, one)
        }
    }
}

#[cycle(expression)]
fn check_terms(
    alloc: Global,
    scope: &[InScope<'_>],
    parts: &[TreeSigned],
) -> Result<Terms, SoundFault>
    ensures { ChecksTo (in_turn spec.with_term spec.no_terms (map (spec.signed_in (scope_of scope.now)) parts.now)) result }
{
    let mut before = Terms {
        parts: List::new(alloc),
        unknown: false,
    };
    for part in parts {
        let term = as_number(check_expression(alloc, scope, &part.part)?, part.part.place)?;
        add_term(&mut before, part.minus, term)?;
    }
    Ok(before)
}

#[cycle(expression)]
fn check_factors(
    alloc: Global,
    scope: &[InScope<'_>],
    parts: &[TreeExpr],
) -> Result<Factors, SoundFault>
    ensures { ChecksTo (in_turn spec.with_factor spec.no_factors (map (spec.part_in (scope_of scope.now)) parts.now)) result }
{
    let mut before = Factors {
        parts: List::new(alloc),
        unknown: false,
    };
    for part in parts {
        let factor = as_number(check_expression(alloc, scope, part)?, part.place)?;
        add_factor(&mut before, part.place, factor)?;
    }
    Ok(before)
}

fn add_term(before: &mut Terms, minus: bool, term: Typed) -> Result<(), SoundFault>
    ensures { ChecksInto (Ok (spec.add_term before.old minus term)) before.new result }
{
    before.unknown = before.unknown || term.kind.unknown;
    before.parts.push(Signed {
        minus,
        part: term.expr,
    })?;
    Ok(())
}

// A product has one unknown factor at most.
fn add_factor(before: &mut Factors, place: Place, factor: Typed) -> Result<(), SoundFault>
    ensures { ChecksInto (spec.add_factor before.old place factor) before.new result }
{
    if before.unknown && factor.kind.unknown {
        return Err(SoundFault::NotLinear(place));
    }
    before.unknown = before.unknown || factor.kind.unknown;
    before.parts.push(factor.expr)?;
    Ok(())
}

fn check_name(scope: &[InScope<'_>], column: &TreeRef) -> Result<Typed, SoundFault>
    ensures { ChecksTo (spec.named_in (scope_of scope.now) column.now) result }
{
    let meant = resolve(scope, column)?;
    Ok(Typed {
        expr: Expr::Column(meant.at),
        kind: meant.kind,
    })
}

/// A text is no operand. The place is that of the operand.
pub fn as_number(typed: Typed, place: Place) -> Result<Typed, SoundFault>
    ensures { result ≡ spec.as_number place typed }
{
    if typed.kind.text {
        return Err(SoundFault::WrongType(place));
    }
    Ok(typed)
}

fn negated(alloc: Global, one: Typed) -> Result<Typed, SoundFault>
    ensures { ChecksTo (Ok (spec.negated one)) result }
{
    Ok(Typed {
        expr: Expr::Neg(Boxed::new(alloc, one.expr)?),
        kind: Kind::number(one.kind.unknown),
    })
}

fn absolute(alloc: Global, one: Typed) -> Result<Typed, SoundFault>
    ensures { ChecksTo (Ok (spec.absolute one)) result }
{
    Ok(Typed {
        expr: Expr::Abs(Boxed::new(alloc, one.expr)?),
        kind: Kind::number(one.kind.unknown),
    })
}

/// The expression over these relations, which has to be a whole number.
#[tactic(auto, unfolding(crate::specs::Expressions::number_in))]
pub fn check_number(
    alloc: Global,
    scope: &[InScope<'_>],
    expr: &TreeExpr,
) -> Result<Typed, SoundFault>
    ensures { ChecksTo (spec.number_in (scope_of scope.now) expr.now) result }
{
    as_number(check_expression(alloc, scope, expr)?, expr.place)
}
