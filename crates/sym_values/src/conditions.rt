//! The truths that are made of conditions on a combination of possible rows.

ghost use Rattle.std.specs.Prelude.{◌≡◌, ◌≤◌, ◌||◌, map, unsigned_abs};
ghost use Rattle.base_kit.specs.Orders.{value_order};
ghost use Rattle.prov_fold.specs.Graphs.{HasNumber, HasTruth};
ghost use Rattle.row_values.specs.Asked as asked;
ghost use Rattle.row_values.specs.Values as value;
ghost use Rattle.view_select.specs.Asking.{is_unknown};
ghost use Rattle.sym_rows.specs.Cells.{AreRowsOf};
ghost use Rattle.sym_values.specs.Conditions as spec;
ghost use Rattle.sym_values.specs.Numbers as numbers;
ghost use Rattle.sym_values.specs.Tests as tests;
ghost use Rattle.sym_values.specs.Meanings.{IsTruthOf};
ghost use Rattle.sym_rows.specs.Walks.{Makes};

use crate::numbers::number;
use crate::parts::is_unknown;
use crate::plain_values::{plain, text};
use prov_fold::{Fold, Scaled};
use row_values::Wide;
use std::alloc::Global;
use std::cmp::Ordering;
use sym_rows::{SymRow, WalkFault, and, not, or, pos, sum, truth};
use tiql_query::{Cmp, Column, Cond, Expr};

/// The truth of a condition on a combination of possible rows, one of each source (docs/FORMULAS.md, "The walk"). `scope` has the
/// columns of each source. On every world, for every later list, it holds exactly where the condition holds of what the rows are there,
/// where the rows fit the columns and all that the condition compares is alike. The errors are those of the first call that is refused:
/// `Wide` for a value, a partial product, or the constant or an end of the range of a sum that passes 10^17 in size, `Full` where there
/// are 20,000,000 formulas, and `Memory`. What was appended before stays.
#[cycle(condition)]
pub fn condition(
    alloc: Global,
    fold: &mut Fold<'_>,
    scope: &[&[Column]],
    rows: &[&SymRow],
    test: &Cond,
) -> Result<u32, WalkFault>
    requires { AreRowsOf fold.old (map (λ row. row.now) rows.now) }
    ensures { Makes (spec.test_of (map (λ columns. columns.now) scope.now) (map (λ row. row.now) rows.now) test.now fold.old) HasTruth (IsTruthOf (map (λ columns. columns.now) scope.now) (map (λ row. row.now) rows.now) test.now) fold.old result fold.new }
{
    match test {
        Cond::Compare(how, one, other) => compare(alloc, fold, scope, rows, *how, one, other),
        Cond::Not(part) => {
            let id = condition(alloc, fold, scope, rows, part.get())?;
            not(fold, id)
        }
        Cond::And(parts) => {
            let ids = conditions(alloc, fold, scope, rows, parts.as_slice())?;
            and(fold, ids.as_slice())
        }
        Cond::Or(parts) => {
            let ids = conditions(alloc, fold, scope, rows, parts.as_slice())?;
            or(fold, ids.as_slice())
        }
    }
}

/// The truths of conditions in turn.
#[cycle(condition)]
fn conditions(
    alloc: Global,
    fold: &mut Fold<'_>,
    scope: &[&[Column]],
    rows: &[&SymRow],
    parts: &[Cond],
) -> Result<Vec<u32>, WalkFault>
    requires { AreRowsOf fold.old (map (λ row. row.now) rows.now) }
    ensures { tests.MakesTruths (map (λ columns. columns.now) scope.now) (map (λ row. row.now) rows.now) parts.now fold.old result fold.new }
{
    let mut made = Vec::new(alloc);
    for part in parts {
        made.push(condition(alloc, fold, scope, rows, part)?)?;
    }
    Ok(made)
}

/// A comparison: known where both sides are fixed, else both sides are made.
fn compare(
    alloc: Global,
    fold: &mut Fold<'_>,
    scope: &[&[Column]],
    rows: &[&SymRow],
    test: Cmp,
    one: &Expr,
    other: &Expr,
) -> Result<u32, WalkFault>
    requires { AreRowsOf fold.old (map (λ row. row.now) rows.now) }
    ensures { Makes (spec.compare_of (map (λ columns. columns.now) scope.now) (map (λ row. row.now) rows.now) test one.now other.now fold.old) HasTruth (tests.IsCompareOf (map (λ columns. columns.now) scope.now) (map (λ row. row.now) rows.now) test one.now other.now) fold.old result fold.new }
{
    if is_either_unknown(scope, one, other) {
        let left = number(alloc, fold, scope, rows, one)?;
        let right = number(alloc, fold, scope, rows, other)?;
        compared(fold, test, left, right)
    } else {
        let holds = compare_plain(rows, test, one, other)?;
        Ok(truth(fold, holds))
    }
}

/// Whether one of two sides has an unknown column.
fn is_either_unknown(scope: &[&[Column]], one: &Expr, other: &Expr) -> bool
    ensures { let columns = map (λ columns. columns.now) scope.now in result ≡ is_unknown columns one.now || is_unknown columns other.now }
{
    is_unknown(scope, one) || is_unknown(scope, other)
}

/// A comparison of two fixed sides.
#[tactic(auto, unfolding(crate::specs::Conditions::compare_plain))]
fn compare_plain(rows: &[&SymRow], test: Cmp, one: &Expr, other: &Expr) -> Result<bool, Wide>
    ensures { result ≡ spec.compare_plain (numbers.fixed_rows (map (λ row. row.now) rows.now)) test one.now other.now }
{
    let left = plain(one, rows)?;
    let right = plain(other, rows)?;
    Ok(holds(test, order(rows, one, left, other, right)))
}

/// How two fixed expressions stand to each other, whose numbers are known.
fn order(rows: &[&SymRow], one: &Expr, left: i64, other: &Expr, right: i64) -> Ordering
    ensures { result ≡ value_order (asked.value_of (asked.text_of (numbers.fixed_rows (map (λ row. row.now) rows.now)) one.now) left) (asked.value_of (asked.text_of (numbers.fixed_rows (map (λ row. row.now) rows.now)) other.now) right) }
{
    match text(one, rows) {
        Some(one) => match text(other, rows) {
            Some(other) => one.cmp(other),
            None => Ordering::Greater,
        },
        None => match text(other, rows) {
            Some(_) => Ordering::Less,
            None => left.cmp(&right),
        },
    }
}

/// Whether a comparison holds of values that stand so to each other.
#[tactic(auto, unfolding(row_values::specs::Values::holds))]
fn holds(test: Cmp, order: Ordering) -> bool
    ensures { result ≡ value.holds test order }
{
    match test {
        Cmp::Eq => order == Ordering::Equal,
        Cmp::Ne => order != Ordering::Equal,
        Cmp::Lt => order == Ordering::Less,
        Cmp::Le => order != Ordering::Greater,
        Cmp::Gt => order == Ordering::Greater,
        Cmp::Ge => order != Ordering::Less,
    }
}

/// A comparison of two numbers.
#[tactic(auto, unfolding(crate::specs::Conditions::compared))]
fn compared(fold: &mut Fold<'_>, test: Cmp, one: u32, other: u32) -> Result<u32, WalkFault>
    requires one { HasNumber fold.old one }
    requires other { HasNumber fold.old other }
    ensures { Makes (spec.compared test one other fold.old) HasTruth (tests.IsComparison test one other) fold.old result fold.new }
{
    match test {
        Cmp::Eq => {
            let least = at_least(fold, 0, one, other)?;
            let most = at_least(fold, 0, other, one)?;
            and(fold, &[least, most])
        }
        Cmp::Ne => {
            let above = at_least(fold, -1, one, other)?;
            let below = at_least(fold, -1, other, one)?;
            or(fold, &[above, below])
        }
        Cmp::Lt => at_least(fold, -1, other, one),
        Cmp::Le => at_least(fold, 0, other, one),
        Cmp::Gt => at_least(fold, -1, one, other),
        Cmp::Ge => at_least(fold, 0, one, other),
    }
}

/// Whether one number and a constant are at least another.
fn at_least(fold: &mut Fold<'_>, constant: i64, one: u32, other: u32) -> Result<u32, WalkFault>
    requires one { HasNumber fold.old one }
    requires other { HasNumber fold.old other }
    requires small { unsigned_abs constant ≤ 1 }
    ensures { Makes (spec.at_least constant one other fold.old) HasTruth (tests.IsAtLeast constant one other) fold.old result fold.new }
{
    let more = Scaled {
        factor: 1,
        number: one,
    };
    let less = Scaled {
        factor: -1,
        number: other,
    };
    let difference = sum(fold, constant, &[more, less])?;
    pos(fold, difference)
}
