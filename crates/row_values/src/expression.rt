//! Values of expressions on rows.

ghost use Rattle.std.specs.Prelude.{◌≡◌, ◌≤◌, ◌^◌, ℕ, List, map, unsigned_abs, IfOk, option_map};
ghost use Rattle.base_kit.specs.Asking.{all_of};
ghost use Rattle.row_values.specs.Values as value;
ghost use Rattle.row_values.specs.Asked as spec;
ghost use Rattle.row_values.specs.Steps as steps;

use crate::fault::Wide;
use base_kit::{Row, Txt, Value};
use tiql_query::{At, Expr, Signed};

/// The greatest size of a value.
pub const MOST_SIZE: u128 = 100_000_000_000_000_000;

/// The number of an expression on a row of each source in scope, and 0 for a text (docs/MEANING.md, "The number told").
#[cycle(number)]
#[tactic(auto, using(crate::proofs::Evaluate::equations))]
pub fn number(expr: &Expr, rows: &[&Row]) -> Result<i64, Wide>
    ensures value { result ≡ spec.asked (map (λ row. row.now) rows.now) expr.now }
    ensures small { IfOk result (λ n. unsigned_abs n ≤ 10 ^ 17) }
{
    match expr {
        Expr::Int(number) => within(i128::from(*number)),
        Expr::Text(_) => Ok(0),
        Expr::Column(at) => within(i128::from(number_in(rows, *at))),
        Expr::Sum(parts) => sum(parts.as_slice(), rows),
        Expr::Product(factors) => product(factors.as_slice(), rows),
        Expr::Neg(part) => Ok(-number(part.get(), rows)?),
        Expr::Abs(part) => Ok(number(part.get(), rows)?.abs()),
    }
}

/// The number of a part of a sum, with its sign.
#[cycle(number)]
#[tactic(auto, using(crate::proofs::Evaluate::equations))]
fn signed(part: &Signed, rows: &[&Row]) -> Result<i64, Wide>
    ensures value { result ≡ spec.asked_part (map (λ row. row.now) rows.now) part.now }
    ensures small { IfOk result (λ n. unsigned_abs n ≤ 10 ^ 17) }
{
    let size = number(&part.part, rows)?;
    Ok(if part.minus { -size } else { size })
}

#[cycle(number)]
#[tactic(auto, using(crate::proofs::Evaluate::equations))]
fn sum(parts: &[Signed], rows: &[&Row]) -> Result<i64, Wide>
    ensures value { result ≡ spec.sum_asked (map (spec.asked_part (map (λ row. row.now) rows.now)) parts.now) }
    ensures small { IfOk result (λ n. unsigned_abs n ≤ 10 ^ 17) }
{
    let mut total: i128 = 0;
    for part in parts {
        total += i128::from(signed(part, rows)?);
    }
    within(total)
}

#[cycle(number)]
#[tactic(auto, using(crate::proofs::Evaluate::equations))]
fn product(factors: &[Expr], rows: &[&Row]) -> Result<i64, Wide>
    ensures value { result ≡ spec.product_asked (map (spec.asked (map (λ row. row.now) rows.now)) factors.now) }
    ensures small { IfOk result (λ n. unsigned_abs n ≤ 10 ^ 17) }
{
    let mut partial: i128 = 1;
    for factor in factors {
        partial = next_partial(partial, number(factor, rows)?);
    }
    within(partial)
}

/// A partial product with one more factor. One that passes stays as it is, but a factor 0 makes it 0.
#[tactic(auto, unfolding(crate::specs::Steps::next))]
fn next_partial(partial: i128, factor: i64) -> i128
    requires partial { unsigned_abs partial ≤ 10 ^ 34 }
    requires factor { unsigned_abs factor ≤ 10 ^ 17 }
    ensures value { result ≡ steps.next partial factor }
    ensures bound { unsigned_abs result ≤ 10 ^ 34 }
{
    if factor == 0 {
        0
    } else if partial.unsigned_abs() > MOST_SIZE {
        partial
    } else {
        partial * i128::from(factor)
    }
}

/// The number, unless it passes 10^17 in size.
#[tactic(auto, unfolding(crate::specs::Asked::within))]
pub fn within(number: i128) -> Result<i64, Wide>
    ensures value { result ≡ spec.within number }
    ensures small { IfOk result (λ n. unsigned_abs n ≤ 10 ^ 17) }
{
    if number.unsigned_abs() > MOST_SIZE {
        Err(Wide { number })
    } else {
        Ok(number as i64)
    }
}

/// The number in a column; a text, and a column that is not there, count as 0.
#[tactic(auto, unfolding(crate::specs::Values::cell, crate::specs::Steps::cell_there))]
fn number_in(rows: &[&Row], at: At) -> i64
    ensures { result ≡ value.number (value.cell (map (λ row. row.now) rows.now) at) }
{
    match cell(rows, at) {
        Some(Value::Int(number)) => *number,
        Some(Value::Text(_)) => 0,
        None => 0,
    }
}

/// What stands in a column of a row of each source in scope, where the column is there. It takes no memory.
#[tactic(auto, unfolding(crate::specs::Steps::cell_there))]
pub fn cell<'a>(rows: &[&'a Row], at: At) -> Option<&'a Value>
    ensures { option_map (λ v. v.now) result ≡ steps.cell_there (map (λ row. row.now) rows.now) at }
{
    rows.get(at.source as usize)?.get(at.column as usize)
}

/// The text in a column, where one stands there.
#[tactic(auto, unfolding(crate::specs::Values::cell, crate::specs::Steps::cell_there))]
fn text_in<'a>(rows: &[&'a Row], at: At) -> Option<&'a Txt>
    ensures { option_map (λ t. t.now) result ≡ value.text (value.cell (map (λ row. row.now) rows.now) at) }
{
    match cell(rows, at) {
        Some(Value::Int(_)) => None,
        Some(Value::Text(text)) => Some(text),
        None => None,
    }
}

/// The text of an expression on a row of each source in scope, where it is one.
#[tactic(auto, using(crate::proofs::Evaluate::texts))]
pub fn text<'a>(expr: &'a Expr, rows: &[&'a Row]) -> Option<&'a Txt>
    ensures { option_map (λ t. t.now) result ≡ spec.text_of (map (λ row. row.now) rows.now) expr.now }
{
    match expr {
        Expr::Int(_) => None,
        Expr::Text(text) => Some(text),
        Expr::Column(at) => text_in(rows, *at),
        Expr::Sum(_) => None,
        Expr::Product(_) => None,
        Expr::Neg(_) => None,
        Expr::Abs(_) => None,
    }
}
