//! The plain values of fixed expressions.

ghost use Rattle.std.specs.Prelude.{◌≡◌, ◌≤◌, ◌^◌, map, unsigned_abs, IfOk, option_map};
ghost use Rattle.row_values.specs.Asked as asked;
ghost use Rattle.row_values.specs.Values as value;
ghost use Rattle.sym_values.specs.Numbers as spec;
ghost use Rattle.sym_values.specs.Steps as steps;

use base_kit::{Txt, Value};
use row_values::{Wide, within};
use sym_rows::{Cell, SymRow};
use tiql_query::{At, Expr, Signed};

/// No value passes this in size.
const MOST_SIZE: u128 = 100_000_000_000_000_000;

/// The cell in a column of the sources of a combination, where the row and the column are there (docs/FORMULAS.md, "The walk").
#[tactic(auto, unfolding(crate::specs::Numbers::cell_there))]
pub fn cell_there<'a>(rows: &[&'a SymRow], at: At) -> Option<&'a Cell>
    ensures { option_map (λ cell. cell.now) result ≡ spec.cell_there (map (λ row. row.now) rows.now) at }
{
    match rows.get(at.source as usize) {
        None => None,
        Some(row) => row.cells.get(at.column as usize),
    }
}

/// The number in a fixed column; a text, and a column that is not there, count as 0.
#[tactic(auto, using(crate::proofs::PlainValues::cell_fixed))]
fn number_in(rows: &[&SymRow], at: At) -> i64
    ensures { result ≡ value.number (value.cell (spec.fixed_rows (map (λ row. row.now) rows.now)) at) }
{
    match cell_there(rows, at) {
        None => 0,
        Some(Cell::Fixed(Value::Int(number))) => *number,
        Some(Cell::Fixed(Value::Text(_))) => 0,
        Some(Cell::Number(_)) => 0,
    }
}

/// The text in a fixed column, where one stands there.
#[tactic(auto, using(crate::proofs::PlainValues::cell_fixed))]
fn text_in<'a>(rows: &[&'a SymRow], at: At) -> Option<&'a Txt>
    ensures { option_map (λ t. t.now) result ≡ value.text (value.cell (spec.fixed_rows (map (λ row. row.now) rows.now)) at) }
{
    match cell_there(rows, at) {
        None => None,
        Some(Cell::Fixed(Value::Int(_))) => None,
        Some(Cell::Fixed(Value::Text(text))) => Some(text),
        Some(Cell::Number(_)) => None,
    }
}

/// The text of a fixed expression on a combination of possible rows, where it is one; a number has none (docs/FORMULAS.md, "The walk").
#[tactic(auto, using(row_values::proofs::Evaluate::texts))]
pub fn text<'a>(expr: &'a Expr, rows: &[&'a SymRow]) -> Option<&'a Txt>
    ensures { option_map (λ t. t.now) result ≡ asked.text_of (spec.fixed_rows (map (λ row. row.now) rows.now)) expr.now }
{
    match expr {
        Expr::Int(_) => None,
        Expr::Text(text) => Some(text),
        Expr::Column(at) => text_in(rows, *at),
        Expr::Sum(_) => None,
        Expr::Product(_) => None,
        Expr::Neg(_) => None,
        Expr::Abs(_) => None,
    }
}

/// The number of a fixed expression on a combination of possible rows, at most 10^17 in size, and 0 for a text (docs/FORMULAS.md, "The
/// walk"). The error is the first value or partial product, in the order of the text, that passes 10^17 in size.
#[cycle(plain)]
#[tactic(auto, using(crate::proofs::PlainValues::equations))]
pub fn plain(expr: &Expr, rows: &[&SymRow]) -> Result<i64, Wide>
    ensures value { result ≡ spec.plain (spec.fixed_rows (map (λ row. row.now) rows.now)) expr.now }
    ensures small { IfOk result (λ n. unsigned_abs n ≤ 10 ^ 17) }
{
    match expr {
        Expr::Int(number) => within(i128::from(*number)),
        Expr::Text(_) => Ok(0),
        Expr::Column(at) => within(i128::from(number_in(rows, *at))),
        Expr::Sum(parts) => plain_sum(parts.as_slice(), rows),
        Expr::Product(factors) => plain_product(factors.as_slice(), rows),
        Expr::Neg(part) => Ok(-plain(part.get(), rows)?),
        Expr::Abs(part) => Ok(plain(part.get(), rows)?.abs()),
    }
}

/// The number of a part of a sum, with its sign.
#[cycle(plain)]
#[tactic(auto, using(crate::proofs::PlainValues::equations))]
fn plain_signed(part: &Signed, rows: &[&SymRow]) -> Result<i64, Wide>
    ensures value { result ≡ spec.plain_part (spec.fixed_rows (map (λ row. row.now) rows.now)) part.now }
    ensures small { IfOk result (λ n. unsigned_abs n ≤ 10 ^ 17) }
{
    let size = plain(&part.part, rows)?;
    Ok(if part.minus { -size } else { size })
}

#[cycle(plain)]
#[tactic(auto, using(crate::proofs::PlainValues::equations))]
fn plain_sum(parts: &[Signed], rows: &[&SymRow]) -> Result<i64, Wide>
    ensures value { result ≡ asked.sum_asked (map (spec.plain_part (spec.fixed_rows (map (λ row. row.now) rows.now))) parts.now) }
    ensures small { IfOk result (λ n. unsigned_abs n ≤ 10 ^ 17) }
{
    let mut total: i128 = 0;
    for part in parts {
        total += i128::from(plain_signed(part, rows)?);
    }
    within(total)
}

#[cycle(plain)]
#[tactic(auto, using(crate::proofs::PlainValues::equations))]
fn plain_product(factors: &[Expr], rows: &[&SymRow]) -> Result<i64, Wide>
    ensures value { result ≡ spec.product_of (map (spec.plain (spec.fixed_rows (map (λ row. row.now) rows.now))) factors.now) }
    ensures small { IfOk result (λ n. unsigned_abs n ≤ 10 ^ 17) }
{
    let mut partial: i128 = 1;
    for factor in factors {
        partial = next_partial(partial, plain(factor, rows)?);
    }
    within(partial)
}

/// A partial product with one more factor. One that passes stays as it is.
#[tactic(auto, unfolding(crate::specs::Steps::next))]
pub(crate) fn next_partial(partial: i128, factor: i64) -> i128
    requires partial { unsigned_abs partial ≤ 10 ^ 34 }
    requires factor { unsigned_abs factor ≤ 10 ^ 17 }
    ensures value { result ≡ steps.next partial factor }
    ensures bound { unsigned_abs result ≤ 10 ^ 34 }
{
    if partial.unsigned_abs() > MOST_SIZE {
        partial
    } else {
        partial * i128::from(factor)
    }
}
