//! The numbers that are made of expressions on a combination of possible rows.

ghost use Rattle.std.specs.Prelude.{◌≡◌, ◌≤◌, ◌^◌, true, map, unsigned_abs, All, IfOk, option_map};
ghost use Rattle.prov_fold.specs.Graphs.{HasNumber};
ghost use Rattle.view_select.specs.Asking.{is_unknown};
ghost use Rattle.sym_rows.specs.Cells.{AreRowsOf, IsCellThere};
ghost use Rattle.sym_values.specs.Numbers as spec;
ghost use Rattle.sym_values.specs.Steps as steps;
ghost use Rattle.sym_values.specs.Meanings.{IsNumberOf};
ghost use Rattle.sym_rows.specs.Walks.{Makes};

use crate::parts::is_unknown;
use crate::plain_values::{cell_there, next_partial, plain};
use prov_fold::{Fold, Scaled};
use row_values::{Wide, within};
use std::alloc::Global;
use sym_rows::{Cell, SymRow, WalkFault, abs, constant, number_in, sum};
use tiql_query::{Column, Expr, Signed};

/// The most parts of a sum; no memory holds more.
const MOST_PARTS: u64 = 1_000_000_000_000_000_000;

/// The number of an expression on a combination of possible rows, one of each source (docs/FORMULAS.md, "The walk"). `scope` has the
/// columns of each source. On every world, for every later list, it is the plain value of the expression on what the rows are there,
/// where the rows fit the columns and the expression has a kind. The errors are those of the first call that is refused: `Wide` for a
/// value, a partial product, or the constant or an end of the range of a sum that passes 10^17 in size, `Full` where there are
/// 20,000,000 formulas, and `Memory`. What was appended before stays.
#[cycle(number)]
pub fn number(
    alloc: Global,
    fold: &mut Fold<'_>,
    scope: &[&[Column]],
    rows: &[&SymRow],
    expr: &Expr,
) -> Result<u32, WalkFault>
    requires { AreRowsOf fold.old (map (λ row. row.now) rows.now) }
    ensures { Makes (spec.number_of (map (λ columns. columns.now) scope.now) (map (λ row. row.now) rows.now) expr.now fold.old) HasNumber (IsNumberOf (map (λ columns. columns.now) scope.now) (map (λ row. row.now) rows.now) expr.now) fold.old result fold.new }
{
    if is_unknown(scope, expr) {
        unknown(alloc, fold, scope, rows, expr)
    } else {
        fixed(fold, rows, expr)
    }
}

/// The plain value of a fixed expression as a constant.
fn fixed(fold: &mut Fold<'_>, rows: &[&SymRow], expr: &Expr) -> Result<u32, WalkFault>
    ensures { Makes (spec.fixed_number (map (λ row. row.now) rows.now) expr.now fold.old) HasNumber (steps.IsPlainOf (map (λ row. row.now) rows.now) expr.now) fold.old result fold.new }
{
    let value = plain(expr, rows)?;
    constant(fold, value)
}

/// The number of an expression that has an unknown column.
#[cycle(number)]
fn unknown(
    alloc: Global,
    fold: &mut Fold<'_>,
    scope: &[&[Column]],
    rows: &[&SymRow],
    expr: &Expr,
) -> Result<u32, WalkFault>
    requires rows { AreRowsOf fold.old (map (λ row. row.now) rows.now) }
    requires unknown { is_unknown (map (λ columns. columns.now) scope.now) expr.now ≡ true }
    ensures { Makes (spec.number_of (map (λ columns. columns.now) scope.now) (map (λ row. row.now) rows.now) expr.now fold.old) HasNumber (IsNumberOf (map (λ columns. columns.now) scope.now) (map (λ row. row.now) rows.now) expr.now) fold.old result fold.new }
{
    match expr {
        Expr::Int(_) => constant(fold, 0),
        Expr::Text(_) => constant(fold, 0),
        Expr::Column(at) => cell_number(fold, cell_there(rows, *at)),
        Expr::Sum(parts) => sum_of(alloc, fold, scope, rows, parts.as_slice()),
        Expr::Product(factors) => product_of(alloc, fold, scope, rows, factors.as_slice()),
        Expr::Neg(part) => {
            let id = number(alloc, fold, scope, rows, part.get())?;
            times(fold, -1, id)
        }
        Expr::Abs(part) => {
            let id = number(alloc, fold, scope, rows, part.get())?;
            abs(fold, id)
        }
    }
}

/// The number in a cell.
fn cell_number(fold: &mut Fold<'_>, cell: Option<&Cell>) -> Result<u32, WalkFault>
    requires { IsCellThere fold.old (option_map (λ c. c.now) cell) }
    ensures { Makes (spec.cell_number (option_map (λ c. c.now) cell.entry) fold.old) HasNumber (steps.IsCellNumber (option_map (λ c. c.now) cell.entry)) fold.old result fold.new }
{
    match cell {
        None => constant(fold, 0),
        Some(Cell::Fixed(value)) => constant(fold, number_in(value)),
        Some(Cell::Number(id)) => Ok(*id),
    }
}

/// A number times a factor.
fn times(fold: &mut Fold<'_>, factor: i64, id: u32) -> Result<u32, WalkFault>
    requires number { HasNumber fold.old id }
    requires small { unsigned_abs factor ≤ 10 ^ 18 }
    ensures { Makes (spec.times factor id fold.old) HasNumber (steps.IsTimes factor id) fold.old result fold.new }
{
    sum(fold, 0, &[Scaled { factor, number: id }])
}

/// A sum that has an unknown part.
#[cycle(number)]
fn sum_of(
    alloc: Global,
    fold: &mut Fold<'_>,
    scope: &[&[Column]],
    rows: &[&SymRow],
    parts: &[Signed],
) -> Result<u32, WalkFault>
    requires { AreRowsOf fold.old (map (λ row. row.now) rows.now) }
    ensures { Makes (steps.sum_walk (map (λ columns. columns.now) scope.now) (map (λ row. row.now) rows.now) parts.now fold.old) HasNumber (steps.IsSumOf (map (λ columns. columns.now) scope.now) (map (λ row. row.now) rows.now) parts.now) fold.old result fold.new }
{
    let made = parts_of(alloc, fold, scope, rows, parts)?;
    sum_parts(fold, made.as_slice())
}

/// The sum of parts, of which no memory holds more than 10^18.
fn sum_parts(fold: &mut Fold<'_>, made: &[Scaled]) -> Result<u32, WalkFault>
    requires { All (steps.IsPart fold.old) made.now }
    ensures { Makes (steps.sum_made made.now fold.old) HasNumber (steps.IsSumMade made.now) fold.old result fold.new }
{
    if made.len() as u64 > MOST_PARTS {
        return Err(WalkFault::Memory);
    }
    sum(fold, 0, made)
}

/// The parts of a sum in turn.
#[cycle(number)]
fn parts_of(
    alloc: Global,
    fold: &mut Fold<'_>,
    scope: &[&[Column]],
    rows: &[&SymRow],
    parts: &[Signed],
) -> Result<Vec<Scaled>, WalkFault>
    requires { AreRowsOf fold.old (map (λ row. row.now) rows.now) }
    ensures { steps.MakesParts (map (λ columns. columns.now) scope.now) (map (λ row. row.now) rows.now) parts.now fold.old result fold.new }
{
    let mut made = Vec::new(alloc);
    for part in parts {
        let id = number(alloc, fold, scope, rows, &part.part)?;
        made.push(signed(part.minus, id))?;
    }
    Ok(made)
}

/// A number with its sign, as a part of a sum.
fn signed(minus: bool, id: u32) -> Scaled
    ensures { result ≡ spec.signed minus id }
{
    Scaled {
        factor: if minus { -1 } else { 1 },
        number: id,
    }
}

/// A product that has an unknown factor.
#[cycle(number)]
fn product_of(
    alloc: Global,
    fold: &mut Fold<'_>,
    scope: &[&[Column]],
    rows: &[&SymRow],
    factors: &[Expr],
) -> Result<u32, WalkFault>
    requires { AreRowsOf fold.old (map (λ row. row.now) rows.now) }
    ensures { Makes (steps.product_walk (map (λ columns. columns.now) scope.now) (map (λ row. row.now) rows.now) factors.now fold.old) HasNumber (steps.IsProductOf (map (λ columns. columns.now) scope.now) (map (λ row. row.now) rows.now) factors.now) fold.old result fold.new }
{
    let factor = fixed_product(scope, rows, factors)?;
    let id = first_unknown(alloc, fold, scope, rows, factors)?;
    times(fold, factor, id)
}

/// The first unknown factor of a product.
#[cycle(number)]
fn first_unknown(
    alloc: Global,
    fold: &mut Fold<'_>,
    scope: &[&[Column]],
    rows: &[&SymRow],
    factors: &[Expr],
) -> Result<u32, WalkFault>
    requires { AreRowsOf fold.old (map (λ row. row.now) rows.now) }
    ensures { Makes (steps.first_unknown (map (λ columns. columns.now) scope.now) (map (λ row. row.now) rows.now) factors.now fold.old) HasNumber (steps.IsFirstOf (map (λ columns. columns.now) scope.now) (map (λ row. row.now) rows.now) factors.now) fold.old result fold.new }
{
    for factor in factors {
        if is_unknown(scope, factor) {
            return number(alloc, fold, scope, rows, factor);
        }
    }
    constant(fold, 0)
}

/// The product of the fixed factors.
fn fixed_product(scope: &[&[Column]], rows: &[&SymRow], factors: &[Expr]) -> Result<i64, Wide>
    ensures value { result ≡ steps.fixed_product (map (λ columns. columns.now) scope.now) (map (λ row. row.now) rows.now) factors.now }
    ensures small { IfOk result (λ n. unsigned_abs n ≤ 10 ^ 17) }
{
    let mut partial: i128 = 1;
    for factor in factors {
        partial = with_fixed(scope, rows, factor, partial)?;
    }
    within(partial)
}

/// A partial product with one more factor, where that is fixed.
#[tactic(auto, unfolding(crate::specs::Steps::with_fixed))]
fn with_fixed(
    scope: &[&[Column]],
    rows: &[&SymRow],
    factor: &Expr,
    partial: i128,
) -> Result<i128, Wide>
    requires partial { unsigned_abs partial ≤ 10 ^ 34 }
    ensures value { result ≡ steps.with_fixed (map (λ columns. columns.now) scope.now) (map (λ row. row.now) rows.now) factor.now partial }
    ensures small { IfOk result (λ n. unsigned_abs n ≤ 10 ^ 34) }
{
    if is_unknown(scope, factor) {
        return Ok(partial);
    }
    Ok(next_partial(partial, plain(factor, rows)?))
}
